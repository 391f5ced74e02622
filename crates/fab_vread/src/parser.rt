//! The tree of a text, built token by token.

ghost use Rattle.std.specs.Prelude.{◌≡◌, ◌++◌, ◌∷◌, [], map, OnOk};
ghost use Rattle.fab_base.specs.Reading.{Answers};
ghost use Rattle.fab_vread.specs.inner.OpenLevels.{levels_of};
ghost use Rattle.fab_vread.specs.inner.Expressions.{plain_reading, wanting, nothing};
ghost use Rattle.fab_syntax.specs.Plain.{plain_expr, plain_option, plain_join, plain_item, plain_module};
ghost use Rattle.fab_vread.specs.inner.Machine.{plain_parser, with_port, with_item_at, with_module, declared, closed, with_join, instanced, with_gate, with_latch, with_value, valued, begun, moved, after_token, first_machine};

use crate::expressions::{Outcome, Over, Reading, is_mark, refused, take};
use crate::levels::{Levels, Wanted, no_expression};
use crate::places::{Header, Joins, Kind, Move, Place, Process, Purpose, move_of};
use fab_base::{Memory, Name, Problem};
use fab_syntax::{Expr, Item, Join, Module, Port, Shape};
use fab_tokens::Token;
use std::alloc::Global;
use std::mem;

/// Whether the next token stands in an expression.
#[derive(Drop)]
pub(crate) enum State {
    Outside(Place),
    /// With how far the innermost bracket has been read.
    Inside(Purpose, Reading),
}

/// What has been read of a text.
#[derive(Drop)]
pub(crate) struct Parser {
    /// The modules that are whole.
    pub modules: Vec<Module>,
    /// The name of the module in progress, with its ports and items.
    pub name: Name,
    pub ports: Vec<Port>,
    pub items: Vec<Item>,
    /// The joins of the instance in progress.
    pub joins: Vec<Join>,
    /// The gate of the latch in progress; a constant without bits where there is none.
    pub gate: Expr,
    /// The brackets of the expression in progress that are open.
    pub levels: Levels,
    pub state: State,
    /// What is above its bound.
    pub over: Option<Over>,
}

/// Puts a value in the place of another, which is let go. Apart from its callers, since each form of what is let go would be a
/// case of their proofs.
pub(crate) fn put<T: Drop>(slot: &mut T, value: T)
    ensures { slot.new ≡ value }
{
    *slot = value;
}

fn push_port(ports: &mut Vec<Port>, input: bool, shape: Shape, name: Name) -> Result<(), Memory>
    ensures { OnOk result (ports.new.items ≡ ports.old.items ++ record { input = input; shape = shape; name = name } ∷ []) }
{
    ports.push(Port { input, shape, name })?;
    Ok(())
}

fn push_item(items: &mut Vec<Item>, item: Item) -> Result<(), Memory>
    ensures { OnOk result (map plain_item items.new.items ≡ map plain_item items.old.items ++ plain_item item ∷ []) }
{
    items.push(item)?;
    Ok(())
}

fn push_join(joins: &mut Vec<Join>, port: Name, to: Option<Expr>) -> Result<(), Memory>
    ensures { OnOk result (map plain_join joins.new.items ≡ map plain_join joins.old.items ++ record { port = port; to = plain_option to } ∷ []) }
{
    joins.push(Join { port, to })?;
    Ok(())
}

fn push_module(modules: &mut Vec<Module>, whole: Module) -> Result<(), Memory>
    ensures { OnOk result (map plain_module modules.new.items ≡ map plain_module modules.old.items ++ plain_module whole ∷ []) }
{
    modules.push(whole)?;
    Ok(())
}

impl Parser {
    /// Before the first token.
    #[tactic(auto, unfolding(crate::specs::inner::Machine::first_machine))]
    pub(crate) fn new(alloc: Global) -> Parser
        ensures { plain_parser result ≡ first_machine }
    {
        Parser {
            modules: Vec::new(alloc),
            name: Name::from(Vec::new(alloc)),
            ports: Vec::new(alloc),
            items: Vec::new(alloc),
            joins: Vec::new(alloc),
            gate: no_expression(alloc),
            levels: Levels::new(alloc),
            state: State::Outside(Place::Header(Header::Start)),
            over: None,
        }
    }

    fn add_port(&mut self, input: bool, shape: Shape, name: Name) -> Result<(), Problem>
        ensures { Answers (λ _. plain_parser self.new) result (Ok (with_port (plain_parser self.old) input shape name)) }
    {
        push_port(&mut self.ports, input, shape, name)?;
        put(
            &mut self.state,
            State::Outside(Place::Header(Header::PortEnd)),
        );
        Ok(())
    }

    fn add_item(&mut self, item: Item, place: Place) -> Result<(), Problem>
        ensures { Answers (λ _. plain_parser self.new) result (Ok (with_item_at (plain_parser self.old) (plain_item item) place)) }
    {
        push_item(&mut self.items, item)?;
        put(&mut self.state, State::Outside(place));
        Ok(())
    }

    fn declare(&mut self, kind: Kind, shape: Shape, name: Name) -> Result<(), Problem>
        ensures { Answers (λ _. plain_parser self.new) result (Ok (declared (plain_parser self.old) kind shape name)) }
    {
        match kind {
            Kind::Input => self.add_port(true, shape, name),
            Kind::Output => self.add_port(false, shape, name),
            Kind::Wire => self.add_item(Item::Wire(shape, name), Place::Semicolon),
            Kind::Reg => self.add_item(Item::Reg(shape, name), Place::Semicolon),
        }
    }

    fn add_module(&mut self, whole: Module) -> Result<(), Problem>
        ensures { Answers (λ _. plain_parser self.new) result (Ok (with_module (plain_parser self.old) (plain_module whole))) }
    {
        push_module(&mut self.modules, whole)?;
        put(
            &mut self.state,
            State::Outside(Place::Header(Header::Start)),
        );
        Ok(())
    }

    fn end_module(&mut self, alloc: Global) -> Result<(), Problem>
        ensures { Answers (λ _. plain_parser self.new) result (Ok (closed (plain_parser self.old))) }
    {
        let whole = Module {
            name: mem::replace(&mut self.name, Name::from(Vec::new(alloc))),
            ports: mem::replace(&mut self.ports, Vec::new(alloc)),
            items: mem::replace(&mut self.items, Vec::new(alloc)),
        };
        self.add_module(whole)
    }

    fn join(&mut self, of: Name, name: Name, port: Name, to: Option<Expr>) -> Result<(), Problem>
        ensures { Answers (λ _. plain_parser self.new) result (Ok (with_join (plain_parser self.old) of name port (plain_option to))) }
    {
        push_join(&mut self.joins, port, to)?;
        put(
            &mut self.state,
            State::Outside(Place::Joins(of, name, Joins::End)),
        );
        Ok(())
    }

    fn end_instance(&mut self, alloc: Global, of: Name, name: Name) -> Result<(), Problem>
        ensures { Answers (λ _. plain_parser self.new) result (Ok (instanced (plain_parser self.old) of name)) }
    {
        let joins = mem::replace(&mut self.joins, Vec::new(alloc));
        self.add_item(Item::Instance(of, name, joins), Place::Semicolon)
    }

    fn end_gate(&mut self, gate: Expr) -> Result<(), Problem>
        ensures { Answers (λ _. plain_parser self.new) result (Ok (with_gate (plain_parser self.old) (plain_expr gate))) }
    {
        put(&mut self.gate, gate);
        put(
            &mut self.state,
            State::Outside(Place::Process(Process::LatchTarget)),
        );
        Ok(())
    }

    fn end_latch(&mut self, alloc: Global, target: Name, value: Expr) -> Result<(), Problem>
        ensures { Answers (λ _. plain_parser self.new) result (Ok (with_latch (plain_parser self.old) target (plain_expr value))) }
    {
        let gate = mem::replace(&mut self.gate, no_expression(alloc));
        self.add_item(Item::Latch(target, gate, value), Place::Item)
    }

    /// An expression has ended before this token.
    fn end_value(
        &mut self,
        alloc: Global,
        purpose: Purpose,
        value: Expr,
        token: &Token,
    ) -> Result<(), Problem>
        ensures { Answers (λ _. plain_parser self.new) result (with_value (plain_parser self.old) purpose (plain_expr value) token.now) }
    {
        match purpose {
            Purpose::Gate if is_mark(token, b')') => self.end_gate(value),
            Purpose::Join(of, name, port) if is_mark(token, b')') => self.join(
                of,
                name,
                port,
                Some(value),
            ),
            Purpose::Assign(target) if is_mark(token, b';') => self.add_item(
                Item::Assign(target, value),
                Place::Item,
            ),
            Purpose::Latch(target) if is_mark(token, b';') => self.end_latch(alloc, target, value),
            Purpose::Clocked(clock, target) if is_mark(token, b';') => {
                self.add_item(Item::Clocked(clock, target, value), Place::Item)
            }
            _ => refused(),
        }
    }

    fn take_value(
        &mut self,
        alloc: Global,
        purpose: Purpose,
        reading: Reading,
        token: Token,
    ) -> Result<(), Problem>
        ensures { Answers (λ _. plain_parser self.new) result (valued (plain_parser self.old) purpose (levels_of self.old.levels) (plain_reading reading) token) }
    {
        match take(&mut self.levels, &mut self.over, alloc, reading, token)? {
            Outcome::More(reading) => {
                put(&mut self.state, State::Inside(purpose, reading));
                Ok(())
            }
            Outcome::End(value, token) => self.end_value(alloc, purpose, value, &token),
        }
    }

    /// An expression begins behind this token.
    fn begin(&mut self, purpose: Purpose)
        ensures { plain_parser self.new ≡ begun (plain_parser self.old) purpose }
    {
        self.levels.clear();
        put(
            &mut self.state,
            State::Inside(purpose, Reading::Wanting(Wanted::Nothing)),
        );
    }

    /// An expression begins with this token.
    fn begin_by(&mut self, alloc: Global, purpose: Purpose, token: Token) -> Result<(), Problem>
        ensures { Answers (λ _. plain_parser self.new) result (valued (plain_parser self.old) purpose [] (wanting nothing) token) }
    {
        self.levels.clear();
        self.take_value(alloc, purpose, Reading::Wanting(Wanted::Nothing), token)
    }

    fn make(&mut self, alloc: Global, step: Move) -> Result<(), Problem>
        ensures { Answers (λ _. plain_parser self.new) result (moved (plain_parser self.old) step) }
    {
        match step {
            Move::To(place) => {
                put(&mut self.state, State::Outside(place));
                Ok(())
            }
            Move::Begin(name) => {
                put(&mut self.name, name);
                put(&mut self.state, State::Outside(Place::Header(Header::Open)));
                Ok(())
            }
            Move::Declare(kind, shape, name) => self.declare(kind, shape, name),
            Move::End => self.end_module(alloc),
            Move::Unjoined(of, name, port) => self.join(of, name, port, None),
            Move::Instance(of, name) => self.end_instance(alloc, of, name),
            Move::Expression(purpose) => {
                self.begin(purpose);
                Ok(())
            }
            Move::First(purpose, token) => self.begin_by(alloc, purpose, token),
        }
    }

    /// Takes the next token. After an error the parser is of no more use.
    #[tactic(auto, unfolding(crate::specs::inner::Machine::after_token))]
    pub(crate) fn take(&mut self, alloc: Global, token: Token) -> Result<(), Problem>
        ensures { Answers (λ _. plain_parser self.new) result (after_token (plain_parser self.old) token) }
    {
        match mem::replace(&mut self.state, State::Outside(Place::Item)) {
            State::Outside(place) => {
                let step = move_of(place, token)?;
                self.make(alloc, step)
            }
            State::Inside(purpose, reading) => self.take_value(alloc, purpose, reading, token),
        }
    }
}
