//! Where in a text the next token stands, outside expressions.

ghost use Rattle.std.specs.Prelude.{◌≡◌};
ghost use Rattle.fab_base.specs.Reading.{Answers};
ghost use Rattle.fab_grammar_defs.specs.Words.{is_foreign};
ghost use Rattle.fab_vread.specs.inner.Expressions.{refused};
ghost use Rattle.fab_vread.specs.inner.Places.{name_of, on_mark, begin_on, foreign_or, port_start, header_move, high_move, declaration_move, item_name, item_move, edge_move, process_move, joins_move, move_of};

use crate::expressions::{is_mark, refused};
use fab_base::{Name, Problem};
use fab_syntax::Shape;
use fab_tokens::{Keyword, Token};

/// What is declared.
#[derive(Clone, Copy, Drop)]
pub(crate) enum Kind {
    Input,
    Output,
    Wire,
    Reg,
}

/// Places in the head of a module.
#[derive(Drop)]
pub(crate) enum Header {
    /// Before a module, or at the end of the text.
    Start,
    Name,
    Open,
    FirstPort,
    NextPort,
    PortEnd,
    Semicolon,
}

/// Places in a declaration.
#[derive(Drop)]
pub(crate) enum Declaration {
    RangeOrName,
    High,
    Colon(u32),
    Zero(u32),
    Close(u32),
    /// Behind a range for this width.
    Name(u32),
}

/// Places in an assignment, a latch or a flip-flop.
#[derive(Drop)]
pub(crate) enum Process {
    AssignTarget,
    AssignSign(Name),
    At,
    /// `*` or `(`.
    Event,
    If,
    GateOpen,
    LatchTarget,
    LatchSign(Name),
    Edge,
    Clock,
    ClockClose(Name),
    ClockedTarget(Name),
    /// With the clock and the target.
    ClockedArrow(Name, Name),
}

/// Places among the joins of an instance.
#[derive(Drop)]
pub(crate) enum Joins {
    First,
    Next,
    Port,
    Open(Name),
    /// An expression, or none.
    Value(Name),
    End,
}

/// What an expression is for.
#[derive(Drop)]
pub(crate) enum Purpose {
    Assign(Name),
    Gate,
    Latch(Name),
    /// With the clock and the target.
    Clocked(Name, Name),
    /// With the module of the instance, its name and the port.
    Join(Name, Name, Name),
}

/// Where in a text the next token stands, outside expressions.
#[derive(Drop)]
pub(crate) enum Place {
    Header(Header),
    /// Before an item, or at the end of a module.
    Item,
    /// Behind a declaration or an instance.
    Semicolon,
    Declaration(Kind, Declaration),
    Process(Process),
    /// Behind the name of an instance's module.
    InstanceName(Name),
    /// Behind both names.
    InstanceOpen(Name, Name),
    Joins(Name, Name, Joins),
}

/// What a token outside an expression does.
#[derive(Drop)]
pub(crate) enum Move {
    To(Place),
    /// The name of a module.
    Begin(Name),
    Declare(Kind, Shape, Name),
    /// `endmodule`.
    End,
    /// A join with nothing.
    Unjoined(Name, Name, Name),
    /// The end of the joins.
    Instance(Name, Name),
    /// An expression begins behind the token.
    Expression(Purpose),
    /// The token is the first of an expression.
    First(Purpose, Token),
}

fn name_of(token: Token) -> Result<Name, Problem>
    ensures { result ≡ name_of token }
{
    match token {
        Token::Identifier(name) => Ok(name),
        _ => refused(),
    }
}

fn on_mark(token: &Token, mark: u8, place: Place) -> Result<Move, Problem>
    ensures { result ≡ on_mark token.now mark place }
{
    if is_mark(token, mark) {
        Ok(Move::To(place))
    } else {
        refused()
    }
}

fn begin_on(token: &Token, mark: u8, purpose: Purpose) -> Result<Move, Problem>
    ensures { result ≡ begin_on token.now mark purpose }
{
    if is_mark(token, mark) {
        Ok(Move::Expression(purpose))
    } else {
        refused()
    }
}

#[tactic(auto, unfolding(fab_grammar_defs::specs::Words::is_foreign))]
fn is_foreign(word: &[u8]) -> bool
    ensures { result ≡ is_foreign word.now }
{
    word == b"inout".as_slice()
        || word == b"negedge".as_slice()
        || word == b"initial".as_slice()
        || word == b"else".as_slice()
        || word == b"case".as_slice()
        || word == b"function".as_slice()
        || word == b"task".as_slice()
        || word == b"generate".as_slice()
        || word == b"parameter".as_slice()
        || word == b"integer".as_slice()
        || word == b"tri".as_slice()
        || word == b"for".as_slice()
}

/// Verilog words that the profile lacks are named; other names cannot stand there.
fn foreign_or_refused(name: Name) -> Result<Move, Problem>
    ensures { result ≡ foreign_or refused name }
{
    if is_foreign(name.bytes()) {
        Err(Problem::Unsupported(name))
    } else {
        refused()
    }
}

fn port_start(token: Token) -> Result<Move, Problem>
    ensures { result ≡ port_start token }
{
    match token {
        Token::Keyword(Keyword::Input) => Ok(Move::To(Place::Declaration(
            Kind::Input,
            Declaration::RangeOrName,
        ))),
        Token::Keyword(Keyword::Output) => Ok(Move::To(Place::Declaration(
            Kind::Output,
            Declaration::RangeOrName,
        ))),
        Token::Identifier(name) => foreign_or_refused(name),
        _ => refused(),
    }
}

fn header_move(header: Header, token: Token) -> Result<Move, Problem>
    ensures { result ≡ header_move header token }
{
    match header {
        Header::Start => match token {
            Token::Keyword(Keyword::Module) => Ok(Move::To(Place::Header(Header::Name))),
            _ => refused(),
        },
        Header::Name => Ok(Move::Begin(name_of(token)?)),
        Header::Open => on_mark(&token, b'(', Place::Header(Header::FirstPort)),
        Header::FirstPort if is_mark(&token, b')') => Ok(Move::To(Place::Header(
            Header::Semicolon,
        ))),
        Header::FirstPort | Header::NextPort => port_start(token),
        Header::PortEnd if is_mark(&token, b',') => Ok(Move::To(Place::Header(Header::NextPort))),
        Header::PortEnd => on_mark(&token, b')', Place::Header(Header::Semicolon)),
        Header::Semicolon => on_mark(&token, b';', Place::Item),
    }
}

fn high_move(kind: Kind, number: u32) -> Result<Move, Problem>
    ensures { result ≡ high_move kind number }
{
    match number.checked_add(1) {
        Some(width) => Ok(Move::To(Place::Declaration(kind, Declaration::Colon(width)))),
        None => refused(),
    }
}

fn declaration_move(kind: Kind, place: Declaration, token: Token) -> Result<Move, Problem>
    ensures { result ≡ declaration_move kind place token }
{
    match place {
        Declaration::RangeOrName if is_mark(&token, b'[') => Ok(Move::To(Place::Declaration(
            kind,
            Declaration::High,
        ))),
        Declaration::RangeOrName => Ok(Move::Declare(kind, Shape::Scalar, name_of(token)?)),
        Declaration::High => match token {
            Token::Number(number) => high_move(kind, number),
            _ => refused(),
        },
        Declaration::Colon(width) => on_mark(
            &token,
            b':',
            Place::Declaration(kind, Declaration::Zero(width)),
        ),
        Declaration::Zero(width) => match token {
            Token::Number(0) => Ok(Move::To(Place::Declaration(kind, Declaration::Close(width)))),
            _ => refused(),
        },
        Declaration::Close(width) => on_mark(
            &token,
            b']',
            Place::Declaration(kind, Declaration::Name(width)),
        ),
        Declaration::Name(width) => Ok(Move::Declare(kind, Shape::Vector(width), name_of(token)?)),
    }
}

fn item_name(name: Name) -> Result<Move, Problem>
    ensures { result ≡ item_name name }
{
    if is_foreign(name.bytes()) {
        return Err(Problem::Unsupported(name));
    }
    Ok(Move::To(Place::InstanceName(name)))
}

fn item_move(token: Token) -> Result<Move, Problem>
    ensures { result ≡ item_move token }
{
    match token {
        Token::Keyword(Keyword::Wire) => Ok(Move::To(Place::Declaration(
            Kind::Wire,
            Declaration::RangeOrName,
        ))),
        Token::Keyword(Keyword::Reg) => Ok(Move::To(Place::Declaration(
            Kind::Reg,
            Declaration::RangeOrName,
        ))),
        Token::Keyword(Keyword::Assign) => Ok(Move::To(Place::Process(Process::AssignTarget))),
        Token::Keyword(Keyword::Always) => Ok(Move::To(Place::Process(Process::At))),
        Token::Keyword(Keyword::Endmodule) => Ok(Move::End),
        Token::Identifier(name) => item_name(name),
        _ => refused(),
    }
}

fn edge_move(token: Token) -> Result<Move, Problem>
    ensures { result ≡ edge_move token }
{
    match token {
        Token::Keyword(Keyword::Posedge) => Ok(Move::To(Place::Process(Process::Clock))),
        Token::Identifier(name) => foreign_or_refused(name),
        _ => refused(),
    }
}

fn process_move(process: Process, token: Token) -> Result<Move, Problem>
    ensures { result ≡ process_move process token }
{
    match process {
        Process::AssignTarget => Ok(Move::To(Place::Process(Process::AssignSign(name_of(token)?)))),
        Process::AssignSign(target) => begin_on(&token, b'=', Purpose::Assign(target)),
        Process::At => on_mark(&token, b'@', Place::Process(Process::Event)),
        Process::Event if is_mark(&token, b'*') => Ok(Move::To(Place::Process(Process::If))),
        Process::Event => on_mark(&token, b'(', Place::Process(Process::Edge)),
        Process::If => match token {
            Token::Keyword(Keyword::If) => Ok(Move::To(Place::Process(Process::GateOpen))),
            _ => refused(),
        },
        Process::GateOpen => begin_on(&token, b'(', Purpose::Gate),
        Process::LatchTarget => Ok(Move::To(Place::Process(Process::LatchSign(name_of(token)?)))),
        Process::LatchSign(target) => begin_on(&token, b'=', Purpose::Latch(target)),
        Process::Edge => edge_move(token),
        Process::Clock => Ok(Move::To(Place::Process(Process::ClockClose(name_of(token)?)))),
        Process::ClockClose(clock) => on_mark(
            &token,
            b')',
            Place::Process(Process::ClockedTarget(clock)),
        ),
        Process::ClockedTarget(clock) => Ok(Move::To(Place::Process(Process::ClockedArrow(
            clock,
            name_of(token)?,
        )))),
        Process::ClockedArrow(clock, target) => match token {
            Token::Arrow => Ok(Move::Expression(Purpose::Clocked(clock, target))),
            _ => refused(),
        },
    }
}

fn joins_move(of: Name, name: Name, joins: Joins, token: Token) -> Result<Move, Problem>
    ensures { result ≡ joins_move of name joins token }
{
    match joins {
        Joins::First if is_mark(&token, b')') => Ok(Move::Instance(of, name)),
        Joins::First | Joins::Next => on_mark(&token, b'.', Place::Joins(of, name, Joins::Port)),
        Joins::Port => Ok(Move::To(Place::Joins(of, name, Joins::Open(name_of(token)?)))),
        Joins::Open(port) => on_mark(&token, b'(', Place::Joins(of, name, Joins::Value(port))),
        Joins::Value(port) if is_mark(&token, b')') => Ok(Move::Unjoined(of, name, port)),
        Joins::Value(port) => Ok(Move::First(Purpose::Join(of, name, port), token)),
        Joins::End if is_mark(&token, b',') => Ok(Move::To(Place::Joins(of, name, Joins::Next))),
        Joins::End if is_mark(&token, b')') => Ok(Move::Instance(of, name)),
        Joins::End => refused(),
    }
}

/// What the next token does at a place.
#[tactic(auto, unfolding(crate::specs::inner::Places::move_of))]
pub(crate) fn move_of(place: Place, token: Token) -> Result<Move, Problem>
    ensures { result ≡ move_of place token }
{
    match place {
        Place::Header(header) => header_move(header, token),
        Place::Item => item_move(token),
        Place::Semicolon => on_mark(&token, b';', Place::Item),
        Place::Declaration(kind, declaration) => declaration_move(kind, declaration, token),
        Place::Process(process) => process_move(process, token),
        Place::InstanceName(of) => Ok(Move::To(Place::InstanceOpen(of, name_of(token)?))),
        Place::InstanceOpen(of, name) => on_mark(
            &token,
            b'(',
            Place::Joins(of, name, Joins::First),
        ),
        Place::Joins(of, name, joins) => joins_move(of, name, joins, token),
    }
}
