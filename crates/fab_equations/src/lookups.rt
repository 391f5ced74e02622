//! What drives a point, and where names are declared: looked up without memory.

ghost use Rattle.std.specs.Prelude.{◌≡◌, ◌<◌, ℕ, Some, length, IfSome, IfNone, IsTrue, slice_get, position, ◌==◌, ◌+◌, ◌^◌};
ghost use Rattle.std.specs.List.Sorted.{IsNonDecreasingBy};
ghost use Rattle.fab_syntax.specs.Plain.{plain_text};
ghost use Rattle.fab_values.specs.Declarations.{declarations, bits_of};
ghost use Rattle.fab_equations.specs.Instances.{Instance, instances, points, expressions};
ghost use Rattle.fab_equations.specs.Numbering.{IsInstanceOfNumber, points_before};
ghost use Rattle.fab_equations.specs.Equations.{IsDriven, DriverFits, IsFound, IsNotFound, IsPlace, IsNoPlace, declared_in, IsClockPoint};
ghost use Rattle.fab_equations.specs.Lookups.{IsHere, IsPointOf, IsBit, IsInput, IsJoin, IsName, IsClock, IsChildNamed, IsLastAtMost, HasChild, IsChild, IsLocalName};

use crate::driver::{Cursor, Declared, Driver, Source};
use crate::equations::Equations;
use crate::placed::PlacedInstance;
use crate::tables::{LocalDriver, Table};
use fab_syntax::Expr;
use fab_values::bits_of_shape;
use std::ops::Range;

/// An instance and the table of its module.
#[derive(Clone, Copy)]
struct Here<'e> {
    placed: PlacedInstance,
    table: &'e Table,
}

/// A bit of a declared name of an instance; the name by its number among the declarations.
#[derive(Clone, Copy)]
struct LocalBit {
    instance: u32,
    declared: usize,
    bit: u32,
}

impl LocalBit {
    // The same bit of an expression over the names of the instance.
    fn source(self, expr: u32) -> Source
        ensures { result ≡ record { instance = self.instance; expr = expr; bit = self.bit } }
    {
        Source {
            instance: self.instance,
            expr,
            bit: self.bit,
        }
    }
}

/// A name of an instance.
#[derive(Clone, Copy)]
struct LocalName<'n> {
    instance: u32,
    name: &'n [u8],
}

impl<'a> Equations<'a> {
    /// What drives a point. Its sources are expressions that have a value over the names of their instance, and bits within them.
    pub fn driver(&self, point: u32) -> Driver
        requires { point < length (points (plain_text self.now)) }
        ensures drives { IsDriven (plain_text self.now) point result }
        ensures fit { DriverFits (plain_text self.now) result }
    {
        self.driver_near(point, &mut Cursor::new())
    }

    /// What drives a point, as `driver` says it. It is found without a search where the cursor stands at the same name or at one next to it in its
    /// instance. Afterwards the cursor stands at the point.
    pub fn driver_near(&self, point: u32, cursor: &mut Cursor) -> Driver
        requires { point < length (points (plain_text self.now)) }
        ensures drives { IsDriven (plain_text self.now) point result }
        ensures fit { DriverFits (plain_text self.now) result }
    {
        let local = self.bit_near(point, cursor);
        let here = self.here(local.instance);
        match here.table.drivers[local.declared] {
            LocalDriver::Input => match self.joined(local.instance, local.declared) {
                Some(join) => Driver::Value(Source {
                    bit: local.bit,
                    ..join
                }),
                None => Driver::Outside,
            },
            LocalDriver::Value(expr) => Driver::Value(local.source(expr)),
            LocalDriver::Flop(clock, expr) => Driver::Flop(
                self.clock_point(local.instance, clock as usize),
                local.source(expr),
            ),
            LocalDriver::Hold(gate, expr) => {
                let gate = Source {
                    bit: 0,
                    ..local.source(gate)
                };
                Driver::Hold(gate, local.source(expr))
            }
            LocalDriver::Output(child, first) => {
                let below = self.here(self.child_of(local.instance, child as usize));
                Driver::Same(below.placed.first + first + local.bit)
            }
        }
    }

    // An instance with the table of its module.
    fn here(&self, instance: u32) -> Here<'_>
        requires { instance < length (instances (plain_text self.now)) }
        ensures { IsHere (plain_text self.now) instance result }
    {
        let placed = self.placed[instance as usize];
        Here {
            placed,
            table: &self.tables[placed.module as usize],
        }
    }

    /// The points of an instance, which follow one another.
    pub fn points_of(&self, instance: u32) -> Range<u32>
        requires { instance < length (instances (plain_text self.now)) }
        ensures { (i : Instance) → IsInstanceOfNumber (plain_text self.now) instance i →
            result ≡ record { start = points_before (plain_text self.now) instance; end = points_before (plain_text self.now) instance + bits_of (declarations i.here) } }
    {
        let here = self.here(instance);
        let first = here.placed.first;
        first..first + here.table.names.bits()
    }

    // The bit of a declared name that a point is.
    fn bit_near(&self, point: u32, cursor: &mut Cursor) -> LocalBit
        requires { point < length (points (plain_text self.now)) }
        ensures { IsBit (plain_text self.now) point result }
    {
        let instance = self.instance_near(point, cursor.instance);
        let here = self.here(instance);
        let place = point - here.placed.first;
        let declared = last_near(&here.table.firsts, place, cursor.declared);
        *cursor = Cursor { instance, declared };
        LocalBit {
            instance,
            declared,
            bit: place - here.table.firsts[declared],
        }
    }

    // The instance of a point, which may be this one.
    fn instance_near(&self, point: u32, near: u32) -> u32
        requires { point < length (points (plain_text self.now)) }
        ensures { IsPointOf (plain_text self.now) point result }
    {
        if self.has_point(near, point) {
            return near;
        }
        self.instance_of(point)
    }

    // Whether there is an instance of this number, and a point is one of its own.
    fn has_point(&self, instance: u32, point: u32) -> bool
        ensures { IsTrue result → IsPointOf (plain_text self.now) point instance }
    {
        if instance >= self.instances() {
            return false;
        }
        let own = self.points_of(instance);
        own.start <= point && point < own.end
    }

    // The instance of a point.
    fn instance_of(&self, point: u32) -> u32
        requires { point < length (points (plain_text self.now)) }
        ensures { IsPointOf (plain_text self.now) point result }
    {
        (self.placed.partition_point(|placed| placed.first <= point) - 1) as u32
    }

    // What is joined to an input of an instance, at its bit 0; nothing at the top.
    fn joined(&self, instance: u32, declared: usize) -> Option<Source>
        requires { IsInput (plain_text self.now) instance declared }
        ensures { IsJoin (plain_text self.now) instance declared result }
    {
        if instance == 0 {
            return None;
        }
        let placed = self.here(instance).placed;
        let above = self.here(placed.parent);
        let expr = above.table.children[placed.child as usize].inputs[declared]?;
        Some(Source {
            instance: placed.parent,
            expr,
            bit: 0,
        })
    }

    // The point of the input of the top to which a clock leads.
    fn clock_point(&self, mut instance: u32, mut declared: usize) -> u32
        requires { IsClock (plain_text self.now) instance declared }
        ensures { (clock : IsClock (plain_text self.now) instance declared) → IsClockPoint (plain_text self.now) clock.i.path clock.d.name result }
    {
        while let Some(join) = self.joined(instance, declared) {
            instance = join.instance;
            declared = self.named(join);
        }
        self.here(0).table.firsts[declared]
    }

    // The number of the declaration that an expression names.
    fn named(&self, source: Source) -> usize
        requires { (declared : ℕ) × IsName (plain_text self.now) source declared }
        ensures { IsName (plain_text self.now) source result }
    {
        let Expr::Var(name) = self.exprs[source.expr as usize] else {
            unreachable!()
        };
        self.here(source.instance)
            .table
            .names
            .number(name.bytes())
            .unwrap()
    }

    /// Where a hierarchical name is declared, instance names from the top and the local name joined by dots; none where there
    /// is no such name.
    pub fn find(&self, name: &[u8]) -> Option<Declared>
        ensures found { IfSome result (λ declared. IsFound (plain_text self.now) name.now declared) }
        ensures absent { IfNone result (IsNotFound (plain_text self.now) name.now) }
    {
        let local = self.local_name(name)?;
        self.local(local.instance, local.name)
    }

    // The instance to which a hierarchical name leads, and the name behind its last dot; none where there is no such instance.
    fn local_name<'n>(&self, name: &'n [u8]) -> Option<LocalName<'n>>
        ensures { IsLocalName (plain_text self.now) name.now result }
    {
        if self.placed.is_empty() {
            return None;
        }
        let mut instance: u32 = 0;
        let mut rest = name;
        while let Some(dot) = first_dot(rest) {
            instance = self.child(instance, &rest[..dot])?;
            rest = &rest[dot + 1..];
        }
        Some(LocalName {
            instance,
            name: rest,
        })
    }

    /// The instance of a name in another; none where there is no such instance.
    pub fn child(&self, instance: u32, name: &[u8]) -> Option<u32>
        requires { instance < length (instances (plain_text self.now)) }
        ensures { (i : Instance) → IsInstanceOfNumber (plain_text self.now) instance i → IsChildNamed (plain_text self.now) i name.now result }
    {
        let child = self.here(instance).table.child_names.get_index_of(name)?;
        Some(self.child_of(instance, child))
    }

    // The instance that is the child of a number in another.
    fn child_of(&self, instance: u32, child: usize) -> u32
        requires { HasChild (plain_text self.now) instance child }
        ensures { IsChild (plain_text self.now) instance child result }
    {
        let offset = self.here(instance).table.children[child].offset;
        (u64::from(instance) + offset) as u32
    }

    /// Where a name of an instance is declared; none where its module does not declare it.
    pub fn local(&self, instance: u32, name: &[u8]) -> Option<Declared>
        requires { instance < length (instances (plain_text self.now)) }
        ensures { (i : Instance) → IsInstanceOfNumber (plain_text self.now) instance i → result ≡ declared_in (plain_text self.now) instance i name.now }
    {
        let here = self.here(instance);
        let local = here.table.names.get(name)?;
        Some(Declared {
            instance,
            first: here.placed.first + local.first,
            shape: local.shape,
            role: local.role,
        })
    }

    /// The point of a bit of a hierarchical name; none where there is no such point.
    pub fn place_of(&self, name: &[u8], bit: u32) -> Option<u32>
        ensures found { IfSome result (λ place. IsPlace (plain_text self.now) name.now bit place) }
        ensures absent { IfNone result (IsNoPlace (plain_text self.now) name.now bit) }
    {
        let local = self.local_name(name)?;
        let declared = self.local(local.instance, local.name)?;
        if bit < bits_of_shape(declared.shape) {
            Some(declared.first + bit)
        } else {
            None
        }
    }
}

// The number of the last that is at most a place; the first is 0, and they do not fall. It may be this one or one next to it.
fn last_near(firsts: &[u32], place: u32, near: usize) -> usize
    requires starts { slice_get firsts.now 0 ≡ Some 0 }
    requires rises { IsNonDecreasingBy (λ n. n) firsts.now }
    ensures { IsLastAtMost (λ n. n) firsts.now place result }
{
    if is_last_at_most(firsts, place, near) {
        return near;
    }
    let behind = near.saturating_add(1);
    if is_last_at_most(firsts, place, behind) {
        return behind;
    }
    let before = near.saturating_sub(1);
    if is_last_at_most(firsts, place, before) {
        return before;
    }
    last_at_most(firsts, place)
}

// Whether this is the number of the last that is at most a place. It is not said of the last of all.
fn is_last_at_most(firsts: &[u32], place: u32, number: usize) -> bool
    requires { IsNonDecreasingBy (λ n. n) firsts.now }
    ensures { IsTrue result → IsLastAtMost (λ n. n) firsts.now place number }
{
    let Some(first) = firsts.get(number) else {
        return false;
    };
    let Some(next) = firsts.get(number + 1) else {
        return false;
    };
    *first <= place && place < *next
}

// The number of the last that is at most a place; the first is 0, and they do not fall.
fn last_at_most(firsts: &[u32], place: u32) -> usize
    requires starts { slice_get firsts.now 0 ≡ Some 0 }
    requires rises { IsNonDecreasingBy (λ n. n) firsts.now }
    ensures { IsLastAtMost (λ n. n) firsts.now place result }
{
    firsts.partition_point(|first| *first <= place) - 1
}

// The place of the first dot of a name.
fn first_dot(name: &[u8]) -> Option<usize>
    ensures place { result ≡ position (λ byte. byte == 46) name.now }
    ensures within { IfSome result (λ dot. dot < length name.now) }
    ensures bound { IfSome result (λ dot. dot + 1 < 2 ^ 64) }
{
    name.iter().position(|byte| *byte == b'.')
}
