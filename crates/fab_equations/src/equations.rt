//! The equations of a text: made once, and then looked up without memory.

ghost use Rattle.std.specs.Prelude.{◌≡◌, ◌<◌, ◌≤◌, Some, false, length, slice_get, replicate, IfOk, IfErr, OnOk};
ghost use Rattle.fab_syntax.specs.Plain.{plain_expr, plain_text};
ghost use Rattle.fab_syntax.specs.Sound.{IsSound};
ghost use Rattle.fab_sound.specs.Narrow.{AreNarrow};
ghost use Rattle.fab_values.specs.Declarations.{bits_of, declarations};
ghost use Rattle.fab_equations.specs.Instances.{Instance, expressions, instances, most_points, points, whole_count};
ghost use Rattle.fab_equations.specs.Numbering.{IsInstanceOfNumber};
ghost use Rattle.fab_equations.specs.Equations.{IsRefused};

use crate::counts::top_count;
use crate::placed::{PlacedInstance, placed_instances};
use crate::tables::{Table, Tables, tables_of};
use fab_base::{Fault, Memory, Name, Problem, Quantity};
use fab_sound::check_widths;
use fab_syntax::{Expr, Text};
use fab_values::Values;
use std::alloc::Global;
use std::marker::Model;

/// The most points and instances together that a text may have.
pub const MOST_POINTS: u64 = 16_777_216;

/// The points of a sound text with their drivers, by numbers.
///
/// Points are numbered by instance, then by declaration in the module, ports first, then by bit. Instance 0 is the top, which is the
/// last module, and the instances in an instance come in the order of its items, each followed by those inside it. Contracts
/// see the text.
#[derive(Drop)]
pub struct Equations<'a> {
    pub(crate) text: &'a Text,
    pub(crate) tables: Vec<Table>,
    pub(crate) exprs: Vec<&'a Expr>,
    pub(crate) placed: Vec<PlacedInstance>,
    pub(crate) points: u32,
}

impl<'a> Model for Equations<'a> {
    ghost use Rattle.fab_syntax.specs.declared.tree.Text.{Text};

    ghost Value = { Text };

    ghost use Rattle.fab_syntax.specs.contracts.tree.Expr as e;
    ghost use Rattle.std.specs.Coded.{codes};

    ghost coded = { Prim.hlevel (codes, e.the_row.coded) };

    ghost use Rattle.fab_syntax.specs.Plain.{plain_text};
    ghost use Rattle.fab_equations.specs.inner.Placed.{Keeps};

    ghost view = { λ equations. equations.text.now };

    ghost invariant = { λ equations. Keeps (plain_text equations.text.now) equations.tables.items equations.exprs.items equations.placed.items equations.points };
}

/// The equations of a text.
///
/// A text that is not sound is malformed at line 0 of the file, for the reason of `check_widths`. A sound text is refused with
/// `Limit` at line 0 where points and instances together are more than `MOST_POINTS`; the value is the whole count, at most
/// 2^64 - 1. They are counted before any is made.
pub fn elaborate<'a>(alloc: Global, file: &Name, text: &'a Text) -> Result<Equations<'a>, Fault>
    ensures text { IfOk result (λ equations. equations ≡ text.now) }
    ensures sound { OnOk result (IsSound (plain_text text.now)) }
    ensures small { OnOk result (whole_count (plain_text text.now) ≤ most_points) }
    ensures refused { IfErr result (λ fault. IsRefused file.now (plain_text text.now) fault) }
{
    if let Some(reason) = check_widths(alloc, text)? {
        return Err(Problem::Malformed(reason).at(alloc, file, 0));
    }
    let count = top_count(alloc, text)?;
    let whole = count.points.saturating_add(count.instances);
    if whole > MOST_POINTS {
        let problem = Problem::Limit(Quantity::Points, whole, MOST_POINTS);
        return Err(problem.at(alloc, file, 0));
    }
    let Tables { tables, exprs } = tables_of(alloc, text)?;
    let placed = placed_instances(alloc, text, &tables, count.instances as usize)?;
    Ok(Equations {
        text,
        tables,
        exprs,
        placed,
        points: count.points as u32,
    })
}

impl<'a> Equations<'a> {
    /// How many points there are.
    pub fn points(&self) -> u32
        ensures { result ≡ length (points (plain_text self.now)) }
    {
        self.points
    }

    /// How many instances there are.
    pub fn instances(&self) -> u32
        ensures { result ≡ length (instances (plain_text self.now)) }
    {
        self.placed.len() as u32
    }

    /// The number of the module of an instance.
    pub fn module_of(&self, instance: u32) -> u32
        requires { instance < length (instances (plain_text self.now)) }
        ensures { (i : Instance) → IsInstanceOfNumber (plain_text self.now) instance i → result ≡ i.number }
    {
        self.placed[instance as usize].module
    }

    /// That the text is sound, and that its widths are counted in 64 bits: for the proofs of crates above.
    pub fn text_is_sound(&self)
        ensures sound { IsSound (plain_text self.now) }
        ensures narrow { AreNarrow (plain_text self.now) }
    {
        // What is kept of a text is known where a part of it is read.
        let _text = self.text;
    }

    /// How many expressions there are.
    pub fn expressions(&self) -> usize
        ensures { result ≡ length (expressions (plain_text self.now)) }
    {
        self.exprs.len()
    }

    /// An expression by its number.
    pub fn expr(&self, number: u32) -> &'a Expr
        requires { number < length (expressions (plain_text self.now)) }
        ensures { slice_get (expressions (plain_text self.now)) number ≡ Some (plain_expr result.now) }
    {
        self.exprs[number as usize]
    }

    /// The bits of an instance, all 0, over the names that its module declares.
    pub fn values(&self, alloc: Global, instance: u32) -> Result<Values<'_>, Memory>
        requires { instance < length (instances (plain_text self.now)) }
        ensures declarations { IfOk result (λ values. (i : Instance) → IsInstanceOfNumber (plain_text self.now) instance i → values.declarations ≡ declarations i.here) }
        ensures bits { IfOk result (λ values. values.bits ≡ replicate (bits_of values.declarations) false) }
    {
        let here = self.placed[instance as usize];
        Values::of(alloc, &self.tables[here.module as usize].names)
    }
}
