//! What decides the bits of a name: nothing in the text, a flip-flop, or the names that its driver reads.

ghost use Rattle.std.specs.Prelude.{◌<◌, IfOk, OnOk, length, map};
ghost use Rattle.std.specs.Str.{bytes_eq};
ghost use Rattle.fab_syntax.specs.Plain.{plain_expr, plain_exprs, plain_text, PlainExpr};
ghost use Rattle.fab_syntax.specs.Sound.{IsSound};
ghost use Rattle.fab_meaning.specs.Points.{Path, Point, Driver as MeantDriver, Drives};
ghost use Rattle.fab_meaning.specs.Reads.{expression_reads, mentions, some_mentions};
ghost use Rattle.fab_equations.specs.Instances.{Instance, instances, points};
ghost use Rattle.fab_equations.specs.Numbering.{IsInstanceOfNumber};
ghost use Rattle.fab_equations.specs.Equations.{IsSource};
ghost use Rattle.fab_load_points.specs.inner.Causes.{AddsNames, AreReads, IsCause, IsWithin, StandsFor};
ghost use Rattle.fab_load_points.specs.inner.Known.{AreKnown};

use crate::known::{KnownReads, add_places};
use crate::stream::first_point;
use fab_base::{Memory, Name};
use fab_equations::{Cursor, Driver, Equations, Source};
use fab_syntax::Expr;
use std::alloc::Global;

/// What decides the bits of a name.
#[derive(Drop)]
pub enum Cause {
    /// Nothing in the text: the name is an input of the top.
    Input,
    /// A flip-flop.
    Register,
    /// The names that the driver reads, each by its first point.
    Reads(Vec<u32>),
}

/// What decides the bits of a name, which is given by its first point. It is looked up from where the cursor stands, which then stands there.
pub fn cause_of(
    alloc: Global,
    equations: &Equations,
    known: &KnownReads,
    cursor: &mut Cursor,
    name: u32,
) -> Result<Cause, Memory>
    requires sound { IsSound (plain_text equations.now) }
    requires known { AreKnown (plain_text equations.now) known.now }
    requires within { name < length (points (plain_text equations.now)) }
    ensures within { IfOk result (IsWithin (length (points (plain_text equations.now)))) }
    ensures cause { IfOk result (λ cause. (p : Point) (d : MeantDriver) → StandsFor (plain_text equations.now) name p → Drives (plain_text equations.now) p d →
        IsCause (plain_text equations.now) d cause) }
{
    let mut reads = Vec::new(alloc);
    match equations.driver_near(name, cursor) {
        Driver::Outside => Ok(Cause::Input),
        Driver::Flop(_, _) => Ok(Cause::Register),
        Driver::Same(other) => {
            reads.push(other)?;
            Ok(Cause::Reads(reads))
        }
        Driver::Value(source) => {
            add_source(equations, known, source, &mut reads)?;
            Ok(Cause::Reads(reads))
        }
        Driver::Hold(gate, latched) => {
            add_source(equations, known, gate, &mut reads)?;
            add_source(equations, known, latched, &mut reads)?;
            Ok(Cause::Reads(reads))
        }
    }
}

/// The names that a source reads, each by its first point.
pub fn source_reads(
    alloc: Global,
    equations: &Equations,
    known: &KnownReads,
    source: Source,
) -> Result<Vec<u32>, Memory>
    requires sound { IsSound (plain_text equations.now) }
    requires known { AreKnown (plain_text equations.now) known.now }
    requires source { (path : Path) × (e : PlainExpr) × IsSource (plain_text equations.now) source path e }
    ensures { IfOk result (λ reads. (path : Path) (e : PlainExpr) → IsSource (plain_text equations.now) source path e →
        AreReads (plain_text equations.now) (expression_reads (plain_text equations.now) path e) reads.items) }
{
    let mut reads = Vec::new(alloc);
    add_source(equations, known, source, &mut reads)?;
    Ok(reads)
}

// Adds the names that a source reads. Mostly they are known from another instance of the module.
fn add_source(
    equations: &Equations,
    known: &KnownReads,
    source: Source,
    reads: &mut Vec<u32>,
) -> Result<(), Memory>
    requires sound { IsSound (plain_text equations.now) }
    requires known { AreKnown (plain_text equations.now) known.now }
    requires source { (path : Path) × (e : PlainExpr) × IsSource (plain_text equations.now) source path e }
    ensures { OnOk result ((path : Path) (e : PlainExpr) → IsSource (plain_text equations.now) source path e →
        AddsNames (plain_text equations.now) path (mentions e) reads.old.items reads.new.items) }
{
    // All numbers of points fit 32 bits.
    let _points = equations.points();
    match known.find(equations.module_of(source.instance), source.expr) {
        Some(known_reads) => {
            let first = equations.points_of(source.instance).start;
            add_places(&known.places, known_reads, first, reads)
        }
        None => add_names_of(equations, source, reads),
    }
}

/// Adds the names that a source reads, by looking each of them up.
pub fn add_names_of(
    equations: &Equations,
    source: Source,
    reads: &mut Vec<u32>,
) -> Result<(), Memory>
    requires sound { IsSound (plain_text equations.now) }
    requires source { (path : Path) × (e : PlainExpr) × IsSource (plain_text equations.now) source path e }
    ensures { OnOk result ((path : Path) (e : PlainExpr) → IsSource (plain_text equations.now) source path e →
        AddsNames (plain_text equations.now) path (mentions e) reads.old.items reads.new.items) }
{
    let expr = equations.expr(source.expr);
    add_names(equations, source.instance, expr, reads)
}

// Adds the names that an expression mentions, also in an index.
#[cycle(add_names)]
fn add_names(
    equations: &Equations,
    instance: u32,
    expr: &Expr,
    reads: &mut Vec<u32>,
) -> Result<(), Memory>
    requires sound { IsSound (plain_text equations.now) }
    requires instance { instance < length (instances (plain_text equations.now)) }
    ensures { OnOk result ((i : Instance) → IsInstanceOfNumber (plain_text equations.now) instance i →
        AddsNames (plain_text equations.now) i.path (mentions (plain_expr expr.now)) reads.old.items reads.new.items) }
{
    match expr {
        Expr::Const(_) => Ok(()),
        Expr::Var(name) => add_name(equations, instance, name, reads),
        Expr::Pick(name, index) => {
            add_name(equations, instance, name, reads)?;
            add_names(equations, instance, index, reads)
        }
        Expr::Part(name, _, _) => add_name(equations, instance, name, reads),
        Expr::Cat(parts) => add_parts(equations, instance, parts, reads),
        Expr::Not(inner) => add_names(equations, instance, inner, reads),
        Expr::Two(_, left, right) => {
            add_names(equations, instance, left, reads)?;
            add_names(equations, instance, right, reads)
        }
        Expr::Cond(test, yes, no) => {
            add_names(equations, instance, test, reads)?;
            add_names(equations, instance, yes, reads)?;
            add_names(equations, instance, no, reads)
        }
    }
}

// Adds the names that the parts of a concatenation mention.
#[cycle(add_names)]
fn add_parts(
    equations: &Equations,
    instance: u32,
    parts: &[Expr],
    reads: &mut Vec<u32>,
) -> Result<(), Memory>
    requires sound { IsSound (plain_text equations.now) }
    requires instance { instance < length (instances (plain_text equations.now)) }
    ensures { OnOk result ((i : Instance) → IsInstanceOfNumber (plain_text equations.now) instance i →
        AddsNames (plain_text equations.now) i.path (some_mentions (plain_exprs (map plain_expr parts.now))) reads.old.items reads.new.items) }
{
    for part in parts {
        add_names(equations, instance, part, reads)?;
    }
    Ok(())
}

// Adds a name of an instance, if it has bits.
fn add_name(
    equations: &Equations,
    instance: u32,
    name: &Name,
    reads: &mut Vec<u32>,
) -> Result<(), Memory>
    requires sound { IsSound (plain_text equations.now) }
    requires instance { instance < length (instances (plain_text equations.now)) }
    ensures { OnOk result ((i : Instance) → IsInstanceOfNumber (plain_text equations.now) instance i →
        AddsNames (plain_text equations.now) i.path (bytes_eq name.now) reads.old.items reads.new.items) }
{
    if let Some(first) = first_point(equations, instance, name.bytes()) {
        reads.push(first)?;
    }
    Ok(())
}
