//! Other bits of an expression, beside one that a look has found.

ghost use Rattle.std.specs.Prelude.{◌≡◌, ◌<◌, ◌≤◌, ◌^◌, true, false, length, slice_get, IfOk, IfSome, Some};
ghost use Rattle.fab_systems_laws.specs.Ternary.{unknown, known as known_tern};
ghost use Rattle.fab_ternary.specs.Terns.{plain_tern};
ghost use Rattle.fab_compiled.specs.Leading.{PointTerns};
ghost use Rattle.fab_compiled.specs.Terns.{IsView};
ghost use Rattle.fab_network.specs.declared.network.Clock.{Clock};
ghost use Rattle.fab_network.specs.Network.{AreFit, IsFitSource};
ghost use Rattle.fab_demand.specs.Asked.{AsksMore, IsWhole};
ghost use Rattle.fab_demand.specs.Gates.{AreGates};
ghost use Rattle.fab_demand.specs.Search.{asked_of, left_of, Closes, HasRoom, IsSearching};
ghost use Rattle.fab_compiled.specs.Parts.{TellsBits};
ghost use Rattle.fab_network.specs.Leading.{bits_of_source};
ghost use Rattle.fab_demand.specs.inner.Beside.{AreAlike, AreFitBits, IsBeside, IsBit, IsBitDrive, IsBitOfPart, IsClosedAs, IsDriveOf, IsInPart, KnowsMore, TellsGate, TellsTogether};

use crate::copies::Copies;
use crate::gates::{Gate, Gates};
use crate::search::Search;
use fab_ahead::is_unmarked;
use fab_base::Memory;
use fab_compiled::{Part, Tree, View};
use fab_network::{Drive, Network, Source, part_of_source};
use fab_ternary::Tern;

/// How many bits stand side by side at least, so that they are found together.
pub(crate) const MANY: u32 = 32;

/// A bit of an expression, which may be the data of a latch behind this gate.
#[derive(Clone, Copy, Debug)]
pub struct Bits {
    pub source: Source,
    pub gate: Option<Source>,
}

/// What is found of bits together.
#[derive(Drop)]
pub struct Together {
    pub bits: Bits,
    /// Whether points have what their bits have: there is no gate, or it is known to be 1. Else the gate depends on points that have been asked for.
    pub passes: bool,
    pub part: Part,
}

impl Search {
    /// Closes other bits of the expression of a point without a look, as far as they are known or depend on points alone that have been asked for: those that
    /// have not been asked for, and those that wait last. A look at each of them would go through all that they rest on.
    pub(crate) fn close_others(&mut self, network: &Network, point: u32)
        requires fit { AreFit network.now.trees.items network.now.drives.items }
        requires points { length network.now.drives.items ≡ length self.old.leads.items }
        requires searching { (clock : Clock) × (given : PointTerns) × IsSearching network.now clock given self.old }
        ensures searching { (clock : Clock) (given : PointTerns) → IsSearching network.now clock given self.old → IsSearching network.now clock given self.new }
        ensures more { AsksMore (asked_of self.old) (asked_of self.new) }
        ensures left { left_of self.new ≤ left_of self.old }
    {
        let Some(bits) = self.wide_at(network, point) else {
            return;
        };
        let Some(passes) = self.passes_at(network, bits) else {
            return;
        };
        match self.copied_at(network, bits.source) {
            Some(copied) => {
                self.close_copies(
                    network,
                    Copies {
                        bits,
                        passes,
                        copied,
                    },
                    point,
                );
            }
            None => self.close_beside(network, bits, passes, point),
        }
    }

    // A bit that a point is, if there are many of the same expression, and others of them have not been asked for or wait.
    fn wide_at(&self, network: &Network, point: u32) -> Option<Bits>
        requires fit { AreFit network.now.trees.items network.now.drives.items }
        ensures { IfSome result (AreFitBits network.now.trees.items (length network.now.drives.items)) }
    {
        let bits = bits_at(network, point)?;
        if self.has_beside(network, bits, point) {
            Some(bits)
        } else {
            None
        }
    }

    // Whether half as many points before or behind a point there is a bit of the same expression that has not been asked for, or one waits last.
    fn has_beside(&self, network: &Network, bits: Bits, point: u32) -> bool {
        is_beside(network, bits, point.saturating_add(MANY / 2), &self.marks)
            || is_beside(network, bits, point.saturating_sub(MANY / 2), &self.marks)
            || is_bit_of(network, bits, self.waiting())
    }

    // Whether points have what their bits have, as `Together` says. None where the gate of this bit is known to be 0 or has to be looked at.
    fn passes_at(&mut self, network: &Network, bits: Bits) -> Option<bool>
        requires fit { AreFitBits network.now.trees.items (length self.old.leads.items) bits }
        requires searching { (clock : Clock) × (given : PointTerns) × IsSearching network.now clock given self.old }
        ensures passes { IfSome result (TellsGate network.now.trees.items self.new.terns.items self.new.leads.items self.new.marks.items bits.gate) }
        ensures searching { (clock : Clock) (given : PointTerns) → IsSearching network.now clock given self.old → IsSearching network.now clock given self.new }
        ensures same { self.new ≡ record (self.old) { gates = self.new.gates } }
    {
        let view = View {
            terns: &self.terns,
            leads: &self.leads,
        };
        gate_passes(
            &network.trees,
            bits.gate,
            &view,
            &self.marks,
            &mut self.gates,
        )
    }

    // Closes bits of the part of an expression in which a bit stands, of which a point is one.
    fn close_beside(&mut self, network: &Network, bits: Bits, passes: bool, point: u32)
        requires fit { AreFitBits network.now.trees.items (length self.old.leads.items) bits }
        requires points { length network.now.drives.items ≡ length self.old.leads.items }
        requires gate { TellsGate network.now.trees.items self.old.terns.items self.old.leads.items self.old.marks.items bits.gate passes }
        requires searching { (clock : Clock) × (given : PointTerns) × IsSearching network.now clock given self.old }
        ensures searching { (clock : Clock) (given : PointTerns) → IsSearching network.now clock given self.old → IsSearching network.now clock given self.new }
        ensures more { AsksMore (asked_of self.old) (asked_of self.new) }
        ensures left { left_of self.new ≤ left_of self.old }
    {
        if let Some(part) = self.part_at(network, bits.source) {
            let together = Together { bits, passes, part };
            self.close_part(network, &together, point);
        }
    }

    /// The part of an expression in which the bit of a source stands, where there is memory.
    pub(crate) fn part_at(&self, network: &Network, source: Source) -> Option<Part>
        requires fit { IsFitSource network.now.trees.items (length self.now.leads.items) source }
        requires whole { IsWhole (asked_of self.now) }
        ensures { IfSome result (TellsBits self.now.terns.items self.now.leads.items self.now.marks.items (bits_of_source network.now.trees.items source)) }
    {
        let alloc = *self.stack.allocator();
        let view = View {
            terns: &self.terns,
            leads: &self.leads,
        };
        match part_of_source(alloc, &network.trees, source, &view, &self.marks) {
            Ok(part) => Some(part),
            Err(Memory) => None,
        }
    }

    // Closes bits of a part of an expression, of which a point is one bit.
    fn close_part(&mut self, network: &Network, together: &Together, point: u32)
        requires points { length network.now.drives.items ≡ length self.old.leads.items }
        requires tells { TellsTogether network.now.trees.items (asked_of self.old) together.now }
        requires searching { (clock : Clock) × (given : PointTerns) × IsSearching network.now clock given self.old }
        ensures searching { (clock : Clock) (given : PointTerns) → IsSearching network.now clock given self.old → IsSearching network.now clock given self.new }
        ensures more { AsksMore (asked_of self.old) (asked_of self.new) }
        ensures left { left_of self.new ≤ left_of self.old }
    {
        self.close_waiting(network, together);
        self.close_row(network, together, points_of(together, point));
    }

    // Closes the points that wait last, as far as they are bits of a part.
    fn close_waiting(&mut self, network: &Network, together: &Together)
        requires points { length network.now.drives.items ≡ length self.old.leads.items }
        requires tells { TellsTogether network.now.trees.items (asked_of self.old) together.now }
        requires searching { (clock : Clock) × (given : PointTerns) × IsSearching network.now clock given self.old }
        ensures searching { (clock : Clock) (given : PointTerns) → IsSearching network.now clock given self.old → IsSearching network.now clock given self.new }
        ensures more { AsksMore (asked_of self.old) (asked_of self.new) }
        ensures left { left_of self.new ≤ left_of self.old }
        ensures above { KnowsMore (asked_of self.old) (asked_of self.new) }
    {
        'waiting: while let Some(last) = self.waiting() {
            let Some(found) = found_at(network, together, last) else {
                return;
            };
            self.close_as(last, found);
        }
    }

    // Closes bits of a part between these points.
    fn close_row(&mut self, network: &Network, together: &Together, row: (u32, u32))
        requires points { length network.now.drives.items ≡ length self.old.leads.items }
        requires tells { TellsTogether network.now.trees.items (asked_of self.old) together.now }
        requires searching { (clock : Clock) × (given : PointTerns) × IsSearching network.now clock given self.old }
        ensures searching { (clock : Clock) (given : PointTerns) → IsSearching network.now clock given self.old → IsSearching network.now clock given self.new }
        ensures more { AsksMore (asked_of self.old) (asked_of self.new) }
        ensures left { left_of self.new ≤ left_of self.old }
    {
        let (start, end) = row;
        for other in start..end {
            self.close_other(network, together, other);
        }
    }

    // Closes a bit, unless it has been asked for or has to be looked at.
    fn close_other(&mut self, network: &Network, together: &Together, other: u32)
        requires points { length network.now.drives.items ≡ length self.old.leads.items }
        requires tells { TellsTogether network.now.trees.items (asked_of self.old) together.now }
        requires searching { (clock : Clock) × (given : PointTerns) × IsSearching network.now clock given self.old }
        ensures searching { (clock : Clock) (given : PointTerns) → IsSearching network.now clock given self.old → IsSearching network.now clock given self.new }
        ensures more { AsksMore (asked_of self.old) (asked_of self.new) }
        ensures left { left_of self.new ≤ left_of self.old }
        ensures above { KnowsMore (asked_of self.old) (asked_of self.new) }
    {
        if let Some(found) = found_beside(network, together, other, &self.marks) {
            self.wait(other);
            self.close_as(other, found);
        }
    }

    // The last point that waits has this, or stands for itself where nothing is known of it.
    fn close_as(&mut self, point: u32, found: Tern)
        requires room { HasRoom self.old }
        requires done { slice_get self.old.done.items point ≡ Some false }
        requires within { point < length self.old.terns.items }
        ensures { IsClosedAs self.old self.new point found }
    {
        match found {
            Tern::No => self.know(point, false),
            Tern::Yes => self.know(point, true),
            Tern::Open => self.keep(point),
        }
    }
}

// Whether a gate is known to be 1, or depends on points that have been asked for. None where it is known to be 0 or needs a point more.
fn gate_passes(
    trees: &[Tree],
    gate: Option<Source>,
    view: &View,
    marks: &[bool],
    gates: &mut Gates,
) -> Option<bool>
    requires fit { IfSome gate (IsFitSource trees.now (length view.now.leads.now)) }
    requires view { IsView view.now.terns.now view.now.leads.now }
    requires few { length view.now.leads.now ≤ 2 ^ 32 }
    requires marks { length marks.now ≡ length view.now.leads.now }
    requires gates { AreGates trees.now view.now.terns.now view.now.leads.now marks.now gates.old.kept.items }
    ensures passes { IfSome result (TellsGate trees.now view.now.terns.now view.now.leads.now marks.now gate) }
    ensures gates { AreGates trees.now view.now.terns.now view.now.leads.now marks.now gates.new.kept.items }
{
    match gate {
        Some(source) => source_passes(trees, source, view, marks, gates),
        None => Some(true),
    }
}

// The same of a gate that there is.
fn source_passes(
    trees: &[Tree],
    gate: Source,
    view: &View,
    marks: &[bool],
    gates: &mut Gates,
) -> Option<bool>
    requires fit { IsFitSource trees.now (length view.now.leads.now) gate }
    requires view { IsView view.now.terns.now view.now.leads.now }
    requires few { length view.now.leads.now ≤ 2 ^ 32 }
    requires marks { length marks.now ≡ length view.now.leads.now }
    requires gates { AreGates trees.now view.now.terns.now view.now.leads.now marks.now gates.old.kept.items }
    ensures passes { IfSome result (TellsGate trees.now view.now.terns.now view.now.leads.now marks.now (Some gate)) }
    ensures gates { AreGates trees.now view.now.terns.now view.now.leads.now marks.now gates.new.kept.items }
{
    match gates.tell(trees, gate, view, marks) {
        Ok(Gate::Known(true)) => Some(true),
        Ok(Gate::Depends) => Some(false),
        Ok(Gate::Known(false)) | Err(_) => None,
    }
}

// A bit that a point is.
fn bits_at(network: &Network, point: u32) -> Option<Bits>
    requires fit { AreFit network.now.trees.items network.now.drives.items }
    ensures { IfSome result (AreFitBits network.now.trees.items (length network.now.drives.items)) }
{
    let drive = network.drives.get(point as usize)?;
    bits_of(*drive)
}

// A bit that a drive tells.
fn bits_of(drive: Drive) -> Option<Bits>
    ensures { IfSome result (IsDriveOf drive) }
{
    match drive {
        Drive::Value(source) => Some(Bits { source, gate: None }),
        Drive::Hold(gate, source) => Some(Bits {
            source,
            gate: Some(gate),
        }),
        Drive::Given | Drive::Flop(_, _) | Drive::Same(_) => None,
    }
}

// Whether a point is a bit of the same expression as another and has not been asked for.
fn is_beside(network: &Network, bits: Bits, point: u32, marks: &[bool]) -> bool {
    is_unmarked(point, marks) && is_bit_of(network, bits, Some(point))
}

fn is_bit_of(network: &Network, bits: Bits, point: Option<u32>) -> bool {
    match point {
        Some(point) => bit_of(network, bits, point).is_some(),
        None => false,
    }
}

/// Which bit of the same expression as another a point is, behind the same gate, if it is one.
pub(crate) fn bit_of(network: &Network, bits: Bits, point: u32) -> Option<u32>
    ensures { IfSome result (λ bit. IsBit network.now bits point bit) }
{
    let drive = network.drives.get(point as usize)?;
    bit_in(*drive, bits)
}

// The same of a drive.
fn bit_in(drive: Drive, bits: Bits) -> Option<u32>
    ensures { IfSome result (λ bit. IsBitDrive drive bits bit) }
{
    let found = bits_of(drive)?;
    if are_alike(found, bits) {
        Some(found.source.bit)
    } else {
        None
    }
}

// Whether two bits are of one expression, behind the same gate if there is one.
fn are_alike(found: Bits, bits: Bits) -> bool
    ensures { result ≡ true → AreAlike found bits }
{
    found.source.is_beside(bits.source) && are_same(found.gate, bits.gate)
}

// Whether two gates are the same, or there are none.
fn are_same(gate: Option<Source>, other: Option<Source>) -> bool
    ensures { result ≡ true → gate ≡ other }
{
    match (gate, other) {
        (Some(one), Some(two)) => one == two,
        (None, None) => true,
        (Some(_), None) | (None, Some(_)) => false,
    }
}

// The first point of a part of an expression of which a point is a bit, and behind the last one, where points follow one another as the bits do.
fn points_of(together: &Together, point: u32) -> (u32, u32) {
    let part = &together.part;
    points_beside(together.bits, point, part.low, part.bits.len() as u64)
}

/// The same of so many bits from a low one on.
pub(crate) fn points_beside(bits: Bits, point: u32, low: u64, count: u64) -> (u32, u32) {
    let zero = point.saturating_sub(bits.source.bit);
    let low = u32::try_from(low).unwrap_or(u32::MAX);
    let start = zero.saturating_add(low);
    let count = u32::try_from(count).unwrap_or(u32::MAX);
    (start, start.saturating_add(count))
}

// What is told of a point that is such a bit and has not been asked for.
fn found_beside(network: &Network, together: &Together, point: u32, marks: &[bool]) -> Option<Tern>
    ensures { IfSome result (λ found. IsBeside network.now together.now marks.now point found) }
{
    if is_unmarked(point, marks) {
        found_at(network, together, point)
    } else {
        None
    }
}

// What is told of a point, if it is such a bit and that is enough.
fn found_at(network: &Network, together: &Together, point: u32) -> Option<Tern>
    ensures { IfSome result (λ found. IsBitOfPart network.now together.now point found) }
{
    let bit = bit_of(network, together.bits, point)?;
    found_in(together, bit)
}

// What is told of a bit, if that is enough: what is known of it where it passes the gate, or that it stands for itself.
fn found_in(together: &Together, bit: u32) -> Option<Tern>
    ensures { IfSome result (λ found. IsInPart together.now bit found) }
{
    let part = &together.part;
    let place = u64::from(bit).checked_sub(part.low)?;
    let found = *part.bits.get(place as usize)?;
    if together.passes && !found.is_open() {
        Some(found)
    } else if part.marked {
        Some(Tern::Open)
    } else {
        None
    }
}
