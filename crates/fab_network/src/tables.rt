//! Tables of the values that a bit of an expression has by those of a few points.

ghost use Rattle.std.specs.Prelude.{◌≡◌, ◌<◌, ◌≤◌, ◌^◌, ℕ, false, Some, length, slice_get, IfSome};
ghost use Rattle.fab_ternary.specs.Terns.{plain_tern};
ghost use Rattle.fab_compiled.specs.Leading.{PointTerns};
ghost use Rattle.fab_compiled.specs.Terns.{IsView};
ghost use Rattle.fab_network.specs.Network.{IsFitSource};
ghost use Rattle.fab_network.specs.Passes.{kept_tern};
ghost use Rattle.fab_network.specs.Tables.{digit_of, entry_place, put_at, tern_of, AreDigits, AreInside, AreKept, IsTable};

use crate::inputs::inputs_of;
use crate::network::{Source, evaluate};
use fab_compiled::{Tree, View};
use fab_ternary::Tern;

/// How many entries a table has: one for each three values of four inputs.
pub const ENTRIES: usize = 81;

/// The points by whose values an entry of a table is told. Where there are fewer than four, one stands again.
#[derive(Clone, Copy, Debug)]
pub struct Inputs {
    pub first: u32,
    pub second: u32,
    pub third: u32,
    pub fourth: u32,
}

/// A value for each input of a table.
#[derive(Clone, Copy, Debug)]
pub struct Values {
    pub first: Tern,
    pub second: Tern,
    pub third: Tern,
    pub fourth: Tern,
}

/// What a bit of an expression has, whatever its inputs have. All else that it reads stays as it was when the table was made.
#[derive(Clone, Copy)]
pub struct Table {
    pub inputs: Inputs,
    /// The values of the inputs are the digits of a place, that of the first input the least significant.
    pub entries: [Tern; ENTRIES],
}

impl Table {
    /// What the bit has where points have these values.
    pub fn value(&self, terns: &[Tern]) -> Tern
        requires inside { AreInside (length terns.now) self.now.inputs }
        requires long { length self.now.entries ≡ 81 }
        ensures { slice_get self.now.entries (entry_place self.now.inputs (kept_tern terns.now)) ≡ Some result }
    {
        let place = self.inputs.place(terns);
        self.entries[place]
    }
}

impl Inputs {
    // The place of the entry for what the inputs have.
    fn place(self, terns: &[Tern]) -> usize
        requires inside { AreInside (length terns.now) self }
        ensures is { result ≡ entry_place self (kept_tern terns.now) }
        ensures small { result < 81 }
    {
        let low = digit(terns[self.first as usize]) + 3 * digit(terns[self.second as usize]);
        let high = digit(terns[self.third as usize]) + 3 * digit(terns[self.fourth as usize]);
        low + 9 * high
    }

    // What the inputs have.
    fn values(self, terns: &[Tern]) -> Values
        requires inside { AreInside (length terns.now) self }
        ensures { AreKept (kept_tern terns.now) self result }
    {
        Values {
            first: terns[self.first as usize],
            second: terns[self.second as usize],
            third: terns[self.third as usize],
            fourth: terns[self.fourth as usize],
        }
    }

    // Whether the inputs may have these values: an input that stands again has one value.
    fn may_have(self, values: Values) -> bool
        ensures { result ≡ false → (t : PointTerns) → AreKept t self values → ⊥ }
    {
        if !agree(self.first, values.first, self.second, values.second) {
            return false;
        }
        if !agree(self.second, values.second, self.third, values.third) {
            return false;
        }
        agree(self.third, values.third, self.fourth, values.fourth)
    }

    // Gives values to the inputs.
    fn put(self, values: Values, terns: &mut [Tern])
        requires inside { AreInside (length terns.old) self }
        ensures { terns.new ≡ put_at terns.old self values }
    {
        terns[self.first as usize] = values.first;
        terns[self.second as usize] = values.second;
        terns[self.third as usize] = values.third;
        terns[self.fourth as usize] = values.fourth;
    }
}

// Whether two inputs may have these values.
fn agree(point: u32, value: Tern, other: u32, given: Tern) -> bool
    ensures { result ≡ false → (t : PointTerns) → plain_tern value ≡ t point → plain_tern given ≡ t other → ⊥ }
{
    point != other || digit(value) == digit(given)
}

/// The table of a source, where it is small and reads no more than four points that vary: those that have been asked for and are open. All points
/// have again what they had before. Entries that no values of the inputs pick are not found: with one input there are three, and not 81.
pub(crate) fn table_of(
    trees: &[Tree],
    source: Source,
    leads: &[u32],
    marks: &[bool],
    terns: &mut [Tern],
) -> Option<Table>
    requires fit { IsFitSource trees.now (length leads.now) source }
    requires view { IsView terns.old leads.now }
    requires terns { length terns.old ≡ length leads.now }
    requires marks { length marks.now ≡ length leads.now }
    requires small { length leads.now ≤ 2 ^ 32 }
    ensures same { (point : ℕ) → kept_tern terns.new point ≡ kept_tern terns.old point }
    ensures table { IfSome result (IsTable trees.now leads.now marks.now terns.old source) }
{
    let tree = &trees[source.tree as usize];
    let inputs = inputs_of(tree, source.first as usize, &View { terns, leads }, marks)?;
    let kept = inputs.values(terns);
    let mut entries = [Tern::Open; ENTRIES];
    for place in 0..ENTRIES {
        let values = values_at(place);
        if !inputs.may_have(values) {
            continue;
        }
        inputs.put(values, terns);
        entries[place] = evaluate(trees, source, &View { terns, leads });
    }
    inputs.put(kept, terns);
    Some(Table { inputs, entries })
}

// The values at whose place an entry stands.
fn values_at(place: usize) -> Values
    ensures { AreDigits place result }
{
    Values {
        first: tern_at(place % 3),
        second: tern_at(place / 3 % 3),
        third: tern_at(place / 9 % 3),
        fourth: tern_at(place / 27 % 3),
    }
}

// The value of a digit.
fn tern_at(digit: usize) -> Tern
    ensures { plain_tern result ≡ tern_of digit }
{
    match digit {
        0 => Tern::No,
        1 => Tern::Yes,
        _ => Tern::Open,
    }
}

// The digit of a value.
fn digit(tern: Tern) -> usize
    ensures is { result ≡ digit_of (plain_tern tern) }
    ensures small { result < 3 }
{
    match tern {
        Tern::No => 0,
        Tern::Yes => 1,
        Tern::Open => 2,
    }
}
