//! The switch lists of a sample's tiles.

ghost use Rattle.std.specs.Prelude.{◌≡◌, ◌++◌, [], ◌∷◌, IfOk, OnOk, codes, decimal, map};
ghost use Rattle.fab_sample.specs.Lines.{text};
ghost use Rattle.fab_sample.specs.Lists.{begin_lines, bits, driven_lines, edge_lines, end_name, input_lines, logic_lines, pad_lines, pairs, table_inputs, table_lines, table_outputs, turn_inputs, wire_lines};

use crate::lines::{put, put_line};
use crate::side::Side;
use fab_base::{Memory, Name};
use itoa::Buffer;
use std::alloc::Global;

/// How many wires go to each side.
const WIRES: usize = 6;

/// A name in two parts.
fn name_of(alloc: Global, front: &[u8], back: &[u8]) -> Result<Name, Memory>
    ensures { IfOk result (λ name. name ≡ front.now ++ back.now) }
{
    let mut bytes = Vec::from_slice(alloc, front)?;
    put(&mut bytes, back)?;
    Ok(Name::from(bytes))
}

/// The name of a bit, or of a pin with a number.
fn numbered(alloc: Global, front: &[u8], number: usize) -> Result<Name, Memory>
    ensures { IfOk result (λ name. name ≡ front.now ++ decimal number) }
{
    name_of(alloc, front, Buffer::new().format(number).as_bytes())
}

/// Adds the names of the bits of a row of wires.
#[tactic(auto, unfolding(crate::specs::Lists::bits))]
fn push_bits(names: &mut Vec<Name>, alloc: Global, row: &[u8]) -> Result<(), Memory>
    ensures { OnOk result (names.new.items ≡ names.old.items ++ bits row.now) }
{
    for bit in 0..WIRES {
        names.push(numbered(alloc, row, bit)?)?;
    }
    Ok(())
}

/// Adds the names of the outputs of both look-up tables.
fn push_outputs(names: &mut Vec<Name>, alloc: Global) -> Result<(), Memory>
    ensures { OnOk result (names.new.items ≡ names.old.items ++ table_outputs) }
{
    names.push(Name::of(alloc, b"LA_O")?)?;
    names.push(Name::of(alloc, b"LB_O")?)?;
    Ok(())
}

/// What each input of a look-up table may take.
#[tactic(auto, unfolding(crate::specs::Lists::table_inputs))]
fn table_inputs(alloc: Global) -> Result<Vec<Name>, Memory>
    ensures { IfOk result (λ names. names.items ≡ table_inputs) }
{
    let mut names = Vec::new(alloc);
    push_bits(&mut names, alloc, Side::North.end())?;
    push_bits(&mut names, alloc, Side::East.end())?;
    push_bits(&mut names, alloc, Side::South.end())?;
    push_bits(&mut names, alloc, Side::West.end())?;
    push_outputs(&mut names, alloc)?;
    Ok(names)
}

/// Adds an output and an input that it may take.
fn put_pair(out: &mut Vec<u8>, output: &[u8], input: &[u8]) -> Result<(), Memory>
    ensures { OnOk result (out.new.items ≡ out.old.items ++ text (pairs output.now (input.now ∷ []))) }
{
    put(out, output)?;
    put(out, b",")?;
    put_line(out, input)
}

/// Adds an output with each input that it may take.
fn put_pairs(out: &mut Vec<u8>, output: &[u8], inputs: &[Name]) -> Result<(), Memory>
    ensures { OnOk result (out.new.items ≡ out.old.items ++ text (pairs output.now inputs.now)) }
{
    for input in inputs {
        put_pair(out, output, input.bytes())?;
    }
    Ok(())
}

/// Adds an input of the look-up table of a prefix, which may take these.
fn put_input(
    out: &mut Vec<u8>,
    alloc: Global,
    prefix: &[u8],
    inputs: &[Name],
    pin: usize,
) -> Result<(), Memory>
    ensures { OnOk result (out.new.items ≡ out.old.items ++ text (input_lines prefix.now inputs.now pin)) }
{
    let stem = name_of(alloc, prefix, b"I")?;
    let output = numbered(alloc, stem.bytes(), pin)?;
    put_pairs(out, output.bytes(), inputs)
}

/// Adds the pins of the look-up table of a prefix, whose inputs may take these.
#[tactic(auto, unfolding(crate::specs::Lists::table_lines))]
fn put_table(out: &mut Vec<u8>, alloc: Global, prefix: &[u8], inputs: &[Name]) -> Result<(), Memory>
    ensures { OnOk result (out.new.items ≡ out.old.items ++ text (table_lines prefix.now inputs.now)) }
{
    for pin in 0..4 {
        put_input(out, alloc, prefix, inputs, pin)?;
    }
    let reset = name_of(alloc, prefix, b"SR")?;
    put_pair(out, reset.bytes(), b"GND0")?;
    let enable = name_of(alloc, prefix, b"EN")?;
    put_pair(out, enable.bytes(), b"VCC0")
}

/// Adds the bits of a number of the wires that went in these directions.
fn push_ends(
    names: &mut Vec<Name>,
    alloc: Global,
    directions: &[Side],
    bit: usize,
) -> Result<(), Memory>
    ensures { OnOk result (names.new.items ≡ names.old.items ++ map (end_name bit) directions.now) }
{
    for from in directions {
        names.push(numbered(alloc, from.end(), bit)?)?;
    }
    Ok(())
}

/// What a wire that goes on to a side may take.
fn turn_inputs(alloc: Global, side: Side, bit: usize) -> Result<Vec<Name>, Memory>
    ensures { IfOk result (λ names. names.items ≡ turn_inputs side bit) }
{
    let mut names = Vec::new(alloc);
    push_ends(&mut names, alloc, &side.turns(), bit)?;
    push_outputs(&mut names, alloc)?;
    Ok(names)
}

/// Adds a wire that goes to a side.
fn put_wire(out: &mut Vec<u8>, alloc: Global, side: Side, bit: usize) -> Result<(), Memory>
    ensures { OnOk result (out.new.items ≡ out.old.items ++ text (wire_lines side bit)) }
{
    let output = numbered(alloc, side.begin(), bit)?;
    let inputs = turn_inputs(alloc, side, bit)?;
    put_pairs(out, output.bytes(), &inputs)
}

/// Adds the wires that go to a side.
#[tactic(auto, unfolding(crate::specs::Lists::begin_lines))]
fn put_begins(out: &mut Vec<u8>, alloc: Global, side: Side) -> Result<(), Memory>
    ensures { OnOk result (out.new.items ≡ out.old.items ++ text (begin_lines side)) }
{
    for bit in 0..WIRES {
        put_wire(out, alloc, side, bit)?;
    }
    Ok(())
}

/// The switch list of the logic.
#[tactic(auto, unfolding(crate::specs::Lists::logic_lines))]
pub fn print_logic(alloc: Global) -> Result<Name, Memory>
    ensures { IfOk result (λ list. list ≡ text logic_lines) }
{
    let inputs = table_inputs(alloc)?;
    let mut out = Vec::new(alloc);
    put_table(&mut out, alloc, b"LA_", &inputs)?;
    put_table(&mut out, alloc, b"LB_", &inputs)?;
    put_begins(&mut out, alloc, Side::North)?;
    put_begins(&mut out, alloc, Side::East)?;
    put_begins(&mut out, alloc, Side::South)?;
    put_begins(&mut out, alloc, Side::West)?;
    Ok(Name::from(out))
}

/// Adds the pins of the pad of a prefix, whose input may take these.
#[tactic(auto, unfolding(crate::specs::Lists::pad_lines))]
fn put_pad(out: &mut Vec<u8>, alloc: Global, prefix: &[u8], inputs: &[Name]) -> Result<(), Memory>
    ensures { OnOk result (out.new.items ≡ out.old.items ++ text (pad_lines prefix.now inputs.now)) }
{
    let input = name_of(alloc, prefix, b"I")?;
    put_pairs(out, input.bytes(), inputs)?;
    let tristate = name_of(alloc, prefix, b"T")?;
    put_pair(out, tristate.bytes(), b"GND0")?;
    put_pair(out, tristate.bytes(), b"VCC0")
}

/// Adds the wires of a row, each of which may take the outputs of both pads.
fn put_driven(out: &mut Vec<u8>, wires: &[Name]) -> Result<(), Memory>
    ensures { OnOk result (out.new.items ≡ out.old.items ++ text (driven_lines wires.now)) }
{
    for wire in wires {
        put_pair(out, wire.bytes(), b"A_O")?;
        put_pair(out, wire.bytes(), b"B_O")?;
    }
    Ok(())
}

/// The switch list of the pads at an edge of the grid, of which wires go to a side and others come from there, in the
/// direction of another.
#[tactic(auto, unfolding(crate::specs::Lists::edge_lines))]
pub fn print_edge(alloc: Global, to: Side, from: Side) -> Result<Name, Memory>
    ensures { IfOk result (λ list. list ≡ text (edge_lines to from)) }
{
    let mut ends = Vec::new(alloc);
    push_bits(&mut ends, alloc, from.end())?;
    let mut begins = Vec::new(alloc);
    push_bits(&mut begins, alloc, to.begin())?;
    let mut out = Vec::new(alloc);
    put_pad(&mut out, alloc, b"A_", &ends)?;
    put_pad(&mut out, alloc, b"B_", &ends)?;
    put_driven(&mut out, &begins)?;
    Ok(Name::from(out))
}
