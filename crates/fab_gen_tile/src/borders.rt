//! The border bits of a row: ports and assigns.

ghost use Rattle.std.specs.Prelude.{◌≡◌, ◌+◌, ◌++◌, [], ◌∷◌, ℕ, true, false, map, IfOk, OnOk};
ghost use Rattle.fab_syntax.specs.Plain.{plain_expr, plain_item};
ghost use Rattle.fab_matrix.specs.fab_meaning.specs.Ports.{scalar};
ghost use Rattle.fab_model.specs.Rows.{bit_name, dest_bits};
ghost use Rattle.fab_model.specs.Tiles.{counted};
ghost use Rattle.fab_gen_tile.specs.Names.{border_name, begin_name, end_name};
ghost use Rattle.fab_gen_tile.specs.Borders.{side_border, border_ports, passing_assign, beginning_assign, begin_assigns, fixed_bit, dest_value, dest_assign, row_assigns};

use fab_base::{Memory, Name};
use fab_model::{Dir, WireRow};
use fab_syntax::{Expr, Item, Port, Shape, Word};
use itoa::Buffer;
use std::alloc::Global;

// ---- names

/// Adds a side of a row and the number of a border bit.
pub fn push_border_name(bytes: &mut Vec<u8>, side: &Option<Name>, bit: u64) -> Result<(), Memory>
    ensures { OnOk result (bytes.new.items ≡ bytes.old.items ++ border_name side.now bit) }
{
    if let Some(name) = side {
        bytes.extend_from_slice(name.bytes())?;
    }
    bytes.extend_from_slice(b"_")?;
    bytes.extend_from_slice(Buffer::new().format(bit).as_bytes())?;
    Ok(())
}

/// The name of a border bit that goes out of the tile.
pub fn begin_name(alloc: Global, row: &WireRow, bit: u64) -> Result<Name, Memory>
    ensures { IfOk result (λ name. name ≡ begin_name row.now bit) }
{
    let mut bytes = Vec::from_slice(alloc, b"fab_o_")?;
    push_border_name(&mut bytes, &row.source, bit)?;
    Ok(Name::from(bytes))
}

/// The name of a border bit that comes into the tile.
pub fn end_name(alloc: Global, row: &WireRow, bit: u64) -> Result<Name, Memory>
    ensures { IfOk result (λ name. name ≡ end_name row.now bit) }
{
    let mut bytes = Vec::from_slice(alloc, b"fab_i_")?;
    push_border_name(&mut bytes, &row.dest, bit)?;
    Ok(Name::from(bytes))
}

/// The matrix name of a bit of a side.
pub fn bit_name(alloc: Global, side: &Option<Name>, bit: u64) -> Result<Name, Memory>
    ensures { IfOk result (λ name. name ≡ bit_name side.now bit) }
{
    let mut bytes = Vec::new(alloc);
    if let Some(name) = side {
        bytes.extend_from_slice(name.bytes())?;
    }
    bytes.extend_from_slice(Buffer::new().format(bit).as_bytes())?;
    Ok(Name::from(bytes))
}

// ---- ports

/// Adds the ports of the border bits of a row.
pub fn push_border_ports(alloc: Global, ports: &mut Vec<Port>, row: &WireRow) -> Result<(), Memory>
    ensures { OnOk result (ports.new.items ≡ ports.old.items ++ border_ports row.now) }
{
    if row.dir == Dir::Jump {
        return Ok(());
    }
    push_begin_ports(alloc, ports, row)?;
    push_end_ports(alloc, ports, row)
}

/// How many bits a side of a row has at a border.
pub fn side_border(row: &WireRow, side: &Option<Name>) -> u64
    ensures { result ≡ side_border row.now side.now }
{
    if side.is_none() { 0 } else { row.border_bits() }
}

fn push_begin_ports(alloc: Global, ports: &mut Vec<Port>, row: &WireRow) -> Result<(), Memory>
    ensures { OnOk result (ports.new.items
        ≡ ports.old.items ++ counted (side_border row.now row.now.source) (λ bit. scalar false (begin_name row.now bit))) }
{
    for bit in 0..side_border(row, &row.source) {
        let name = begin_name(alloc, row, bit)?;
        ports.push(scalar(false, name))?;
    }
    Ok(())
}

fn push_end_ports(alloc: Global, ports: &mut Vec<Port>, row: &WireRow) -> Result<(), Memory>
    ensures { OnOk result (ports.new.items
        ≡ ports.old.items ++ counted (side_border row.now row.now.dest) (λ bit. scalar true (end_name row.now bit))) }
{
    for bit in 0..side_border(row, &row.dest) {
        let name = end_name(alloc, row, bit)?;
        ports.push(scalar(true, name))?;
    }
    Ok(())
}

/// A port of one bit.
pub fn scalar(input: bool, name: Name) -> Port
    ensures { result ≡ scalar input name }
{
    Port {
        input,
        shape: Shape::Scalar,
        name,
    }
}

// ---- assigns

/// Adds the assigns of the border bits and destination bits of a row. Want of memory is also the answer where a number of a
/// border bit does not fit.
pub fn push_row_assigns(alloc: Global, items: &mut Vec<Item>, row: &WireRow) -> Result<(), Memory>
    ensures { OnOk result (map plain_item items.new.items ≡ map plain_item items.old.items ++ row_assigns row.now) }
{
    if row.dir != Dir::Jump {
        push_begin_assigns(alloc, items, row, &row.source, &row.dest)?;
    }
    push_dest_assigns(alloc, items, row)
}

// Adds the begin bits of a row with these sides.
fn push_begin_assigns(
    alloc: Global,
    items: &mut Vec<Item>,
    row: &WireRow,
    source: &Option<Name>,
    dest: &Option<Name>,
) -> Result<(), Memory>
    ensures { OnOk result (map plain_item items.new.items ≡ map plain_item items.old.items ++ begin_assigns row.now source.now dest.now) }
{
    if source.is_none() {
        return Ok(());
    }
    if dest.is_none() {
        return push_beginning(alloc, items, row, 0, row.border_bits());
    }
    let passing = u64::from(row.span.saturating_sub(1)) * u64::from(row.count);
    push_passing(alloc, items, row, passing)?;
    push_beginning(alloc, items, row, passing, u64::from(row.count))
}

// A sum; want of memory where it does not fit.
fn sum(a: u64, b: u64) -> Result<u64, Memory>
    ensures { IfOk result (λ both. both ≡ a + b) }
{
    a.checked_add(b).ok_or(Memory)
}

// Adds the begin bits that end bits go on to.

fn push_passing(
    alloc: Global,
    items: &mut Vec<Item>,
    row: &WireRow,
    bits: u64,
) -> Result<(), Memory>
    ensures { OnOk result (map plain_item items.new.items
        ≡ map plain_item items.old.items ++ counted bits (passing_assign row.now)) }
{
    for bit in 0..bits {
        let from = sum(bit, u64::from(row.count))?;
        let value = Expr::Var(end_name(alloc, row, from)?);
        items.push(Item::Assign(begin_name(alloc, row, bit)?, value))?;
    }
    Ok(())
}

// Adds the begin bits of so many matrix outputs, from a first bit on.

fn push_beginning(
    alloc: Global,
    items: &mut Vec<Item>,
    row: &WireRow,
    first: u64,
    outputs: u64,
) -> Result<(), Memory>
    ensures { OnOk result (map plain_item items.new.items
        ≡ map plain_item items.old.items ++ counted outputs (beginning_assign row.now first)) }
{
    for output in 0..outputs {
        let bit = sum(first, output)?;
        let value = Expr::Var(bit_name(alloc, &row.source, output)?);
        items.push(Item::Assign(begin_name(alloc, row, bit)?, value))?;
    }
    Ok(())
}

fn push_dest_assigns(alloc: Global, items: &mut Vec<Item>, row: &WireRow) -> Result<(), Memory>
    ensures { OnOk result (map plain_item items.new.items
        ≡ map plain_item items.old.items ++ counted (dest_bits row.now) (dest_assign row.now)) }
{
    for bit in 0..row.dest_bits() {
        let value = dest_value(alloc, row, bit)?;
        items.push(Item::Assign(bit_name(alloc, &row.dest, bit)?, value))?;
    }
    Ok(())
}

// What a destination bit is.
fn dest_value(alloc: Global, row: &WireRow, bit: u64) -> Result<Expr, Memory>
    ensures { IfOk result (λ e. plain_expr e ≡ dest_value row.now bit) }
{
    if row.dir != Dir::Jump {
        return Ok(Expr::Var(end_name(alloc, row, bit)?));
    }
    if row.source.is_some() {
        return Ok(Expr::Var(bit_name(alloc, &row.source, bit)?));
    }
    let mut constant = Vec::new(alloc);
    constant.push(fixed_bit(&row.dest))?;
    Ok(Expr::Const(Word::from(constant)))
}

// What a jump without a source is.
fn fixed_bit(dest: &Option<Name>) -> bool
    ensures { result ≡ fixed_bit dest.now }
{
    match dest {
        Some(name) => name.bytes() == b"VCC".as_slice(),
        None => false,
    }
}
