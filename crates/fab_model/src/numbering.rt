//! The matrix names of a tile by number.

ghost use Rattle.std.specs.Prelude.{◌≡◌, ◌≢◌, ◌++◌, ℕ, Some, IfOk, OnOk, AllPairs, map, position, slice_get};
ghost use Rattle.std.specs.Str.{bytes_eq};
ghost use Rattle.std.specs.List.{flat_map};
ghost use Rattle.indexmap.specs.IndexSet.{insert_key, insert_all};
ghost use Rattle.fab_model.specs.Rows.{bit_name};
ghost use Rattle.fab_model.specs.Tiles.{counted, row_wires, bel_wires, wire_name};
ghost use Rattle.fab_kinds.specs.fab_bits.specs.Keys.{key_names};

use crate::tiles::{Bel, WireRow};
use fab_base::{Memory, Name};
use indexmap::IndexSet;
use itoa::Buffer;
use std::alloc::Global;

/// The matrix names of rows and BELs in the order of their numbers.
pub fn places_of(alloc: Global, rows: &[WireRow], bels: &[Bel]) -> Result<IndexSet<Vec<u8>>, Memory>
    requires { AllPairs (λ first second. first ≢ second) (map wire_name (flat_map row_wires rows.now ++ flat_map bel_wires bels.now)) }
    ensures { IfOk result (λ places. key_names places.keys ≡ map wire_name (flat_map row_wires rows.now ++ flat_map bel_wires bels.now)) }
{
    let mut places = IndexSet::new(alloc);
    insert_rows(alloc, &mut places, rows)?;
    insert_bels(alloc, &mut places, bels)?;
    Ok(places)
}

fn insert_rows(
    alloc: Global,
    places: &mut IndexSet<Vec<u8>>,
    rows: &[WireRow],
) -> Result<(), Memory>
    ensures { OnOk result (key_names places.new.keys
        ≡ insert_all bytes_eq (key_names places.old.keys) (map wire_name (flat_map row_wires rows.now))) }
{
    for row in rows {
        insert_row(alloc, places, row)?;
    }
    Ok(())
}

fn insert_row(alloc: Global, places: &mut IndexSet<Vec<u8>>, row: &WireRow) -> Result<(), Memory>
    ensures { OnOk result (key_names places.new.keys
        ≡ insert_all bytes_eq (key_names places.old.keys) (map wire_name (row_wires row.now))) }
{
    insert_bits(alloc, places, &row.source, row.source_bits())?;
    insert_bits(alloc, places, &row.dest, row.dest_bits())?;
    Ok(())
}

// The names of so many bits of one side of a row.
fn insert_bits(
    alloc: Global,
    places: &mut IndexSet<Vec<u8>>,
    side: &Option<Name>,
    bits: u64,
) -> Result<(), Memory>
    ensures { OnOk result (key_names places.new.keys
        ≡ insert_all bytes_eq (key_names places.old.keys) (counted bits (bit_name side.now))) }
{
    for bit in 0..bits {
        let key = bit_key(alloc, side, bit)?;
        insert_key(places, key)?;
    }
    Ok(())
}

fn bit_key(alloc: Global, side: &Option<Name>, bit: u64) -> Result<Vec<u8>, Memory>
    ensures { IfOk result (λ key. key.items ≡ bit_name side.now bit) }
{
    let mut key = Vec::new(alloc);
    if let Some(name) = side {
        key.extend_from_slice(name.bytes())?;
    }
    key.extend_from_slice(Buffer::new().format(bit).as_bytes())?;
    Ok(key)
}

fn insert_bels(alloc: Global, places: &mut IndexSet<Vec<u8>>, bels: &[Bel]) -> Result<(), Memory>
    ensures { OnOk result (key_names places.new.keys
        ≡ insert_all bytes_eq (key_names places.old.keys) (map wire_name (flat_map bel_wires bels.now))) }
{
    for bel in bels {
        insert_bel(alloc, places, bel)?;
    }
    Ok(())
}

fn insert_bel(alloc: Global, places: &mut IndexSet<Vec<u8>>, bel: &Bel) -> Result<(), Memory>
    ensures { OnOk result (key_names places.new.keys
        ≡ insert_all bytes_eq (key_names places.old.keys) (map wire_name (bel_wires bel.now))) }
{
    for pin in 0..bel.kind.inputs() + bel.kind.outputs() {
        let mut key = Vec::from_slice(alloc, bel.prefix.bytes())?;
        key.extend_from_slice(bel.kind.pin_name(pin).as_bytes())?;
        insert_key(places, key)?;
    }
    Ok(())
}

fn insert_key(places: &mut IndexSet<Vec<u8>>, key: Vec<u8>) -> Result<(), Memory>
    ensures { OnOk result (key_names places.new.keys ≡ insert_key bytes_eq (key_names places.old.keys) key.items) }
{
    places.insert(key)?;
    Ok(())
}

/// The number of a name; none where there is no such name.
pub fn place_of(places: &IndexSet<Vec<u8>>, name: &[u8]) -> Option<usize>
    ensures { result ≡ position (bytes_eq name.now) (key_names places.now.keys) }
{
    places.get_index_of(name)
}
