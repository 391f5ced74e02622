//! Which line of a placement names each input port.

ghost use Rattle.std.specs.Prelude.{◌≡◌, ◌≢◌, ◌≤◌, IfOk, OnOk, AllPairs, length};
ghost use Rattle.std.specs.Str.{bytes_eq};
ghost use Rattle.indexmap.specs.IndexSet.{insert_key};
ghost use Rattle.fab_bits.specs.Keys.{key_names};
ghost use Rattle.fab_legal.specs.inner.Keeping.{port_number};
ghost use Rattle.fab_legal.specs.Legal.{ArePlaced};
ghost use Rattle.fab_legal.specs.Lines.{named};
ghost use Rattle.fab_legal.specs.WellMade.{IsWellMadePacked};
ghost use Rattle.fab_route.specs.inner.Wanted.{input_lines};
ghost use Rattle.fab_netlist.specs.WellMade.{most_nets};

use fab_base::{Memory, Name};
use fab_fabric::{Fabric, Site};
use fab_implementation::Implementation;
use fab_netlist::Packed;
use indexmap::IndexSet;
use std::alloc::Global;

/// For each input port the number of the line that names it.
pub(crate) fn input_lines(
    alloc: Global,
    _fabric: &Fabric,
    packed: &Packed,
    placed: &Implementation,
) -> Result<Vec<u32>, Memory>
    requires made { IsWellMadePacked packed.now }
    requires placed { ArePlaced _fabric.now packed.now placed.now }
    ensures { IfOk result (λ lines. lines.items ≡ input_lines packed.now placed.now) }
{
    let names = line_names(alloc, &placed.ins)?;
    let mut lines = Vec::new(alloc);
    for port in &packed.inputs {
        lines.push(line_of(&names, port))?;
    }
    Ok(lines)
}

// The names of ports, each at the number of its line.
fn line_names(alloc: Global, pads: &[(Name, Site)]) -> Result<IndexSet<Vec<u8>>, Memory>
    requires { AllPairs (λ first second. first ≢ second) (named pads.now) }
    ensures { IfOk result (λ names. key_names names.keys ≡ named pads.now) }
{
    let mut names = IndexSet::new(alloc);
    for pad in pads {
        put_name(alloc, &mut names, &pad.0)?;
    }
    Ok(names)
}

fn put_name(alloc: Global, names: &mut IndexSet<Vec<u8>>, name: &Name) -> Result<(), Memory>
    ensures { OnOk result (key_names names.new.keys ≡ insert_key bytes_eq (key_names names.old.keys) name.now) }
{
    names.insert(name.copy(alloc)?.into_vec())?;
    Ok(())
}

// The number of the line of a name; one past the last for other names.
fn line_of(names: &IndexSet<Vec<u8>>, name: &Name) -> u32
    requires { length (key_names names.now.keys) ≤ most_nets }
    ensures { result ≡ port_number (key_names names.now.keys) name.now }
{
    match names.get_index_of(name.bytes()) {
        Some(number) => number as u32,
        None => names.len() as u32,
    }
}
