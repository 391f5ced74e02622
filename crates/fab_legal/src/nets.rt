//! The nets of an implementation: which they are, and where they may begin.

ghost use Rattle.std.specs.Prelude.{◌≡◌, ◌<◌, ◌≤◌, ◌↔◌, ℕ, [], Some, IsTrue, IfOk, OnOk, IfErr, All, MatchOption, length, map, nat_eq};
ghost use Rattle.indexmap.specs.IndexSet.{insert_key};
ghost use Rattle.fab_kinds.specs.declared.kind.Kind.TheVariants as kinds;
ghost use Rattle.fab_implementation.specs.fab_fabric.specs.Fabric.{wire_count};
ghost use Rattle.fab_implementation.specs.fab_netlist.specs.declared.net_id.NetId.TheVariants as ids;
ghost use Rattle.fab_implementation.specs.OnFabric.{HasWires, kind_at};
ghost use Rattle.fab_legal.specs.Turns.{AreRight, IsFirstWrongAt};
ghost use Rattle.fab_legal.specs.WellMade.{IsWellMadePacked};
ghost use Rattle.fab_implementation.specs.Inputs.{InputsAreLines};
ghost use Rattle.fab_legal.specs.Legal.{ArePlaced, NetsBeginRight};
ghost use Rattle.fab_legal.specs.Broken.{IsNetItem};
ghost use Rattle.fab_legal.specs.inner.Kept.{AreKept};
ghost use Rattle.fab_legal.specs.inner.Roots.{StartsAt, IsStart, AreStarts, IsNewNet, IsSmall, entered_set, root_by, packed_id, net_number, tree_number};
ghost use Rattle.fab_legal.specs.inner.Answers.{Breaks};
ghost use Rattle.fab_implementation.specs.fab_netlist.specs.WellMade.{most_nets};

use crate::broken::{CheckFault, broken_by};
use crate::placed::Placed;
use crate::reach::entered;
use crate::texts::{net_text, wire_text};
use crate::tiles::{constant_at, find_pin};
use fab_base::Memory;
use fab_implementation::fab_fabric::{Fabric, Wire};
use fab_implementation::fab_netlist::{NetId, Packed};
use fab_implementation::{Implementation, Tree};
use indexmap::IndexSet;
use std::alloc::Global;
use std::mem;

// O of a pad and of a LUT4c.
const PAD_OUTPUT: u32 = 2;

const LUT_OUTPUT: u32 = 7;

/// Where a net may begin.
#[derive(Clone, Copy, Debug)]
pub enum Root {
    /// At the constant wires of this value.
    Constant(bool),
    /// At an output pin.
    Source(Wire),
}

// The net of a tree, by the numbers of the inputs of the design.
fn packed_id(placed: &Placed, net: NetId) -> NetId
    requires { (number : ℕ) → net ≡ ids.In number → number < length placed.now.ins.lines.items }
    ensures { result ≡ packed_id placed.now.ins.lines.items net }
{
    match net {
        NetId::In(line) => NetId::In(placed.ins.lines[line as usize].0),
        _ => net,
    }
}

/// Whether a net is one of the design.
pub fn exists(placed: &Placed, net: NetId) -> bool
    ensures { IsTrue result ↔ IsSmall placed.now net }
{
    match net {
        NetId::Zero | NetId::One => true,
        NetId::In(number) => (number as usize) < placed.ins.sites.len(),
        NetId::Cell(number) => (number as usize) < placed.cells.len(),
    }
}

/// The place of a net in the order of nets: those of zeros and ones, of inputs and of cells.
pub fn net_number(placed: &Placed, net: NetId) -> u32
    requires small { IsSmall placed.now net }
    requires few_ins { length placed.now.ins.sites.items ≤ most_nets }
    requires few_cells { length placed.now.cells.items ≤ most_nets }
    ensures { result ≡ net_number placed.now net }
{
    match net {
        NetId::Zero => 0,
        NetId::One => 1,
        NetId::In(number) => 2 + number,
        NetId::Cell(number) => 2 + placed.ins.sites.len() as u32 + number,
    }
}

// Where a net may begin.
fn root_of(alloc: Global, fabric: &Fabric, placed: &Placed, net: NetId) -> Result<Root, Memory>
    requires small { IsSmall placed.now net }
    requires luts { All (λ site. kind_at fabric.now site ≡ Some kinds.Lut4c) placed.now.cells.items }
    requires pads { All (λ site. kind_at fabric.now site ≡ Some kinds.Io) placed.now.ins.sites.items }
    ensures { IfOk result (λ root. root ≡ root_by fabric.now placed.now net) }
{
    match net {
        NetId::Zero => Ok(Root::Constant(false)),
        NetId::One => Ok(Root::Constant(true)),
        NetId::In(number) => {
            let site = placed.ins.sites[number as usize];
            Ok(Root::Source(find_pin(alloc, fabric, site, PAD_OUTPUT)?))
        }
        NetId::Cell(number) => {
            let site = placed.cells[number as usize];
            Ok(Root::Source(find_pin(alloc, fabric, site, LUT_OUTPUT)?))
        }
    }
}

// Whether a net may begin at a wire.
fn is_root(fabric: &Fabric, root: Root, wire: Wire) -> bool
    requires { wire.0 < wire_count fabric.now }
    ensures { IsTrue result ↔ StartsAt fabric.now root wire }
{
    match root {
        Root::Constant(value) => constant_at(fabric, wire) == Some(value),
        Root::Source(source) => wire == source,
    }
}

// The place of the first edge whose first wire no edge enters and at which the net may not begin.
fn wrong_start(
    fabric: &Fabric,
    root: Root,
    entered: &IndexSet<u32>,
    edges: &[(Wire, Wire)],
) -> Option<usize>
    requires { All (HasWires fabric.now) edges.now }
    ensures { MatchOption result (AreRight (IsStart fabric.now root entered.now.keys) edges.now) (IsFirstWrongAt (IsStart fabric.now root entered.now.keys) edges.now) }
{
    for (place, edge) in edges.iter().enumerate() {
        if entered.contains(&edge.0.0) {
            continue;
        }
        if !is_root(fabric, root, edge.0) {
            return Some(place);
        }
    }
    None
}

// The place of the first edge of a tree at which its net may not begin.
fn wrong_tree(
    alloc: Global,
    fabric: &Fabric,
    placed: &Placed,
    net: NetId,
    edges: &[(Wire, Wire)],
) -> Result<Option<usize>, Memory>
    requires small { IsSmall placed.now net }
    requires luts { All (λ site. kind_at fabric.now site ≡ Some kinds.Lut4c) placed.now.cells.items }
    requires pads { All (λ site. kind_at fabric.now site ≡ Some kinds.Io) placed.now.ins.sites.items }
    requires wires { All (HasWires fabric.now) edges.now }
    ensures { IfOk result (λ found. MatchOption found (AreStarts fabric.now placed.now net edges.now) (IsFirstWrongAt (IsStart fabric.now (root_by fabric.now placed.now net) (entered_set edges.now)) edges.now)) }
{
    let root = root_of(alloc, fabric, placed, net)?;
    let entered = entered(alloc, edges)?;
    Ok(wrong_start(fabric, root, &entered, edges))
}

// Whether a net is one of the design and none of those with these numbers.
fn is_new(placed: &Placed, numbers: &IndexSet<u32>, net: NetId) -> bool
    requires few_ins { length placed.now.ins.sites.items ≤ most_nets }
    requires few_cells { length placed.now.cells.items ≤ most_nets }
    ensures { IsTrue result ↔ IsNewNet placed.now numbers.now.keys net }
{
    if !exists(placed, net) {
        return false;
    }
    !numbers.contains(&net_number(placed, net))
}

// Adds a number.
fn add(numbers: &mut IndexSet<u32>, number: u32) -> Result<(), Memory>
    ensures { OnOk result (numbers.new.keys ≡ insert_key nat_eq numbers.old.keys number) }
{
    numbers.insert(number)?;
    Ok(())
}

// Adds the numbers of the nets of an implementation, each of which exists, is named once and begins where it may.
fn put_nets(
    alloc: Global,
    fabric: &Fabric,
    _packed: &Packed,
    implementation: &Implementation,
    placed: &Placed,
    numbers: &mut IndexSet<u32>,
) -> Result<(), CheckFault>
    requires made { IsWellMadePacked _packed.now }
    requires wires { All (λ tree. All (HasWires fabric.now) tree.edges) implementation.now.trees }
    requires lines { InputsAreLines implementation.now }
    requires sites { ArePlaced fabric.now _packed.now implementation.now }
    requires kept { AreKept _packed.now implementation.now placed.now }
    requires none { numbers.old.keys ≡ [] }
    ensures ok { OnOk result (NetsBeginRight fabric.now _packed.now implementation.now) }
    ensures numbers { OnOk result (numbers.new.keys ≡ map (tree_number placed.now) implementation.now.trees) }
    ensures err { IfErr result (Breaks 7 (IsNetItem fabric.now _packed.now implementation.now)) }
{
    for tree in &implementation.trees {
        let net = packed_id(placed, tree.net);
        if !is_new(placed, numbers, net) {
            return Err(broken_by(7, net_text(alloc, implementation, tree.net)?));
        }
        if let Some(place) = wrong_tree(alloc, fabric, placed, net, &tree.edges)? {
            return Err(broken_by(7, wire_text(alloc, fabric, tree.edges[place].0)?));
        }
        add(numbers, net_number(placed, net))?;
    }
    Ok(())
}

/// The numbers of the nets of an implementation, each of which exists, is named once and begins where it may.
pub fn check_nets(
    alloc: Global,
    fabric: &Fabric,
    packed: &Packed,
    implementation: &Implementation,
    placed: &Placed,
) -> Result<IndexSet<u32>, CheckFault>
    requires made { IsWellMadePacked packed.now }
    requires wires { All (λ tree. All (HasWires fabric.now) tree.edges) implementation.now.trees }
    requires lines { InputsAreLines implementation.now }
    requires sites { ArePlaced fabric.now packed.now implementation.now }
    requires kept { AreKept packed.now implementation.now placed.now }
    ensures ok { OnOk result (NetsBeginRight fabric.now packed.now implementation.now) }
    ensures numbers { IfOk result (λ numbers. numbers.keys ≡ map (tree_number placed.now) implementation.now.trees) }
    ensures err { IfErr result (Breaks 7 (IsNetItem fabric.now packed.now implementation.now)) }
{
    let mut numbers = IndexSet::new(alloc);
    match put_nets(alloc, fabric, packed, implementation, placed, &mut numbers) {
        Ok(()) => Ok(numbers),
        Err(fault) => {
            mem::drop(numbers);
            Err(fault)
        }
    }
}
