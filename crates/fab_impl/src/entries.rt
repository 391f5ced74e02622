//! How cells, pads, nets and edges are taken.

ghost use Rattle.std.specs.Prelude.{◌≡◌, IfOk, OnOk};
ghost use Rattle.fab_base.specs.Reading.{Answers};
ghost use Rattle.fab_impl.specs.FirstPlaces.{first_place};
ghost use Rattle.fab_impl.specs.Lines.{cell_net_at, input_at, with_cell, with_edge, with_net, with_pad, with_wires};
ghost use Rattle.fab_impl.specs.Names.{cell_of, wire_of};

use crate::input_pads::InputPads;
use crate::names::{cell_of, site_in, wire_of};
use fab_base::{Memory, Name, Problem, Reason};
use fab_fabric::{Fabric, Site, Wire};
use fab_implementation::Tree;
use fab_netlist::NetId;
use std::alloc::Global;
use std::mem;

/// Takes a cell and its site.
pub fn take_cell(
    cells: &mut Vec<(u32, Site)>,
    fabric: &Fabric,
    cell: &[u8],
    site: &[u8],
) -> Result<(), Problem>
    ensures { Answers (λ _. cells.new.items) result (with_cell fabric.now cells.old.items cell.now site.now) }
{
    let Some(cell) = cell_of(cell) else {
        return Err(Problem::Malformed(Reason::Number));
    };
    let Some(site) = site_in(fabric, site) else {
        return Err(Problem::Malformed(Reason::Site));
    };
    cells.push((cell, site))?;
    Ok(())
}

/// Takes an input port and its site.
pub fn take_input(
    ins: &mut InputPads,
    alloc: Global,
    fabric: &Fabric,
    port: &[u8],
    site: &[u8],
) -> Result<(), Problem>
    ensures { Answers (λ _. ins.new) result (with_pad fabric.now ins.old port.now site.now) }
{
    let Some(site) = site_in(fabric, site) else {
        return Err(Problem::Malformed(Reason::Site));
    };
    let old = mem::replace(ins, InputPads::new(alloc));
    *ins = old.with(alloc, port, site)?;
    Ok(())
}

/// Takes an output port and its site.
pub fn take_output(
    outs: &mut Vec<(Name, Site)>,
    alloc: Global,
    fabric: &Fabric,
    port: &[u8],
    site: &[u8],
) -> Result<(), Problem>
    ensures { Answers (λ _. outs.new.items) result (with_pad fabric.now outs.old.items port.now site.now) }
{
    let Some(site) = site_in(fabric, site) else {
        return Err(Problem::Malformed(Reason::Site));
    };
    outs.push((Name::of(alloc, port)?, site))?;
    Ok(())
}

/// Takes a net, which has no edges yet.
pub fn take_net(trees: &mut Vec<Tree>, alloc: Global, net: NetId) -> Result<(), Memory>
    ensures { OnOk result (trees.new.items ≡ with_net trees.old.items net) }
{
    trees.push(Tree {
        net,
        edges: Vec::new(alloc),
    })?;
    Ok(())
}

/// Takes the net of an input port.
pub fn take_input_net(
    trees: &mut Vec<Tree>,
    alloc: Global,
    ins: &InputPads,
    port: &[u8],
) -> Result<(), Problem>
    ensures { Answers (λ _. trees.new.items) result (input_at trees.old.items (first_place ins.now port.now)) }
{
    let Some(place) = ins.place_of(port) else {
        return Err(Problem::Malformed(Reason::Port));
    };
    take_net(trees, alloc, NetId::In(place))?;
    Ok(())
}

/// Takes the net of a cell.
pub fn take_cell_net(trees: &mut Vec<Tree>, alloc: Global, cell: &[u8]) -> Result<(), Problem>
    ensures { Answers (λ _. trees.new.items) result (cell_net_at trees.old.items (cell_of cell.now)) }
{
    let Some(cell) = cell_of(cell) else {
        return Err(Problem::Malformed(Reason::Number));
    };
    take_net(trees, alloc, NetId::Cell(cell))?;
    Ok(())
}

/// A tree with one edge more.
fn with_edge(mut tree: Tree, from: Wire, to: Wire) -> Result<Tree, Memory>
    ensures { IfOk result (λ longer. longer ≡ with_edge (from, to) tree) }
{
    tree.edges.push((from, to))?;
    Ok(tree)
}

/// Takes an edge, which belongs to the last net.
pub fn take_edge(
    trees: &mut Vec<Tree>,
    fabric: &Fabric,
    from: &[u8],
    to: &[u8],
) -> Result<(), Problem>
    ensures { Answers (λ _. trees.new.items) result (with_wires trees.old.items (wire_of fabric.now from.now) (wire_of fabric.now to.now)) }
{
    let Some(tree) = trees.pop() else {
        return Err(Problem::Malformed(Reason::Row));
    };
    let Some(from) = wire_of(fabric, from) else {
        return Err(Problem::Malformed(Reason::Wire));
    };
    let Some(to) = wire_of(fabric, to) else {
        return Err(Problem::Malformed(Reason::Wire));
    };
    trees.push(with_edge(tree, from, to)?)?;
    Ok(())
}
