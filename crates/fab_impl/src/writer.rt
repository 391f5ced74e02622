//! How an implementation is printed.

ghost use Rattle.std.specs.Prelude.{◌≡◌, ◌++◌, ◌<◌, All, IfOk, OnOk, length, map};
ghost use Rattle.std.specs.List.{flat_map};
ghost use Rattle.fab_fabric.specs.Fabric.{wire_count};
ghost use Rattle.fab_implementation.specs.OnFabric.{HasSites, HasWires, IsOnFabric, IsSite};
ghost use Rattle.fab_texts.specs.Printed.{row_text, rows_text};
ghost use Rattle.fab_fabric.specs.Names.{site_text};
ghost use Rattle.fab_texts.specs.Rows.{rows_of};
ghost use Rattle.fab_impl.specs.Names.{wire_text};
ghost use Rattle.fab_implementation.specs.Inputs.{InputsAreLines, NamesInput};
ghost use Rattle.fab_impl.specs.Spelled.{HasSpelling, Says, Spells, cell_line, edge_line, headers, implementation_text, net_line, pad_line, tree_lines};

use crate::names::cell_text;
use fab_base::{Memory, Name};
use fab_fabric::{Fabric, Site, Wire};
use fab_implementation::{Implementation, Tree};
use fab_netlist::NetId;
use fab_texts::put_row;
use std::alloc::Global;

fn site_text(alloc: Global, fabric: &Fabric, site: Site) -> Result<Name, Memory>
    requires { IsSite fabric.now site }
    ensures { IfOk result (λ name. name ≡ site_text site) }
{
    fabric.is_well_made();
    site.name(alloc)
}

fn put_headers(out: &mut Vec<u8>, reset: &Option<Name>) -> Result<(), Memory>
    ensures { OnOk result (out.new.items ≡ out.old.items ++ rows_text (headers reset.now)) }
{
    let Some(port) = reset else {
        return put_row(out, &[b"fabulous-impl", b"1"]);
    };
    put_row(out, &[b"fabulous-impl", b"2"])?;
    put_row(out, &[b"reset", port.bytes()])
}

fn put_cells(
    out: &mut Vec<u8>,
    alloc: Global,
    fabric: &Fabric,
    cells: &[(u32, Site)],
) -> Result<(), Memory>
    requires { HasSites fabric.now cells.now }
    ensures { OnOk result (out.new.items ≡ out.old.items ++ rows_text (map cell_line cells.now)) }
{
    for (cell, site) in cells {
        let cell = cell_text(alloc, *cell)?;
        let site = site_text(alloc, fabric, *site)?;
        put_row(out, &[b"cell", cell.bytes(), site.bytes()])?;
    }
    Ok(())
}

fn put_pads(
    out: &mut Vec<u8>,
    alloc: Global,
    fabric: &Fabric,
    side: &[u8],
    pads: &[(Name, Site)],
) -> Result<(), Memory>
    requires { HasSites fabric.now pads.now }
    ensures { OnOk result (out.new.items ≡ out.old.items ++ rows_text (map (pad_line side.now) pads.now)) }
{
    for (port, site) in pads {
        let site = site_text(alloc, fabric, *site)?;
        put_row(out, &[b"pad", side, port.bytes(), site.bytes()])?;
    }
    Ok(())
}

fn put_net(out: &mut Vec<u8>, alloc: Global, ins: &[(Name, Site)], net: NetId) -> Result<(), Memory>
    requires { NamesInput (length ins.now) net }
    ensures { OnOk result (out.new.items ≡ out.old.items ++ row_text (net_line ins.now net)) }
{
    match net {
        NetId::Zero => put_row(out, &[b"net", b"zero"]),
        NetId::One => put_row(out, &[b"net", b"one"]),
        NetId::In(place) => put_row(out, &[b"net", b"in", ins[place as usize].0.bytes()]),
        NetId::Cell(cell) => {
            let cell = cell_text(alloc, cell)?;
            put_row(out, &[b"net", b"cell", cell.bytes()])
        }
    }
}

fn wire_text(alloc: Global, fabric: &Fabric, wire: Wire) -> Result<Name, Memory>
    requires { wire.0 < wire_count fabric.now }
    ensures { IfOk result (λ name. name ≡ wire_text fabric.now wire) }
{
    fabric.wire_name(alloc, wire)
}

fn put_edges(
    out: &mut Vec<u8>,
    alloc: Global,
    fabric: &Fabric,
    edges: &[(Wire, Wire)],
) -> Result<(), Memory>
    requires { All (HasWires fabric.now) edges.now }
    ensures { OnOk result (out.new.items ≡ out.old.items ++ rows_text (map (edge_line fabric.now) edges.now)) }
{
    for (from, to) in edges {
        let from = wire_text(alloc, fabric, *from)?;
        let to = wire_text(alloc, fabric, *to)?;
        put_row(out, &[b"edge", from.bytes(), to.bytes()])?;
    }
    Ok(())
}

fn put_trees(
    out: &mut Vec<u8>,
    alloc: Global,
    fabric: &Fabric,
    ins: &[(Name, Site)],
    trees: &[Tree],
) -> Result<(), Memory>
    requires wires { All (λ tree. All (HasWires fabric.now) tree.edges) trees.now }
    requires nets { All (λ tree. NamesInput (length ins.now) tree.net) trees.now }
    ensures { OnOk result (out.new.items ≡ out.old.items ++ rows_text (flat_map (tree_lines fabric.now ins.now) trees.now)) }
{
    for tree in trees {
        put_net(out, alloc, ins, tree.net)?;
        put_edges(out, alloc, fabric, &tree.edges)?;
    }
    Ok(())
}

fn print(alloc: Global, fabric: &Fabric, implementation: &Implementation) -> Result<Vec<u8>, Memory>
    requires on_fabric { IsOnFabric fabric.now implementation.now }
    requires inputs { InputsAreLines implementation.now }
    ensures text { IfOk result (λ text. text.items ≡ implementation_text fabric.now implementation.now) }
{
    let mut out = Vec::new(alloc);
    put_headers(&mut out, &implementation.reset)?;
    put_cells(&mut out, alloc, fabric, &implementation.cells)?;
    put_pads(&mut out, alloc, fabric, b"in", &implementation.ins)?;
    put_pads(&mut out, alloc, fabric, b"out", &implementation.outs)?;
    put_trees(
        &mut out,
        alloc,
        fabric,
        &implementation.ins,
        &implementation.trees,
    )?;
    put_row(&mut out, &[b"end"])?;
    Ok(out)
}

/// The text of an implementation, in version 2 where it has a reset port, which its second line names, and else in version 1: its
/// cells, ports, nets and edges in their order, one blank between words, LF at the end of each line, and no comment. Where the
/// implementation has a spelling, this text spells it, and `read_impl` gives it back.
pub fn print_impl(
    alloc: Global,
    fabric: &Fabric,
    implementation: &Implementation,
) -> Result<Vec<u8>, Memory>
    requires on_fabric { IsOnFabric fabric.now implementation.now }
    requires inputs { InputsAreLines implementation.now }
    ensures text { IfOk result (λ text. text.items ≡ implementation_text fabric.now implementation.now) }
    ensures spells { IfOk result (λ text. HasSpelling fabric.now implementation.now → Spells fabric.now (rows_of text.items) implementation.now) }
    ensures says { IfOk result (λ text. HasSpelling fabric.now implementation.now → Says fabric.now (rows_of text.items) implementation.now) }
{
    fabric.is_well_made();
    print(alloc, fabric, implementation)
}
