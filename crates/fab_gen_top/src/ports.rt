//! The ports of the top module.

ghost use Rattle.std.specs.Prelude.{◌≡◌, ◌++◌, ◌∷◌, [], true, false, All, map, IfOk, OnOk};
ghost use Rattle.std.specs.List.{flat_map, enumerate_from};
ghost use Rattle.fab_meaning.specs.Ports.{scalar};
ghost use Rattle.fab_prim.specs.Ports.{top_inputs, top_outputs};
ghost use Rattle.fab_text_loads_laws.specs.fab_fabric_text_defs_Names.{pad_port_name};
ghost use Rattle.fab_text_loads_laws.specs.fab_fabric_text_defs_Top.{data_shape, data_port, pad_ports, tile_pads, top_ports};
ghost use Rattle.fab_text_loads_laws.specs.fab_fabric_text_defs_Places.{placed_tiles};
ghost use Rattle.fab_gen_top.specs.inner.Standing.{placed_of, IsPlaceOf};

use crate::mode::text_mode;
use crate::names::pad_port_name;
use crate::places::{Place, tile_of};
use fab_base::{Memory, Name};
use fab_fabric::Fabric;
use fab_gen_tile::scalar;
use fab_kinds::Kind;
use fab_model::{Bel, Mode};
use fab_syntax::{Port, Shape};
use std::alloc::Global;

/// The ports, where tiles stand at these places.
pub fn top_ports(alloc: Global, fabric: &Fabric, places: &[Place]) -> Result<Vec<Port>, Memory>
    requires places { map (placed_of fabric.now) places.now ≡ placed_tiles fabric.now }
    requires stand { All (IsPlaceOf fabric.now) places.now }
    ensures { IfOk result (λ ports. ports.items ≡ top_ports fabric.now) }
{
    let mut ports = Vec::new(alloc);
    ports.push(scalar(true, Name::of(alloc, b"CLK")?))?;
    ports.push(scalar(true, Name::of(alloc, b"UserCLK")?))?;
    ports.push(scalar(true, Name::of(alloc, b"WriteStrobe")?))?;
    ports.push(data_port(alloc, text_mode(fabric))?)?;
    push_pads(alloc, &mut ports, fabric, places)?;
    Ok(ports)
}

// The port of the words that are written.
fn data_port(alloc: Global, mode: Mode) -> Result<Port, Memory>
    ensures { IfOk result (λ port. port ≡ data_port mode) }
{
    let name = Name::of(alloc, b"WriteData")?;
    Ok(Port {
        input: true,
        shape: data_shape(mode),
        name,
    })
}

// A loader takes a word at each tick, and a chain a bit.
fn data_shape(mode: Mode) -> Shape
    ensures { result ≡ data_shape mode }
{
    match mode {
        Mode::Frames => Shape::Vector(32),
        Mode::Chain => Shape::Scalar,
    }
}

// Adds the ports of all pads.
#[tactic(auto, using(crate::proofs::Steps::seen_more))]
fn push_pads(
    alloc: Global,
    ports: &mut Vec<Port>,
    fabric: &Fabric,
    places: &[Place],
) -> Result<(), Memory>
    requires { All (IsPlaceOf fabric.now) places.now }
    ensures { OnOk result (ports.new.items ≡ ports.old.items ++ flat_map tile_pads (map (placed_of fabric.now) places.now)) }
{
    for place in places {
        push_tile_pads(alloc, ports, *place, tile_of(fabric, *place).bels())?;
    }
    Ok(())
}

// Adds those of the BELs of the tile at a place.
fn push_tile_pads(
    alloc: Global,
    ports: &mut Vec<Port>,
    place: Place,
    bels: &[Bel],
) -> Result<(), Memory>
    ensures { OnOk result (ports.new.items ≡ ports.old.items ++ flat_map (pad_ports place.x place.y) (enumerate_from 0 bels.now)) }
{
    for (number, bel) in bels.iter().enumerate() {
        push_bel_pads(alloc, ports, place, number, bel.kind)?;
    }
    Ok(())
}

// Adds those of a BEL: a pad has some.
fn push_bel_pads(
    alloc: Global,
    ports: &mut Vec<Port>,
    place: Place,
    bel: usize,
    kind: Kind,
) -> Result<(), Memory>
    ensures { OnOk result (ports.new.items ≡ ports.old.items
        ++ (map (λ port. scalar true (pad_port_name place.x place.y bel port)) (top_inputs kind)
        ++ map (λ port. scalar false (pad_port_name place.x place.y bel port)) (top_outputs kind))) }
{
    match kind {
        Kind::Io => {
            push_pad(alloc, ports, place, bel, true, b"O_top")?;
            push_pad(alloc, ports, place, bel, false, b"I_top")?;
            push_pad(alloc, ports, place, bel, false, b"T_top")
        }
        Kind::Lut4c | Kind::Mux8 => Ok(()),
    }
}

fn push_pad(
    alloc: Global,
    ports: &mut Vec<Port>,
    place: Place,
    bel: usize,
    input: bool,
    port: &[u8],
) -> Result<(), Memory>
    ensures { OnOk result (ports.new.items ≡ ports.old.items ++ scalar input (pad_port_name place.x place.y bel port.now) ∷ []) }
{
    let name = pad_port_name(alloc, place.x, place.y, bel, port)?;
    ports.push(scalar(input, name))?;
    Ok(())
}
