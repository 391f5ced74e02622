//! The ports of a primitive's module.

ghost use Rattle.std.specs.Prelude.{◌≡◌, ◌++◌, ◌≤◌, ◌+◌, [], ◌∷◌, true, false, map, IfOk, OnOk, slice_range};
ghost use Rattle.fab_kinds.specs.Pins.{input_count, output_count, pin_names};
ghost use Rattle.fab_meaning.specs.Ports.{scalar, config_port};
ghost use Rattle.fab_prim.specs.Ports.{clock_names, top_inputs, top_outputs, module_ports};

use fab_base::{Memory, Name};
use fab_kinds::Kind;
use fab_syntax::{Port, Shape};
use std::alloc::Global;

/// The ports of the module of a kind.
pub fn module_ports(alloc: Global, kind: Kind) -> Result<Vec<Port>, Memory>
    ensures { IfOk result (λ ports. ports.items ≡ module_ports kind) }
{
    let mut ports = Vec::new(alloc);
    let inputs = kind.inputs();
    let pins = inputs + kind.outputs();
    push_pins(alloc, &mut ports, kind, true, 0, inputs)?;
    push_clock(alloc, &mut ports, kind)?;
    push_config(alloc, &mut ports, kind.bits())?;
    push_top_inputs(alloc, &mut ports, kind)?;
    push_pins(alloc, &mut ports, kind, false, inputs, pins)?;
    push_top_outputs(alloc, &mut ports, kind)?;
    Ok(ports)
}

// Adds a port of one bit for each pin of a range.
fn push_pins(
    alloc: Global,
    ports: &mut Vec<Port>,
    kind: Kind,
    input: bool,
    from: u32,
    to: u32,
) -> Result<(), Memory>
    requires range { from ≤ to }
    requires known { to ≤ input_count kind + output_count kind }
    ensures { OnOk result (ports.new.items ≡ ports.old.items ++ map (scalar input) (slice_range (pin_names kind) from to)) }
{
    for pin in from..to {
        push_scalar(alloc, ports, input, kind.pin_name(pin).as_bytes())?;
    }
    Ok(())
}

// Adds a port of one bit.
fn push_scalar(alloc: Global, ports: &mut Vec<Port>, input: bool, name: &[u8]) -> Result<(), Memory>
    ensures { OnOk result (ports.new.items ≡ ports.old.items ++ scalar input name.now ∷ []) }
{
    let name = Name::of(alloc, name)?;
    ports.push(Port {
        input,
        shape: Shape::Scalar,
        name,
    })?;
    Ok(())
}

// Adds the clock, where there is a flip-flop.
fn push_clock(alloc: Global, ports: &mut Vec<Port>, kind: Kind) -> Result<(), Memory>
    ensures { OnOk result (ports.new.items ≡ ports.old.items ++ map (scalar true) (clock_names kind)) }
{
    if kind.has_flip_flop() {
        push_scalar(alloc, ports, true, b"UserCLK")?;
    }
    Ok(())
}

// Adds the port of the configuration bits, where there are any.
fn push_config(alloc: Global, ports: &mut Vec<Port>, bits: u32) -> Result<(), Memory>
    ensures { OnOk result (ports.new.items ≡ ports.old.items ++ config_port bits) }
{
    if bits == 0 {
        return Ok(());
    }
    let name = Name::of(alloc, b"ConfigBits")?;
    ports.push(Port {
        input: true,
        shape: Shape::Vector(bits),
        name,
    })?;
    Ok(())
}

// Adds what a pad gets from the outside.
fn push_top_inputs(alloc: Global, ports: &mut Vec<Port>, kind: Kind) -> Result<(), Memory>
    ensures { OnOk result (ports.new.items ≡ ports.old.items ++ map (scalar true) (top_inputs kind)) }
{
    match kind {
        Kind::Io => push_scalar(alloc, ports, true, b"O_top"),
        Kind::Lut4c | Kind::Mux8 => Ok(()),
    }
}

// Adds what a pad gives to the outside.
fn push_top_outputs(alloc: Global, ports: &mut Vec<Port>, kind: Kind) -> Result<(), Memory>
    ensures { OnOk result (ports.new.items ≡ ports.old.items ++ map (scalar false) (top_outputs kind)) }
{
    match kind {
        Kind::Io => {
            push_scalar(alloc, ports, false, b"I_top")?;
            push_scalar(alloc, ports, false, b"T_top")
        }
        Kind::Lut4c | Kind::Mux8 => Ok(()),
    }
}
