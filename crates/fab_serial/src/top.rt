//! The top that joins a serial port to the top of a fabric.

ghost use Rattle.std.specs.Prelude.{◌≡◌, ◌++◌, [], ◌∷◌, filter, map, IfOk, OnOk};
ghost use Rattle.fab_syntax.specs.Plain.{plain_item, plain_join, plain_module, wire, instance};
ghost use Rattle.fab_serial.specs.Module.{fabric_instance_name, is_pad, same_join, serial_items, serial_joins, serial_ports, serial_top};

use crate::module::push_port;
use fab_base::{Memory, Name};
use fab_prim::variable;
use fab_syntax::{Item, Join, Module, Port, Shape};
use std::alloc::Global;

/// The top with a serial port in front of this one. Its ports are the clocks, the inputs that carry bits, and the pads.
pub(crate) fn serial_top(alloc: Global, top: &Module) -> Result<Module, Memory>
    ensures { IfOk result (λ m. plain_module m ≡ serial_top (plain_module top.now)) }
{
    let name = Name::of(alloc, b"eFPGA_serial")?;
    let ports = serial_ports(alloc, &top.ports)?;
    let items = serial_items(alloc, top)?;
    Ok(Module { name, ports, items })
}

// ---- ports

fn is_pad(port: &Port) -> bool
    ensures { result ≡ is_pad port.now }
{
    let name = port.name.bytes();
    !(name == b"CLK".as_slice()
        || name == b"UserCLK".as_slice()
        || name == b"WriteStrobe".as_slice()
        || name == b"WriteData".as_slice())
}

// Adds the pads among some ports.
fn push_pads(alloc: Global, pads: &mut Vec<Port>, ports: &[Port]) -> Result<(), Memory>
    ensures { OnOk result (pads.new.items ≡ pads.old.items ++ filter is_pad ports.now) }
{
    for port in ports {
        if is_pad(port) {
            push_port(alloc, pads, port.input, port.shape, port.name.bytes())?;
        }
    }
    Ok(())
}

fn serial_ports(alloc: Global, ports: &[Port]) -> Result<Vec<Port>, Memory>
    ensures { IfOk result (λ all. all.items ≡ serial_ports ports.now) }
{
    let mut all = Vec::new(alloc);
    push_port(alloc, &mut all, true, Shape::Scalar, b"CLK")?;
    push_port(alloc, &mut all, true, Shape::Scalar, b"UserCLK")?;
    push_port(alloc, &mut all, true, Shape::Scalar, b"SerialStrobe")?;
    push_port(alloc, &mut all, true, Shape::Scalar, b"SerialData")?;
    push_pads(alloc, &mut all, ports)?;
    Ok(all)
}

// ---- items

// Adds the join of a port to what has its name.
fn push_join(alloc: Global, joins: &mut Vec<Join>, name: &[u8]) -> Result<(), Memory>
    ensures { OnOk result (map plain_join joins.new.items ≡ map plain_join joins.old.items ++ same_join name.now ∷ []) }
{
    let port = Name::of(alloc, name)?;
    let to = Some(variable(alloc, name)?);
    joins.push(Join { port, to })?;
    Ok(())
}

fn joins_of(alloc: Global, ports: &[Port]) -> Result<Vec<Join>, Memory>
    ensures { IfOk result (λ joins. map plain_join joins.items ≡ map (λ port. same_join port.name) ports.now) }
{
    let mut joins = Vec::with_capacity(alloc, ports.len())?;
    for port in ports {
        push_join(alloc, &mut joins, port.name.bytes())?;
    }
    Ok(joins)
}

fn serial_joins(alloc: Global) -> Result<Vec<Join>, Memory>
    ensures { IfOk result (λ joins. map plain_join joins.items ≡ serial_joins) }
{
    let mut joins = Vec::new(alloc);
    push_join(alloc, &mut joins, b"CLK")?;
    push_join(alloc, &mut joins, b"SerialStrobe")?;
    push_join(alloc, &mut joins, b"SerialData")?;
    push_join(alloc, &mut joins, b"WriteStrobe")?;
    push_join(alloc, &mut joins, b"WriteData")?;
    Ok(joins)
}

fn push_wire(alloc: Global, items: &mut Vec<Item>, shape: Shape, name: &[u8]) -> Result<(), Memory>
    ensures { OnOk result (map plain_item items.new.items ≡ map plain_item items.old.items ++ wire shape name.now ∷ []) }
{
    let name = Name::of(alloc, name)?;
    items.push(Item::Wire(shape, name))?;
    Ok(())
}

fn push_instance(
    alloc: Global,
    items: &mut Vec<Item>,
    of: &[u8],
    name: &[u8],
    joins: Vec<Join>,
) -> Result<(), Memory>
    ensures { OnOk result (map plain_item items.new.items ≡ map plain_item items.old.items ++ instance of.now name.now (map plain_join joins.items) ∷ []) }
{
    let of = Name::of(alloc, of)?;
    let name = Name::of(alloc, name)?;
    items.push(Item::Instance(of, name, joins))?;
    Ok(())
}

fn serial_items(alloc: Global, top: &Module) -> Result<Vec<Item>, Memory>
    ensures { IfOk result (λ items. map plain_item items.items ≡ serial_items (plain_module top.now)) }
{
    let mut items = Vec::new(alloc);
    push_wire(alloc, &mut items, Shape::Scalar, b"WriteStrobe")?;
    push_wire(alloc, &mut items, Shape::Vector(32), b"WriteData")?;
    let (port, fabric) = (serial_joins(alloc)?, joins_of(alloc, &top.ports)?);
    push_instance(alloc, &mut items, b"SerialPort", b"fab_serial", port)?;
    push_instance(alloc, &mut items, top.name.bytes(), b"fab_fabric", fabric)?;
    Ok(items)
}
