//! The module of a pad.

ghost use Rattle.std.specs.Prelude.{◌≡◌, map, IfOk};
ghost use Rattle.fab_syntax.specs.Plain.{plain_item};
ghost use Rattle.fab_kinds.specs.declared.kind.Kind.TheVariants as kinds;
ghost use Rattle.fab_prim.specs.Modules.{pad_items};

use crate::build::{named, push_assign, push_flip_flop, variable};
use crate::ports::module_ports;
use crate::prim::Prim;
use fab_base::{Memory, Name};
use fab_kinds::Kind;
use fab_syntax::{Expr, Item, Module, Shape};
use std::alloc::Global;

/// The primitive of a pad.
#[derive(Clone, Copy, Debug)]
pub struct IoPad;

impl Prim for IoPad {
    ghost kind_of = { λ pad. kinds.Io };

    fn kind(&self) -> Kind {
        Kind::Io
    }

    fn module(&self, alloc: Global) -> Result<Module, Memory> {
        let name = Name::of(alloc, b"IO_1_bidirectional_frame_config_pass")?;
        let ports = module_ports(alloc, Kind::Io)?;
        let items = items(alloc)?;
        Ok(Module { name, ports, items })
    }

    fn works(&self) {}
}

// The items, in the order in which they print.
fn items(alloc: Global) -> Result<Vec<Item>, Memory>
    ensures { IfOk result (λ items. map plain_item items.items ≡ pad_items) }
{
    let mut items = Vec::new(alloc);
    items.push(Item::Reg(Shape::Scalar, Name::of(alloc, b"q")?))?;
    push_flip_flop(alloc, &mut items, variable(alloc, b"O_top")?)?;
    push_assign(alloc, &mut items, b"O", variable(alloc, b"O_top")?)?;
    push_assign(alloc, &mut items, b"Q", variable(alloc, b"q")?)?;
    push_assign(alloc, &mut items, b"I_top", variable(alloc, b"I")?)?;
    let tristate = named(alloc, b"T")?;
    push_assign(alloc, &mut items, b"T_top", Expr::Not(tristate))?;
    Ok(items)
}
