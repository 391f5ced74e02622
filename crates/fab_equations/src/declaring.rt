//! The declared names of a module.

ghost use Rattle.std.specs.Prelude.{◌≡◌, ◌++◌, [], ◌∷◌, map, IfOk, OnOk, None};
ghost use Rattle.fab_syntax.specs.Plain.{plain_item, plain_module};
ghost use Rattle.fab_values.specs.Declarations.{bits_of, declarations, found_in, item_declarations, port_declaration};
ghost use Rattle.fab_equations.specs.Tables.{firsts_of};
ghost use Rattle.fab_equations.specs.inner.Building.{DeclaresOnce};

use fab_base::{Memory, Name};
use fab_syntax::{Item, Module, Port, Shape};
use fab_values::{Names, Role};
use std::alloc::Global;

/// Declared names, and where the bits of each begin.
#[derive(Drop)]
pub struct Declared {
    pub names: Names,
    pub firsts: Vec<u32>,
}

impl Declared {
    // One more declaration.
    fn declare(
        &mut self,
        alloc: Global,
        name: &Name,
        shape: Shape,
        role: Role,
    ) -> Result<(), Memory>
        requires { found_in self.old.names name.now ≡ None }
        ensures names { OnOk result (self.new.names ≡ self.old.names ++ record { name = name.now; shape = shape; role = role } ∷ []) }
        ensures firsts { OnOk result (self.new.firsts.items ≡ self.old.firsts.items ++ bits_of self.old.names ∷ []) }
    {
        let first = self.names.bits();
        self.names.declare(alloc, name, shape, role)?;
        self.firsts.push(first)?;
        Ok(())
    }
}

// The declared names of a module.
pub fn declared_names(alloc: Global, definition: &Module) -> Result<Declared, Memory>
    requires { DeclaresOnce (declarations (plain_module definition.now)) }
    ensures names { IfOk result (λ declared. declared.names ≡ declarations (plain_module definition.now)) }
    ensures firsts { IfOk result (λ declared. declared.firsts.items ≡ firsts_of declared.names) }
{
    let mut declared = Declared {
        names: Names::new(alloc),
        firsts: Vec::new(alloc),
    };
    declare_ports(alloc, &mut declared, &definition.ports)?;
    declare_items(alloc, &mut declared, &definition.items)?;
    Ok(declared)
}

// Declares ports.
fn declare_ports(alloc: Global, declared: &mut Declared, ports: &[Port]) -> Result<(), Memory>
    requires { DeclaresOnce (declared.old.names ++ map port_declaration ports.now) }
    ensures names { OnOk result (declared.new.names ≡ declared.old.names ++ map port_declaration ports.now) }
    ensures firsts { OnOk result (declared.old.firsts.items ≡ firsts_of declared.old.names → declared.new.firsts.items ≡ firsts_of declared.new.names) }
{
    for port in ports {
        let role = role_of_port(port);
        declared.declare(alloc, &port.name, port.shape, role)?;
    }
    Ok(())
}

// The role of a port.
fn role_of_port(port: &Port) -> Role
    ensures { result ≡ (port_declaration port.now).role }
{
    if port.input {
        Role::Input
    } else {
        Role::Output
    }
}

// Declares the wires and registers among items.
fn declare_items(alloc: Global, declared: &mut Declared, items: &[Item]) -> Result<(), Memory>
    requires { DeclaresOnce (declared.old.names ++ item_declarations (map plain_item items.now)) }
    ensures names { OnOk result (declared.new.names ≡ declared.old.names ++ item_declarations (map plain_item items.now)) }
    ensures firsts { OnOk result (declared.old.firsts.items ≡ firsts_of declared.old.names → declared.new.firsts.items ≡ firsts_of declared.new.names) }
{
    for item in items {
        declare_item(alloc, declared, item)?;
    }
    Ok(())
}

// Declares what an item declares, if it does.
fn declare_item(alloc: Global, declared: &mut Declared, item: &Item) -> Result<(), Memory>
    requires { DeclaresOnce (declared.old.names ++ item_declarations (plain_item item.now ∷ [])) }
    ensures names { OnOk result (declared.new.names ≡ declared.old.names ++ item_declarations (plain_item item.now ∷ [])) }
    ensures firsts { OnOk result (declared.old.firsts.items ≡ firsts_of declared.old.names → declared.new.firsts.items ≡ firsts_of declared.new.names) }
{
    match item {
        Item::Wire(shape, name) => declared.declare(alloc, name, *shape, Role::Wire),
        Item::Reg(shape, name) => declared.declare(alloc, name, *shape, Role::Reg),
        Item::Assign(_, _)
        | Item::Latch(_, _, _)
        | Item::Clocked(_, _, _)
        | Item::Instance(_, _, _) => Ok(()),
    }
}
