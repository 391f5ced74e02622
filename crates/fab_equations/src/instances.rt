//! The instances of a text in their order, by the numbers of their modules.

ghost use Rattle.std.specs.Prelude.{◌≡◌, ◌++◌, ◌∷◌, List, length, map, reverse, IfOk, OnOk};
ghost use Rattle.fab_syntax.specs.Plain.{PlainModule, plain_item, plain_module};
ghost use Rattle.fab_equations.specs.Numbers.{AreNumbers, child_numbers, children_behind, item_number, lists, option_list};

use fab_base::Memory;
use fab_syntax::{Item, Module};
use indexmap::IndexMap;
use std::alloc::Global;

/// The modules of the instances in each module, by their numbers.
pub fn module_children(alloc: Global, modules: &[Module]) -> Result<Vec<Vec<u32>>, Memory>
    ensures { IfOk result (λ children. lists children.items ≡ children_behind (reverse (map plain_module modules.now))) }
{
    let mut numbers = IndexMap::new(alloc);
    let mut children = Vec::new(alloc);
    for definition in modules {
        let inside = children_of(alloc, definition, &numbers)?;
        note_number(alloc, &mut numbers, definition, children.len())?;
        children.push(inside)?;
    }
    Ok(children)
}

// Notes the number of one more module by its name.
pub fn note_number(
    alloc: Global,
    numbers: &mut IndexMap<Vec<u8>, u32>,
    definition: &Module,
    number: usize,
) -> Result<(), Memory>
    ensures { OnOk result ((before : List PlainModule) → number ≡ length before → AreNumbers before numbers.old.entries →
        AreNumbers (plain_module definition.now ∷ before) numbers.new.entries) }
{
    let Ok(number) = u32::try_from(number) else {
        return Err(Memory);
    };
    let key = Vec::from_slice(alloc, definition.name.bytes())?;
    numbers.insert(key, number)?;
    Ok(())
}

// The modules of the instances in a module.
fn children_of(
    alloc: Global,
    definition: &Module,
    numbers: &IndexMap<Vec<u8>, u32>,
) -> Result<Vec<u32>, Memory>
    ensures { IfOk result (λ children. (before : List PlainModule) → AreNumbers before numbers.now.entries →
        children.items ≡ child_numbers before (map plain_item definition.now.items.items)) }
{
    let mut children = Vec::new(alloc);
    for item in &definition.items {
        push_some(&mut children, child_number(item, numbers))?;
    }
    Ok(children)
}

// The module of an item that is an instance.
fn child_number(item: &Item, numbers: &IndexMap<Vec<u8>, u32>) -> Option<u32>
    ensures { (before : List PlainModule) → AreNumbers before numbers.now.entries → result ≡ item_number before (plain_item item.now) }
{
    match item {
        Item::Instance(of, _, _) => numbers.get(of.bytes()).copied(),
        Item::Wire(_, _)
        | Item::Reg(_, _)
        | Item::Assign(_, _)
        | Item::Latch(_, _, _)
        | Item::Clocked(_, _, _) => None,
    }
}

// Puts a number at the end, if there is one.
fn push_some(children: &mut Vec<u32>, number: Option<u32>) -> Result<(), Memory>
    ensures { OnOk result (children.new.items ≡ children.old.items ++ option_list number) }
{
    if let Some(number) = number {
        children.push(number)?;
    }
    Ok(())
}
