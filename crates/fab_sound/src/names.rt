//! The rule on names: each is declared once, and before its use.

ghost use Rattle.std.specs.Prelude.{◌≡◌, ◌&&◌, List, [], true, map, None, IfOk, MatchOption, MatchResult};
ghost use Rattle.std.specs.List.{flat_map, list_all};
ghost use Rattle.fab_base.specs.declared.words.Reason.TheVariants.{NameTwice, UnknownName};
ghost use Rattle.fab_syntax.specs.Plain.{plain_expr, plain_item, plain_module};
ghost use Rattle.fab_syntax.specs.Sound.{Mention, net, own_names, item_expressions, item_mentions, mentions_in, refusals, text_refusals};
ghost use Rattle.fab_sound.specs.inner.Checks.{has_net, expression_names, item_targets, item_declares, IsNew, TakesDeclaration, Notes, Advances, StartsWith, TakesNets, HasNets, library_text, IsLibrary};

use crate::expressions::{expressions, subexpressions};
use crate::tables::{Declared, Known, Library, declare, enter, port_declaration, shape_of};
use fab_base::{Memory, Name, Reason};
use fab_syntax::{Expr, Item, Module, Port};
use indexmap::IndexMap;
use std::alloc::Global;

/// The modules by their names, or the reason of the first name that is refused.
pub fn name_modules(
    alloc: Global,
    modules: &[Module],
) -> Result<Result<Library<'_>, Reason>, Memory>
    ensures names { IfOk result (λ named. MatchResult named
        (λ library. text_refusals [] (map plain_module modules.now) ≡ [])
        (λ reason. StartsWith (text_refusals [] (map plain_module modules.now)) reason)) }
    ensures text { IfOk result (λ named. IfOk named (λ library. library_text library ≡ map plain_module modules.now)) }
    ensures library { IfOk result (λ named. IfOk named (λ library. IsLibrary library)) }
{
    let mut numbers = IndexMap::new(alloc);
    let mut known = Vec::new(alloc);
    for module in modules {
        if !enter(&mut numbers, &module.name, known.len())? {
            return Ok(Err(Reason::NameTwice));
        }
        match name_module(alloc, module)? {
            Ok(names) => known.push(Known { module, names })?,
            Err(reason) => return Ok(Err(reason)),
        }
    }
    Ok(Ok(Library {
        numbers,
        modules: known,
    }))
}

// What a module declares, or the reason of the first name that is refused.
fn name_module(
    alloc: Global,
    module: &Module,
) -> Result<Result<IndexMap<&[u8], Declared>, Reason>, Memory>
    ensures names { IfOk result (λ named. MatchResult named
        (λ names. refusals [] (mentions_in (plain_module «module».now)) ≡ [])
        (λ reason. StartsWith (refusals [] (mentions_in (plain_module «module».now))) reason)) }
    ensures nets { IfOk result (λ named. IfOk named (λ names. HasNets names (plain_module «module».now))) }
{
    let mut names = IndexMap::new(alloc);
    if !name_ports(&mut names, &module.ports)? {
        return Ok(Err(Reason::NameTwice));
    }
    match name_items(alloc, &mut names, &module.items)? {
        Some(reason) => Ok(Err(reason)),
        None => Ok(Ok(names)),
    }
}

// The reason of the first name in items that is refused.
fn name_items<'a>(
    alloc: Global,
    names: &mut IndexMap<&'a [u8], Declared>,
    items: &'a [Item],
) -> Result<Option<Reason>, Memory>
    ensures names { (before : List Mention) → Notes names.old before → IfOk result (λ found. MatchOption found
        (refusals before (flat_map item_mentions (map plain_item items.now)) ≡ [])
        (λ reason. StartsWith (refusals before (flat_map item_mentions (map plain_item items.now))) reason)) }
    ensures nets { IfOk result (λ found. found ≡ None → TakesNets names.old names.new [] (map plain_item items.now)) }
{
    for item in items {
        if !name_item(names, item)? {
            return Ok(Some(Reason::NameTwice));
        }
        if !uses_nets(alloc, names, item)? {
            return Ok(Some(Reason::UnknownName));
        }
    }
    Ok(None)
}

// Takes in the names of ports, as far as they are new.
fn name_ports<'a>(
    names: &mut IndexMap<&'a [u8], Declared>,
    ports: &'a [Port],
) -> Result<bool, Memory>
    ensures names { (before : List Mention) → Notes names.old before →
        IfOk result (λ fits. Advances NameTwice before (map (λ port. net port.name) ports.now) fits names.new) }
    ensures nets { IfOk result (λ fits. fits ≡ true → TakesNets names.old names.new ports.now []) }
{
    for port in ports {
        if !declare(names, &port.name, port_declaration(port))? {
            return Ok(false);
        }
    }
    Ok(true)
}

// Takes in what an item declares, if that is new.
fn name_item<'a>(names: &mut IndexMap<&'a [u8], Declared>, item: &'a Item) -> Result<bool, Memory>
    ensures new { IfOk result (λ fits. fits ≡ IsNew names.old (item_declares (plain_item item.now))) }
    ensures takes { IfOk result (λ fits. fits ≡ true → TakesDeclaration names.old names.new (item_declares (plain_item item.now))) }
{
    match item {
        Item::Wire(shape, name) => declare(names, name, Declared::Inner(*shape)),
        Item::Reg(shape, name) => declare(names, name, Declared::Inner(*shape)),
        Item::Assign(_, _) => Ok(true),
        Item::Latch(_, _, _) => Ok(true),
        Item::Clocked(_, _, _) => Ok(true),
        Item::Instance(_, name, _) => declare(names, name, Declared::Instance),
    }
}

// Whether all names that an item uses are those of nets.
fn uses_nets(alloc: Global, names: &IndexMap<&[u8], Declared>, item: &Item) -> Result<bool, Memory>
    ensures { IfOk result (λ fits. fits ≡ (list_all (has_net names.now) (item_targets (plain_item item.now))
        && list_all (has_net names.now) (flat_map expression_names (item_expressions (plain_item item.now))))) }
{
    if !targets_are_nets(names, item) {
        return Ok(false);
    }
    let values = expressions(alloc, item)?;
    for value in &values {
        if !names_are_nets(alloc, names, value)? {
            return Ok(false);
        }
    }
    Ok(true)
}

// The names that stand alone: targets, and clocks.
fn targets_are_nets(names: &IndexMap<&[u8], Declared>, item: &Item) -> bool
    ensures { result ≡ list_all (has_net names.now) (item_targets (plain_item item.now)) }
{
    match item {
        Item::Wire(_, _) => true,
        Item::Reg(_, _) => true,
        Item::Assign(target, _) => is_net(names, target),
        Item::Latch(target, _, _) => is_net(names, target),
        Item::Clocked(clock, target, _) => is_net(names, clock) && is_net(names, target),
        Item::Instance(_, _, _) => true,
    }
}

fn names_are_nets(
    alloc: Global,
    names: &IndexMap<&[u8], Declared>,
    whole: &Expr,
) -> Result<bool, Memory>
    ensures { IfOk result (λ fits. fits ≡ list_all (has_net names.now) (expression_names (plain_expr whole.now))) }
{
    if let Expr::Var(name) = whole {
        return Ok(is_net(names, name));
    }
    let parts = subexpressions(alloc, whole)?;
    for part in &parts {
        if !own_name_is_net(names, part) {
            return Ok(false);
        }
    }
    Ok(true)
}

fn own_name_is_net(names: &IndexMap<&[u8], Declared>, part: &Expr) -> bool
    ensures { result ≡ list_all (has_net names.now) (own_names (plain_expr part.now)) }
{
    match part {
        Expr::Const(_) => true,
        Expr::Var(name) => is_net(names, name),
        Expr::Pick(name, _) => is_net(names, name),
        Expr::Part(name, _, _) => is_net(names, name),
        Expr::Cat(_) => true,
        Expr::Not(_) => true,
        Expr::Two(_, _, _) => true,
        Expr::Cond(_, _, _) => true,
    }
}

fn is_net(names: &IndexMap<&[u8], Declared>, name: &Name) -> bool
    ensures { result ≡ has_net names.now name.now }
{
    shape_of(names, name).is_some()
}
