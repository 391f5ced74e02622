//! The rule on drivers: each net has one, of its kind.

ghost use Rattle.std.specs.Prelude.{◌≡◌, ◌+◌, ℕ, List, Some, None, [], ◌∷◌, map, true, false, IfOk, OnOk, MatchOption};
ghost use Rattle.std.specs.List.{list_all};
ghost use Rattle.fab_syntax.specs.Plain.{plain_item, plain_join};
ghost use Rattle.fab_syntax.specs.Declarations.{module_named, is_input_of, times_driven, times_driven_by, times_held, times_joined_out};
ghost use Rattle.fab_syntax.specs.Sound.{DriversFit};
ghost use Rattle.fab_sound.specs.inner.Checks.{found, count_at, known_module, library_text, HasNets, IsLibrary};
ghost use Rattle.fab_sound.specs.inner.Rules.{is_input_entry, join_drives, is_driven_once, port_is_driven, item_is_driven, module_is_driven};

use crate::instances::module_before;
use crate::tables::{Declared, Known, Library, count_of, count_up, declaration};
use fab_base::{Memory, Name};
use fab_syntax::{Expr, Item, Join, Port};
use indexmap::IndexMap;
use std::alloc::Global;

// How often names are driven, and how often of these by processes.
#[derive(Drop)]
struct Drives<'a> {
    driven: IndexMap<&'a [u8], u64>,
    held: IndexMap<&'a [u8], u64>,
}

/// Whether all nets have their drivers.
pub fn drivers_fit(alloc: Global, library: &Library) -> Result<bool, Memory>
    requires library_fits { IsLibrary library.now }
    ensures fits { IfOk result (λ fits. fits ≡ true → DriversFit (library_text library.now)) }
    ensures broken { IfOk result (λ fits. fits ≡ false → ¬ DriversFit (library_text library.now)) }
{
    for known in &library.modules {
        if !module_is_driven(alloc, library, known)? {
            return Ok(false);
        }
    }
    Ok(true)
}

fn module_is_driven(alloc: Global, library: &Library, known: &Known) -> Result<bool, Memory>
    requires { IsLibrary library.now }
    ensures { IfOk result (λ fits. fits ≡ module_is_driven (library_text library.now) (known_module known.now)) }
{
    let drives = drives_of(alloc, library, &known.module.items)?;
    Ok(
        ports_are_driven(&drives, &known.module.ports)
            && items_are_driven(&drives, &known.module.items),
    )
}

fn drives_of<'a>(alloc: Global, library: &Library, items: &'a [Item]) -> Result<Drives<'a>, Memory>
    requires { IsLibrary library.now }
    ensures driven { IfOk result (λ drives. (other : List ℕ) →
        count_at drives.driven other ≡ times_driven (library_text library.now) (map plain_item items.now) other) }
    ensures held { IfOk result (λ drives. (other : List ℕ) → count_at drives.held other ≡ times_held (map plain_item items.now) other) }
{
    let mut driven = IndexMap::new(alloc);
    let mut held = IndexMap::new(alloc);
    for item in items {
        count_drives(&mut driven, library, item)?;
        count_holds(&mut held, item)?;
    }
    Ok(Drives { driven, held })
}

// Counts what an item drives.
fn count_drives<'a>(
    driven: &mut IndexMap<&'a [u8], u64>,
    library: &Library,
    item: &'a Item,
) -> Result<(), Memory>
    requires { IsLibrary library.now }
    ensures { OnOk result ((other : List ℕ) →
        count_at driven.new other ≡ times_driven_by (library_text library.now) (plain_item item.now) other + count_at driven.old other) }
{
    match item {
        Item::Wire(_, _) => Ok(()),
        Item::Reg(_, _) => Ok(()),
        Item::Assign(target, _) => count_up(driven, target),
        Item::Latch(target, _, _) => count_up(driven, target),
        Item::Clocked(_, target, _) => count_up(driven, target),
        Item::Instance(of, _, joins) => count_joins(driven, library, of, joins),
    }
}

// Counts what an item drives by a process.
fn count_holds<'a>(held: &mut IndexMap<&'a [u8], u64>, item: &'a Item) -> Result<(), Memory>
    ensures { OnOk result ((other : List ℕ) → count_at held.new other ≡ times_held (plain_item item.now ∷ []) other + count_at held.old other) }
{
    match item {
        Item::Latch(target, _, _) => count_up(held, target),
        Item::Clocked(_, target, _) => count_up(held, target),
        _ => Ok(()),
    }
}

fn count_joins<'a>(
    driven: &mut IndexMap<&'a [u8], u64>,
    library: &Library,
    of: &Name,
    joins: &'a [Join],
) -> Result<(), Memory>
    requires { IsLibrary library.now }
    ensures { OnOk result ((other : List ℕ) → count_at driven.new other
        ≡ times_joined_out (module_named (library_text library.now) of.now) (map plain_join joins.now) other + count_at driven.old other) }
{
    for join in joins {
        match driven_by(library, of, join) {
            Some(name) => count_up(driven, name)?,
            None => {}
        }
    }
    Ok(())
}

// The name that a join drives, if it drives one.
fn driven_by<'a>(library: &Library, of: &Name, join: &'a Join) -> Option<&'a Name>
    requires { IsLibrary library.now }
    ensures { MatchOption result (join_drives (module_named (library_text library.now) of.now) (plain_join join.now) ≡ None)
        (λ name. join_drives (module_named (library_text library.now) of.now) (plain_join join.now) ≡ Some name.now) }
{
    if is_input_of(library, of, &join.port) {
        return None;
    }
    match &join.to {
        Some(Expr::Var(name)) => Some(name),
        _ => None,
    }
}

// Whether a module of the name has such an input.
fn is_input_of(library: &Library, of: &Name, port: &Name) -> bool
    requires { IsLibrary library.now }
    ensures { result ≡ is_input_of (module_named (library_text library.now) of.now) port.now }
{
    match module_before(library, library.modules.len(), of) {
        Some(below) => is_input(&below.names, port),
        None => false,
    }
}

fn is_input(names: &IndexMap<&[u8], Declared>, name: &Name) -> bool
    ensures { result ≡ is_input_entry (found names.now name.now) }
{
    match declaration(names, name) {
        Some(Declared::Input(_)) => true,
        _ => false,
    }
}

fn ports_are_driven(drives: &Drives, ports: &[Port]) -> bool
    ensures { result ≡ list_all (port_is_driven (count_at drives.now.driven) (count_at drives.now.held)) ports.now }
{
    for port in ports {
        if !port_is_driven(drives, port) {
            return false;
        }
    }
    true
}

fn port_is_driven(drives: &Drives, port: &Port) -> bool
    ensures { result ≡ port_is_driven (count_at drives.now.driven) (count_at drives.now.held) port.now }
{
    if port.input {
        count_of(&drives.driven, &port.name) == 0
    } else {
        is_driven(drives, &port.name, 0)
    }
}

fn items_are_driven(drives: &Drives, items: &[Item]) -> bool
    ensures { result ≡ list_all (item_is_driven (count_at drives.now.driven) (count_at drives.now.held)) (map plain_item items.now) }
{
    for item in items {
        if !item_is_driven(drives, item) {
            return false;
        }
    }
    true
}

fn item_is_driven(drives: &Drives, item: &Item) -> bool
    ensures { result ≡ item_is_driven (count_at drives.now.driven) (count_at drives.now.held) (plain_item item.now) }
{
    match item {
        Item::Wire(_, name) => is_driven(drives, name, 0),
        Item::Reg(_, name) => is_driven(drives, name, 1),
        Item::Assign(_, _) => true,
        Item::Latch(_, _, _) => true,
        Item::Clocked(_, _, _) => true,
        Item::Instance(_, _, _) => true,
    }
}

// Whether a name is driven once, and so often by a process.
fn is_driven(drives: &Drives, name: &Name, held: u64) -> bool
    ensures { result ≡ is_driven_once (count_at drives.now.driven) (count_at drives.now.held) name.now held }
{
    count_of(&drives.driven, name) == 1 && count_of(&drives.held, name) == held
}
