//! The rule on instances: each is of a module before its own, and its joins fit the ports.

ghost use Rattle.std.specs.Prelude.{◌≡◌, None, Some, true, false, map, take, IfOk, MatchOption};
ghost use Rattle.std.specs.List.{list_all};
ghost use Rattle.fab_syntax.specs.Plain.{plain_option, plain_join, plain_item};
ghost use Rattle.fab_syntax.specs.Declarations.{module_named};
ghost use Rattle.fab_syntax.specs.Sound.{InstancesFit};
ghost use Rattle.fab_sound.specs.inner.Checks.{found, found_width, count_at, known_module, library_text, HasNets, IsLibrary};
ghost use Rattle.fab_sound.specs.inner.Rules.{fits_port, fits_declared, join_passes, joins_pass, is_joined_once, instance_passes};

use crate::sizes::has_width;
use crate::tables::{Declared, Known, Library, bits_of, count_of, count_up, declaration, width_of};
use fab_base::{Memory, Name};
use fab_syntax::{Expr, Item, Join, Port};
use indexmap::IndexMap;
use std::alloc::Global;

/// Whether all instances fit.
pub fn instances_fit(alloc: Global, library: &Library) -> Result<bool, Memory>
    requires library_fits { IsLibrary library.now }
    ensures fits { IfOk result (λ fits. fits ≡ true → InstancesFit (library_text library.now)) }
    ensures broken { IfOk result (λ fits. fits ≡ false → ¬ InstancesFit (library_text library.now)) }
{
    for (number, known) in library.modules.iter().enumerate() {
        if !module_fits(alloc, library, number, known)? {
            return Ok(false);
        }
    }
    Ok(true)
}

fn module_fits(
    alloc: Global,
    library: &Library,
    number: usize,
    known: &Known,
) -> Result<bool, Memory>
    requires library_fits { IsLibrary library.now }
    requires nets { HasNets known.now.names (known_module known.now) }
    ensures { IfOk result (λ fits. fits
        ≡ list_all (instance_passes (take number (library_text library.now)) (known_module known.now)) (map plain_item known.now.«module».now.items.items)) }
{
    for item in &known.module.items {
        if !item_fits(alloc, library, number, known, item)? {
            return Ok(false);
        }
    }
    Ok(true)
}

fn item_fits(
    alloc: Global,
    library: &Library,
    number: usize,
    known: &Known,
    item: &Item,
) -> Result<bool, Memory>
    requires library_fits { IsLibrary library.now }
    requires nets { HasNets known.now.names (known_module known.now) }
    ensures { IfOk result (λ fits. fits ≡ instance_passes (take number (library_text library.now)) (known_module known.now) (plain_item item.now)) }
{
    match item {
        Item::Wire(_, _) => Ok(true),
        Item::Reg(_, _) => Ok(true),
        Item::Assign(_, _) => Ok(true),
        Item::Latch(_, _, _) => Ok(true),
        Item::Clocked(_, _, _) => Ok(true),
        Item::Instance(of, _, joins) => joins_fit(alloc, library, number, known, of, joins),
    }
}

fn joins_fit(
    alloc: Global,
    library: &Library,
    number: usize,
    known: &Known,
    of: &Name,
    joins: &[Join],
) -> Result<bool, Memory>
    requires library_fits { IsLibrary library.now }
    requires nets { HasNets known.now.names (known_module known.now) }
    ensures { IfOk result (λ fits. fits
        ≡ joins_pass (known_module known.now) (module_named (take number (library_text library.now)) of.now) (map plain_join joins.now)) }
{
    match module_before(library, number, of) {
        Some(below) => instance_fits(alloc, known, below, joins),
        None => Ok(false),
    }
}

/// The module of a name among the first ones, if there is one.
pub fn module_before<'l, 'a>(
    library: &'l Library<'a>,
    count: usize,
    name: &Name,
) -> Option<&'l Known<'a>>
    requires { IsLibrary library.now }
    ensures { MatchOption result (module_named (take count (library_text library.now)) name.now ≡ None)
        (λ known. (module_named (take count (library_text library.now)) name.now ≡ Some (known_module known.now))
        × HasNets known.now.names (known_module known.now)) }
{
    match number_of(&library.numbers, name) {
        Some(number) => {
            if number < count {
                library.modules.get(number)
            } else {
                None
            }
        }
        None => None,
    }
}

/// The number of a module by its name.
pub fn number_of(numbers: &IndexMap<&[u8], usize>, name: &Name) -> Option<usize>
    ensures { result ≡ found numbers.now name.now }
{
    numbers.get(name.bytes()).copied()
}

fn instance_fits(
    alloc: Global,
    known: &Known,
    below: &Known,
    joins: &[Join],
) -> Result<bool, Memory>
    requires nets { HasNets known.now.names (known_module known.now) }
    requires nets_below { HasNets below.now.names (known_module below.now) }
    ensures { IfOk result (λ fits. fits ≡ joins_pass (known_module known.now) (Some (known_module below.now)) (map plain_join joins.now)) }
{
    let mut counts = IndexMap::new(alloc);
    for join in joins {
        if !join_fits(alloc, known, below, join)? {
            return Ok(false);
        }
        count_up(&mut counts, &join.port)?;
    }
    Ok(ports_are_joined(&counts, &below.module.ports))
}

fn join_fits(alloc: Global, known: &Known, below: &Known, join: &Join) -> Result<bool, Memory>
    requires nets { HasNets known.now.names (known_module known.now) }
    requires nets_below { HasNets below.now.names (known_module below.now) }
    ensures { IfOk result (λ fits. fits ≡ join_passes (known_module known.now) (known_module below.now) (plain_join join.now)) }
{
    let declared = declaration(&below.names, &join.port);
    fits_declared(alloc, &known.names, declared, &join.to)
}

// Whether what is joined fits what a port is declared as, if that is a port.
fn fits_declared(
    alloc: Global,
    names: &IndexMap<&[u8], Declared>,
    declared: Option<Declared>,
    to: &Option<Expr>,
) -> Result<bool, Memory>
    ensures { IfOk result (λ fits. fits ≡ fits_declared (found_width names.now) declared (plain_option to.now)) }
{
    match declared {
        Some(Declared::Input(shape)) => fits_input(alloc, names, bits_of(shape), to),
        Some(Declared::Output(shape)) => Ok(fits_output(names, bits_of(shape), to)),
        Some(Declared::Inner(_)) => Ok(false),
        Some(Declared::Instance) => Ok(false),
        None => Ok(false),
    }
}

fn fits_input(
    alloc: Global,
    names: &IndexMap<&[u8], Declared>,
    width: u64,
    to: &Option<Expr>,
) -> Result<bool, Memory>
    ensures { IfOk result (λ fits. fits ≡ fits_port (found_width names.now) true width (plain_option to.now)) }
{
    match to {
        Some(value) => has_width(alloc, names, value, width),
        None => Ok(false),
    }
}

fn fits_output(names: &IndexMap<&[u8], Declared>, width: u64, to: &Option<Expr>) -> bool
    ensures { result ≡ fits_port (found_width names.now) false width (plain_option to.now) }
{
    match to {
        Some(Expr::Var(name)) => width_of(names, name) == width,
        Some(_) => false,
        None => true,
    }
}

fn ports_are_joined(counts: &IndexMap<&[u8], u64>, ports: &[Port]) -> bool
    ensures { result ≡ list_all (is_joined_once (count_at counts.now)) ports.now }
{
    for port in ports {
        if !port_is_joined(counts, port) {
            return false;
        }
    }
    true
}

// Whether an input is joined once, or an output at most once.
fn port_is_joined(counts: &IndexMap<&[u8], u64>, port: &Port) -> bool
    ensures { result ≡ is_joined_once (count_at counts.now) port.now }
{
    if port.input {
        count_of(counts, &port.name) == 1
    } else {
        count_of(counts, &port.name) <= 1
    }
}
