//! The rule on clocks: they are inputs, and so are the names that lead to them.

ghost use Rattle.std.specs.Prelude.{◌≡◌, ◌||◌, List, ℕ, true, false, map, is_some, IfOk, IfSome, MatchOption};
ghost use Rattle.std.specs.List.{list_all, list_any};
ghost use Rattle.std.specs.Str.{bytes_eq};
ghost use Rattle.fab_syntax.specs.Plain.{plain_item, plain_join};
ghost use Rattle.fab_syntax.specs.Sound.{InstancesFit, ClocksFit};
ghost use Rattle.fab_sound.specs.inner.Checks.{found, is_scalar_entry, known_module, library_text, IsLibrary};
ghost use Rattle.fab_sound.specs.inner.Rules.{is_counted, serves_in, join_serves, item_serves, join_clocks, item_clocks};

use crate::instances::number_of;
use crate::tables::{Declared, Known, Library, count_of, count_up, is_scalar_input};
use fab_base::{Memory, Name};
use fab_syntax::{Expr, Item, Join};
use indexmap::IndexMap;
use std::alloc::Global;

/// Whether all clocks are scalar inputs, where instances fit.
pub fn clocks_fit(alloc: Global, library: &Library) -> Result<bool, Memory>
    requires library_fits { IsLibrary library.now }
    requires instances { InstancesFit (library_text library.now) }
    ensures fits { IfOk result (λ fits. fits ≡ true → ClocksFit (library_text library.now)) }
    ensures broken { IfOk result (λ fits. fits ≡ false → ¬ ClocksFit (library_text library.now)) }
{
    let mut serving = Vec::new(alloc);
    for known in &library.modules {
        match clocks_of(alloc, library, &serving, known)? {
            Some(clocks) => serving.push(clocks)?,
            None => return Ok(false),
        }
    }
    Ok(true)
}

// The names that serve as clocks in a module, by those of the modules before; none where one of them is no scalar input.
fn clocks_of<'a>(
    alloc: Global,
    library: &Library,
    serving: &[IndexMap<&'a [u8], u64>],
    known: &Known<'a>,
) -> Result<Option<IndexMap<&'a [u8], u64>>, Memory>
    ensures fits { IfOk result (λ clocks. is_some clocks
        ≡ list_all (item_clocks (λ name. is_scalar_entry (found known.now.names name)) (serves_in library.now serving.now)) (known_module known.now).items) }
    ensures serve { IfOk result (λ clocks. IfSome clocks (λ counts. (name : List ℕ) →
        is_counted counts name ≡ list_any (item_serves (serves_in library.now serving.now) name) (known_module known.now).items)) }
{
    let mut clocks = IndexMap::new(alloc);
    for item in &known.module.items {
        if !take_item(&mut clocks, &known.names, library, serving, item)? {
            return Ok(None);
        }
    }
    Ok(Some(clocks))
}

// Takes in the names that an item makes clocks, and says whether they are scalar inputs.
fn take_item<'a>(
    clocks: &mut IndexMap<&'a [u8], u64>,
    names: &IndexMap<&'a [u8], Declared>,
    library: &Library,
    serving: &[IndexMap<&'a [u8], u64>],
    item: &'a Item,
) -> Result<bool, Memory>
    ensures fits { IfOk result (λ fits. fits
        ≡ item_clocks (λ name. is_scalar_entry (found names.now name)) (serves_in library.now serving.now) (plain_item item.now)) }
    ensures serve { IfOk result (λ fits. fits ≡ true → (name : List ℕ) →
        is_counted clocks.new name ≡ (item_serves (serves_in library.now serving.now) name (plain_item item.now) || is_counted clocks.old name)) }
{
    match item {
        Item::Wire(_, _) => Ok(true),
        Item::Reg(_, _) => Ok(true),
        Item::Assign(_, _) => Ok(true),
        Item::Latch(_, _, _) => Ok(true),
        Item::Clocked(clock, _, _) => take_clock(clocks, names, clock),
        Item::Instance(of, _, joins) => match serving_in(library, serving, of) {
            Some(below) => take_joins(clocks, names, below, joins),
            None => Ok(true),
        },
    }
}

fn take_clock<'a>(
    clocks: &mut IndexMap<&'a [u8], u64>,
    names: &IndexMap<&'a [u8], Declared>,
    clock: &'a Name,
) -> Result<bool, Memory>
    ensures fits { IfOk result (λ fits. fits ≡ is_scalar_entry (found names.now clock.now)) }
    ensures serve { IfOk result (λ fits. fits ≡ true → (name : List ℕ) → is_counted clocks.new name ≡ (bytes_eq clock.now name || is_counted clocks.old name)) }
{
    if !is_scalar_input(names, clock) {
        return Ok(false);
    }
    count_up(clocks, clock)?;
    Ok(true)
}

// The names that serve as clocks in the module of a name, if that stands before.
fn serving_in<'s, 'a>(
    library: &Library,
    serving: &'s [IndexMap<&'a [u8], u64>],
    of: &Name,
) -> Option<&'s IndexMap<&'a [u8], u64>>
    ensures { MatchOption result ((port : List ℕ) → serves_in library.now serving.now of.now port ≡ false)
        (λ counts. (port : List ℕ) → serves_in library.now serving.now of.now port ≡ is_counted counts.now port) }
{
    match number_of(&library.numbers, of) {
        Some(number) => serving.get(number),
        None => None,
    }
}

fn take_joins<'a>(
    clocks: &mut IndexMap<&'a [u8], u64>,
    names: &IndexMap<&'a [u8], Declared>,
    below: &IndexMap<&'a [u8], u64>,
    joins: &'a [Join],
) -> Result<bool, Memory>
    ensures fits { IfOk result (λ fits. fits ≡ list_all
        (join_clocks (λ name. is_scalar_entry (found names.now name)) (is_counted below.now)) (map plain_join joins.now)) }
    ensures serve { IfOk result (λ fits. fits ≡ true → (name : List ℕ) → is_counted clocks.new name
        ≡ (list_any (join_serves (is_counted below.now) name) (map plain_join joins.now) || is_counted clocks.old name)) }
{
    for join in joins {
        if !take_join(clocks, names, below, join)? {
            return Ok(false);
        }
    }
    Ok(true)
}

fn take_join<'a>(
    clocks: &mut IndexMap<&'a [u8], u64>,
    names: &IndexMap<&'a [u8], Declared>,
    below: &IndexMap<&'a [u8], u64>,
    join: &'a Join,
) -> Result<bool, Memory>
    ensures fits { IfOk result (λ fits. fits ≡ join_clocks
        (λ name. is_scalar_entry (found names.now name)) (is_counted below.now) (plain_join join.now)) }
    ensures serve { IfOk result (λ fits. fits ≡ true → (name : List ℕ) → is_counted clocks.new name
        ≡ (join_serves (is_counted below.now) name (plain_join join.now) || is_counted clocks.old name)) }
{
    if count_of(below, &join.port) == 0 {
        return Ok(true);
    }
    match &join.to {
        Some(Expr::Var(name)) => take_clock(clocks, names, name),
        _ => Ok(false),
    }
}
