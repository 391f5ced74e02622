//! How many points and instances a text has, counted before any is made: each module once, from the counts of those before it.

ghost use Rattle.std.specs.Prelude.{◌≡◌, ◌+◌, ℕ, List, [], ◌∷◌, length, map, reverse, IfOk, OnOk};
ghost use Rattle.std.specs.Map.{lookup};
ghost use Rattle.std.specs.Str.{bytes_eq};
ghost use Rattle.fab_syntax.specs.Plain.{PlainModule, plain_item, plain_module, plain_text};
ghost use Rattle.fab_values.specs.Declarations.{bits_of, port_declaration};
ghost use Rattle.fab_equations.specs.Instances.{in_64_bits, instances, points};
ghost use Rattle.fab_equations.specs.Counting.{counted, count_or_none, count_of_items, count_of_module, AreCounts};

use fab_base::Memory;
use fab_syntax::{Item, Module, Port, Text};
use fab_values::bits_of_shape;
use indexmap::IndexMap;
use std::alloc::Global;

/// How many points and instances an instance of a module has, with all those inside it; at most 2^64 - 1 of each.
#[derive(Clone, Copy, Debug, Drop)]
pub struct Count {
    pub points: u64,
    pub instances: u64,
}

impl Count {
    // Both counts together.
    fn plus(self, more: Count) -> Count
        ensures { result ≡ counted (self.points + more.points) (self.instances + more.instances) }
    {
        Count {
            points: self.points.saturating_add(more.points),
            instances: self.instances.saturating_add(more.instances),
        }
    }
}

/// How many points and instances a text has; at most 2^64 - 1 of each.
pub fn top_count(alloc: Global, text: &Text) -> Result<Count, Memory>
    ensures { IfOk result (λ count. count ≡ counted (length (points (plain_text text.now))) (length (instances (plain_text text.now)))) }
{
    let modules: &[Module] = &text.modules;
    let counts = module_counts(alloc, modules)?;
    match modules.last() {
        Some(top) => Ok(count_in(&counts, top.name.bytes())),
        None => Ok(Count {
            points: 0,
            instances: 0,
        }),
    }
}

// The count of each module, by its name.
fn module_counts(alloc: Global, modules: &[Module]) -> Result<IndexMap<Vec<u8>, Count>, Memory>
    ensures { IfOk result (λ counts. AreCounts (reverse (map plain_module modules.now)) counts.entries) }
{
    let mut counts = IndexMap::new(alloc);
    for module in modules {
        count_module(alloc, &mut counts, module)?;
    }
    Ok(counts)
}

// Counts one more module.
pub fn count_module(
    alloc: Global,
    counts: &mut IndexMap<Vec<u8>, Count>,
    definition: &Module,
) -> Result<(), Memory>
    ensures { OnOk result ((before : List PlainModule) → AreCounts before counts.old.entries → AreCounts (plain_module definition.now ∷ before) counts.new.entries) }
{
    let count = module_count(definition, counts);
    let key = Vec::from_slice(alloc, definition.name.bytes())?;
    counts.insert(key, count)?;
    Ok(())
}

// The count of a module.
fn module_count(definition: &Module, counts: &IndexMap<Vec<u8>, Count>) -> Count
    ensures { (before : List PlainModule) → AreCounts before counts.now.entries → result ≡ count_of_module before (plain_module definition.now) }
{
    let mut count = Count {
        points: port_bits(&definition.ports),
        instances: 1,
    };
    for item in &definition.items {
        count = count.plus(item_count(item, counts));
    }
    count
}

// The bits of all ports.
fn port_bits(ports: &[Port]) -> u64
    ensures { result ≡ in_64_bits (bits_of (map port_declaration ports.now)) }
{
    let mut bits: u64 = 0;
    for port in ports {
        bits = bits.saturating_add(u64::from(bits_of_shape(port.shape)));
    }
    bits
}

// What an item adds to the count of its module.
fn item_count(item: &Item, counts: &IndexMap<Vec<u8>, Count>) -> Count
    ensures { (before : List PlainModule) → AreCounts before counts.now.entries → result ≡ count_of_items before (plain_item item.now ∷ []) }
{
    match item {
        Item::Wire(shape, _) | Item::Reg(shape, _) => Count {
            points: u64::from(bits_of_shape(*shape)),
            instances: 0,
        },
        Item::Instance(of, _, _) => count_in(counts, of.bytes()),
        Item::Assign(_, _) | Item::Latch(_, _, _) | Item::Clocked(_, _, _) => Count {
            points: 0,
            instances: 0,
        },
    }
}

// The count of a module by its name; nothing where no such module is counted.
pub fn count_in(counts: &IndexMap<Vec<u8>, Count>, name: &[u8]) -> Count
    ensures { result ≡ count_or_none (lookup (λ key. bytes_eq name.now key.items) counts.now.entries) }
{
    match counts.get(name) {
        Some(count) => *count,
        None => Count {
            points: 0,
            instances: 0,
        },
    }
}
