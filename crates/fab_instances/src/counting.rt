//! How many instances a flattened text has. They are counted before any is made.

ghost use Rattle.std.specs.Prelude.{◌≡◌, ◌<◌, ℕ, true, IfOk, length, map, slice_index};
ghost use Rattle.std.specs.List.{sum_by};
ghost use Rattle.fab_blif_models.specs.Plain.{plain_models, plain_statement};
ghost use Rattle.fab_instances.specs.Counting.{in_64_bits, instances, instances_at};
ghost use Rattle.fab_instances.specs.Places.{model_names, statements_of};
ghost use Rattle.fab_instances.specs.Uses.{IsMarked, MarksUsed};
ghost use Rattle.fab_bits.specs.Keys.{key_names};

use crate::ranking::{Member, Ranking};
use crate::ranks::is_ordered;
use crate::soonest::is_marked;
use crate::uses::instance_of;
use fab_base::Memory;
use fab_blif_models::{Model, Statement};
use indexmap::IndexSet;
use std::alloc::Global;

fn count_at(counts: &[u64], place: usize) -> u64
    ensures { result ≡ slice_index counts.now place }
{
    counts.get(place).copied().unwrap_or(0)
}

/// What a line adds to a count: an instance, and those in the model of which it is one.
fn count_line(places: &IndexSet<Vec<u8>>, counts: &[u64], line: &Statement) -> u64
    ensures { result ≡ in_64_bits (instances_at (key_names places.now.keys) (slice_index counts.now) (plain_statement line.now)) }
{
    match instance_of(places, &line.body) {
        None => 0,
        Some(inner) => count_at(counts, inner).saturating_add(1),
    }
}

/// The instances in a copy of a model, where those in other models are counted.
fn count_model(places: &IndexSet<Vec<u8>>, counts: &[u64], model: &Model) -> u64
    ensures { result ≡ in_64_bits (sum_by (instances_at (key_names places.now.keys) (slice_index counts.now)) (map plain_statement model.now.statements.items)) }
{
    let mut count = 0u64;
    for line in &model.statements {
        count = count.saturating_add(count_line(places, counts, line));
    }
    count
}

/// Counts the instances in models, in an order.
fn counts_by_order(
    alloc: Global,
    models: &[Model],
    places: &IndexSet<Vec<u8>>,
    order: &[Member],
) -> Result<Vec<u64>, Memory> {
    let mut counts = vec![in alloc; 0u64; models.len()]?;
    for member in order {
        let Some(model) = models.get(member.place) else {
            continue;
        };
        let count = count_model(places, &counts, model);
        if let Some(slot) = counts.get_mut(member.place) {
            *slot = count;
        }
    }
    Ok(counts)
}

/// Whether the count of each used model is that of its lines.
fn are_counted(models: &[Model], places: &IndexSet<Vec<u8>>, used: &[bool], counts: &[u64]) -> bool
    requires places { key_names places.now.keys ≡ model_names (plain_models models.now) }
    requires size { length used.now ≡ length models.now }
    ensures { result ≡ true → (place : ℕ) → IsMarked used.now place →
        slice_index counts.now place ≡ in_64_bits (sum_by (instances_at (model_names (plain_models models.now)) (slice_index counts.now)) (statements_of (plain_models models.now) place)) }
{
    for (place, model) in models.iter().enumerate() {
        if is_marked(used, place) && count_at(counts, place) != count_model(places, counts, model) {
            return false;
        }
    }
    true
}

/// The counts one level deeper.
fn deeper_counts(
    alloc: Global,
    models: &[Model],
    places: &IndexSet<Vec<u8>>,
    counts: &[u64],
) -> Result<Vec<u64>, Memory>
    ensures { IfOk result (λ deeper. deeper.items ≡ map (λ model. in_64_bits (sum_by (instances_at (key_names places.now.keys) (slice_index counts.now)) model.statements)) (plain_models models.now)) }
{
    let mut deeper = Vec::new(alloc);
    for model in models {
        deeper.push(count_model(places, counts, model))?;
    }
    Ok(deeper)
}

/// Counts instances level by level, which needs no order.
fn count_by_levels(
    alloc: Global,
    models: &[Model],
    places: &IndexSet<Vec<u8>>,
) -> Result<u64, Memory>
    requires places { key_names places.now.keys ≡ model_names (plain_models models.now) }
    ensures { IfOk result (λ count. count ≡ in_64_bits (instances (plain_models models.now))) }
{
    let mut counts = vec![in alloc; 0u64; models.len()]?;
    for _level in 0..models.len() {
        counts = deeper_counts(alloc, models, places, &counts)?;
    }
    Ok(count_at(&counts, 0))
}

/// How many instances the flattened text has; 2^64 - 1 where they are more.
///
/// Where models are in order, one pass counts them, and a second one tries the counts. Only recursive models are in no
/// order, and these are refused before their instances are counted. So the passes of `count_by_levels`, as many as there
/// are models, are only there to be right whatever the order is.
pub(crate) fn count_instances(
    alloc: Global,
    models: &[Model],
    places: &IndexSet<Vec<u8>>,
    used: &[bool],
    ranking: &Ranking,
) -> Result<u64, Memory>
    requires places { key_names places.now.keys ≡ model_names (plain_models models.now) }
    requires size { length used.now ≡ length models.now }
    requires used { MarksUsed (plain_models models.now) used.now }
    requires ranks { (place : ℕ) → slice_index ranking.now.ranks.items place < length models.now }
    ensures { IfOk result (λ count. count ≡ in_64_bits (instances (plain_models models.now))) }
{
    let counts = counts_by_order(alloc, models, places, &ranking.order)?;
    if is_ordered(models, places, used, &ranking.ranks)
        && are_counted(models, places, used, &counts)
    {
        return Ok(count_at(&counts, 0));
    }
    count_by_levels(alloc, models, places)
}
