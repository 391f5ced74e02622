//! What is judged of the models of a file before they are flattened.

ghost use Rattle.std.specs.Prelude.{◌≡◌, ◌≢◌, ◌⊎◌, ◌<◌, ◌≤◌, ℕ, IfErr, IfOk, OnOk, length, option_map, slice_index};
ghost use Rattle.fab_base.specs.Reading.{fault_at, IsFaultOr};
ghost use Rattle.fab_base.specs.declared.fault.Fault.TheVariants as faults;
ghost use Rattle.fab_base.specs.declared.problem.Problem.TheVariants as problems;
ghost use Rattle.fab_base.specs.declared.words.Quantity.TheVariants as quantities;
ghost use Rattle.fab_blif_models.specs.Plain.{plain_models};
ghost use Rattle.fab_instances.specs.Counting.{instances, most_instances, RefusesInstances};
ghost use Rattle.fab_instances.specs.Places.{model_names};
ghost use Rattle.fab_instances.specs.Order.{IsLeastFound, IsRecursive, IsUnknown, NamesDiffer, NoLine, RefusesNames, RefusesRecursive, RefusesUnknown};
ghost use Rattle.fab_instances.specs.Refusals.{AreFineModels, RefusesModels};
ghost use Rattle.fab_instances.specs.Uses.{MarksUsed};
ghost use Rattle.fab_bits.specs.Keys.{key_names};

use crate::counting::count_instances;
use crate::faults::unsupported;
use crate::formals::refuse_formals;
use crate::names::places_of;
use crate::ranking::{Ranking, ranking_of};
use crate::recursion::recursion_of;
use crate::soonest::{lines_of, soonest_unknown};
use crate::uses::used_models;
use fab_base::{Fault, Memory, Name, Problem, Quantity};
use fab_blif_models::Model;
use indexmap::IndexSet;
use std::alloc::Global;

/// How many instances a flattened text may have.
const MAX_INSTANCES: u64 = 16_384;

/// The least line at which a used model has an instance of a model that the file does not have.
fn unknown_of<'a>(
    alloc: Global,
    models: &'a [Model],
    places: &IndexSet<Vec<u8>>,
    used: &[bool],
) -> Result<Option<(u32, &'a Name)>, Memory>
    requires places { key_names places.now.keys ≡ model_names (plain_models models.now) }
    requires size { length used.now ≡ length models.now }
    requires used { MarksUsed (plain_models models.now) used.now }
    ensures { IfOk result (λ found. IsLeastFound (IsUnknown (plain_models models.now)) (option_map (λ at. (at.0, at.1.now)) found)) }
{
    let lines = lines_of(alloc, models, used)?;
    Ok(soonest_unknown(places, &lines))
}

/// Refuses models that the file does not have, and recursive ones.
fn refuse_uses(
    alloc: Global,
    file: &Name,
    models: &[Model],
    places: &IndexSet<Vec<u8>>,
    used: &[bool],
    ranks: &[usize],
) -> Result<(), Fault>
    requires places { key_names places.now.keys ≡ model_names (plain_models models.now) }
    requires size { length used.now ≡ length models.now }
    requires used { MarksUsed (plain_models models.now) used.now }
    ensures known { OnOk result (NoLine (IsUnknown (plain_models models.now))) }
    ensures finite { OnOk result (NoLine (IsRecursive (plain_models models.now))) }
    ensures refused { IfErr result (λ fault. (fault ≢ faults.Memory) → RefusesUnknown file.now (plain_models models.now) fault
        ⊎ RefusesRecursive file.now (plain_models models.now) fault) }
{
    if let Some((line, name)) = unknown_of(alloc, models, places, used)? {
        return Err(unsupported(alloc, file, line, b"model", name));
    }
    if let Some((line, name)) = recursion_of(alloc, models, places, used, ranks)? {
        return Err(unsupported(alloc, file, line, b"recursive model", name));
    }
    Ok(())
}

/// Refuses models that cannot be flattened, and counts their instances before any is made.
fn refuse_models(
    alloc: Global,
    file: &Name,
    last_line: u32,
    models: &[Model],
    places: &IndexSet<Vec<u8>>,
) -> Result<(), Fault>
    requires some { 0 < length models.now }
    requires places { key_names places.now.keys ≡ model_names (plain_models models.now) }
    ensures fine { OnOk result (AreFineModels (plain_models models.now)) }
    ensures refused { IfErr result (λ fault. (fault ≢ faults.Memory) → RefusesModels file.now last_line (plain_models models.now) fault) }
{
    let used = used_models(alloc, models, places)?;
    let ranking = ranking_of(alloc, models, places)?;
    refuse_uses(alloc, file, models, places, &used, &ranking.ranks)?;
    refuse_formals(alloc, file, models, places, &used)?;
    refuse_instances(alloc, file, last_line, models, places, &used, &ranking)
}

/// Refuses instances above the limit.
fn refuse_instances(
    alloc: Global,
    file: &Name,
    last_line: u32,
    models: &[Model],
    places: &IndexSet<Vec<u8>>,
    used: &[bool],
    ranking: &Ranking,
) -> Result<(), Fault>
    requires places { key_names places.now.keys ≡ model_names (plain_models models.now) }
    requires size { length used.now ≡ length models.now }
    requires used { MarksUsed (plain_models models.now) used.now }
    requires ranks { (place : ℕ) → slice_index ranking.now.ranks.items place < length models.now }
    ensures small { OnOk result (instances (plain_models models.now) ≤ most_instances) }
    ensures refused { IfErr result (λ fault. (fault ≢ faults.Memory) → RefusesInstances file.now last_line (plain_models models.now) fault) }
{
    let count = count_instances(alloc, models, places, used, ranking)?;
    refuse_count(alloc, file, last_line, count)
}

/// Refuses a count above the limit.
fn refuse_count(alloc: Global, file: &Name, last_line: u32, count: u64) -> Result<(), Fault>
    ensures small { OnOk result (count ≤ most_instances) }
    ensures limit { IfErr result (λ fault. (most_instances < count)
        × IsFaultOr fault (fault_at file.now last_line (problems.Limit quantities.Instances count most_instances))) }
{
    if count > MAX_INSTANCES {
        let problem = Problem::Limit(Quantity::Instances, count, MAX_INSTANCES);
        return Err(problem.at(alloc, file, last_line));
    }
    Ok(())
}

/// The places of models by name, where nothing is wrong with models that are to be flattened.
///
/// What breaks a rule is refused in the order of the rules: a file without a model, which is `Malformed`, `no model`, at the
/// file's last line; the second of two models of one name, `name twice`; and of the models that the first one uses, itself
/// included, the least line with an instance of a model that the file does not have, `Unsupported`, `model NAME`, with one of
/// a recursive model, `recursive model NAME`, or with words that join no ports, `Malformed`, `formal`; and more than 16,384
/// instances in the flattened text, a `Limit` at the last line. `Memory` comes where memory was refused.
pub fn index_models(
    alloc: Global,
    file: &Name,
    last_line: u32,
    models: &[Model],
) -> Result<IndexSet<Vec<u8>>, Fault>
    ensures places { IfOk result (λ places. key_names places.keys ≡ model_names (plain_models models.now)) }
    ensures named { OnOk result ((0 < length models.now) × NamesDiffer (plain_models models.now)) }
    ensures fine { OnOk result (AreFineModels (plain_models models.now)) }
    ensures refused { IfErr result (λ fault. (fault ≢ faults.Memory) → RefusesNames file.now last_line (plain_models models.now) fault
        ⊎ ((0 < length models.now) × NamesDiffer (plain_models models.now) × RefusesModels file.now last_line (plain_models models.now) fault)) }
{
    let places = places_of(alloc, file, last_line, models)?;
    refuse_models(alloc, file, last_line, models, &places)?;
    Ok(places)
}
