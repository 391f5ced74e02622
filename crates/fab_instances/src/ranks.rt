//! Lines of used models, and the ranks of the models of which they are instances.

ghost use Rattle.std.specs.Prelude.{◌≡◌, true, length, map, option_map, slice_index};
ghost use Rattle.std.specs.List.{list_all};
ghost use Rattle.fab_blif_models.specs.Plain.{plain_models, plain_statement};
ghost use Rattle.fab_instances.specs.Places.{model_names};
ghost use Rattle.fab_instances.specs.Order.{IsLeastFound, NoLine};
ghost use Rattle.fab_instances.specs.inner.Ranks.{IsLevel, NeverFalls, level_in, stays};
ghost use Rattle.fab_instances.specs.Uses.{MarksUsed, soonest_of};
ghost use Rattle.fab_bits.specs.Keys.{key_names};

use crate::names::place_of;
use crate::soonest::{is_marked, sooner};
use crate::uses::instance_of;
use fab_base::Name;
use fab_blif_models::{Body, Model, Statement};
use indexmap::IndexSet;

fn rank_at(ranks: &[usize], place: usize) -> usize
    ensures { result ≡ slice_index ranks.now place }
{
    ranks.get(place).copied().unwrap_or(0)
}

fn stays(places: &IndexSet<Vec<u8>>, ranks: &[usize], rank: usize, line: &Statement) -> bool
    ensures { result ≡ stays (key_names places.now.keys) ranks.now rank (plain_statement line.now) }
{
    match instance_of(places, &line.body) {
        None => true,
        Some(inner) => rank <= rank_at(ranks, inner),
    }
}

/// Whether no line of a model is an instance of a model of a lower rank.
fn all_stay(places: &IndexSet<Vec<u8>>, ranks: &[usize], rank: usize, model: &Model) -> bool
    ensures { result ≡ true → list_all (stays (key_names places.now.keys) ranks.now rank) (map plain_statement model.now.statements.items) ≡ true }
{
    for line in &model.statements {
        if !stays(places, ranks, rank, line) {
            return false;
        }
    }
    true
}

/// Whether no line of a used model is an instance of a model of a lower rank.
pub(crate) fn never_falls(
    models: &[Model],
    places: &IndexSet<Vec<u8>>,
    used: &[bool],
    ranks: &[usize],
) -> bool
    requires places { key_names places.now.keys ≡ model_names (plain_models models.now) }
    requires size { length used.now ≡ length models.now }
    requires used { MarksUsed (plain_models models.now) used.now }
    ensures { result ≡ true → NeverFalls (plain_models models.now) ranks.now }
{
    for (place, model) in models.iter().enumerate() {
        if is_marked(used, place) && !all_stay(places, ranks, rank_at(ranks, place), model) {
            return false;
        }
    }
    true
}

fn level_in<'a>(
    places: &IndexSet<Vec<u8>>,
    ranks: &[usize],
    rank: usize,
    line: &'a Statement,
) -> Option<(u32, &'a Name)>
    ensures { option_map (λ found. (found.0, found.1.now)) result ≡ level_in (key_names places.now.keys) ranks.now rank (plain_statement line.now) }
{
    let Body::Instance(name, _) = &line.body else {
        return None;
    };
    match place_of(places, name) {
        None => None,
        Some(inner) => if rank < rank_at(ranks, inner) {
            None
        } else {
            Some((line.line, name))
        }
    }
}

/// What is found, or a lesser line of a model that is an instance of a model of no higher rank.
fn soonest_level_in<'a>(
    places: &IndexSet<Vec<u8>>,
    ranks: &[usize],
    rank: usize,
    first: Option<(u32, &'a Name)>,
    model: &'a Model,
) -> Option<(u32, &'a Name)>
    ensures { option_map (λ found. (found.0, found.1.now)) result
        ≡ soonest_of (level_in (key_names places.now.keys) ranks.now rank) (option_map (λ found. (found.0, found.1.now)) first.entry) (map plain_statement model.now.statements.items) }
{
    let mut found = first;
    for line in &model.statements {
        found = sooner(found, level_in(places, ranks, rank, line));
    }
    found
}

/// The least line of a used model that is an instance of a model of no higher rank.
pub(crate) fn soonest_level<'a>(
    models: &'a [Model],
    places: &IndexSet<Vec<u8>>,
    used: &[bool],
    ranks: &[usize],
) -> Option<(u32, &'a Name)>
    requires places { key_names places.now.keys ≡ model_names (plain_models models.now) }
    requires size { length used.now ≡ length models.now }
    requires used { MarksUsed (plain_models models.now) used.now }
    ensures { IsLeastFound (IsLevel (plain_models models.now) ranks.now) (option_map (λ found. (found.0, found.1.now)) result) }
{
    let mut found = None;
    for (place, model) in models.iter().enumerate() {
        if !is_marked(used, place) {
            continue;
        }
        found = soonest_level_in(places, ranks, rank_at(ranks, place), found, model);
    }
    found
}

/// Whether all lines of used models that are instances are so of models of higher ranks.
pub(crate) fn is_ordered(
    models: &[Model],
    places: &IndexSet<Vec<u8>>,
    used: &[bool],
    ranks: &[usize],
) -> bool
    requires places { key_names places.now.keys ≡ model_names (plain_models models.now) }
    requires size { length used.now ≡ length models.now }
    requires used { MarksUsed (plain_models models.now) used.now }
    ensures { result ≡ true → NoLine (IsLevel (plain_models models.now) ranks.now) }
{
    soonest_level(models, places, used, ranks).is_none()
}
