//! Recursive models.
//!
//! The ranks of a search tell the least line at which a used model is recursive: the least one that is an instance of a model
//! of no higher rank. One search from that model shows that the line is right, and one pass over all lines that no lesser one
//! can be. All that takes time linear in the models and their lines. Ranks that do not hold what they should would send the
//! file to `recursive_of`, which needs none, but searches once for each used model.

ghost use Rattle.std.specs.Prelude.{◌≡◌, ◌<◌, IfOk, IfSome, length, option_map};
ghost use Rattle.fab_blif_models.specs.Plain.{plain_models};
ghost use Rattle.fab_instances.specs.Places.{model_names};
ghost use Rattle.fab_instances.specs.Order.{IsLeastFound, IsRecursive};
ghost use Rattle.fab_instances.specs.inner.Ranks.{IsRecursiveAt};
ghost use Rattle.fab_instances.specs.Uses.{IsUsed, MarksUsed};
ghost use Rattle.fab_bits.specs.Keys.{key_names};

use crate::names::place_of;
use crate::ranks::{never_falls, soonest_level};
use crate::soonest::{is_marked, lines_of, sooner, soonest_instance};
use crate::uses::uses;
use fab_base::{Memory, Name};
use fab_blif_models::Model;
use indexmap::IndexSet;
use std::alloc::Global;

/// The least line that is an instance of the model at a place, in that model itself or in one that it uses.
fn recursive_at<'a>(
    alloc: Global,
    models: &'a [Model],
    places: &IndexSet<Vec<u8>>,
    place: usize,
) -> Result<Option<(u32, &'a Name)>, Memory>
    requires within { place < length models.now }
    requires places { key_names places.now.keys ≡ model_names (plain_models models.now) }
    requires used { IsUsed (plain_models models.now) place }
    ensures { IfOk result (λ found. IsLeastFound (IsRecursiveAt (plain_models models.now) place) (option_map (λ at. (at.0, at.1.now)) found)) }
{
    let users = uses(alloc, models, places, place)?;
    let lines = lines_of(alloc, models, &users)?;
    Ok(soonest_instance(places, place, &lines))
}

/// The least line at which a used model has an instance of itself, or of a model that uses it, by a search for each used
/// model.
fn recursive_of<'a>(
    alloc: Global,
    models: &'a [Model],
    places: &IndexSet<Vec<u8>>,
    used: &[bool],
) -> Result<Option<(u32, &'a Name)>, Memory>
    requires places { key_names places.now.keys ≡ model_names (plain_models models.now) }
    requires size { length used.now ≡ length models.now }
    requires used { MarksUsed (plain_models models.now) used.now }
    ensures { IfOk result (λ found. IsLeastFound (IsRecursive (plain_models models.now)) (option_map (λ at. (at.0, at.1.now)) found)) }
{
    let mut found = None;
    for place in 0..models.len() {
        if !is_marked(used, place) {
            continue;
        }
        found = sooner(found, recursive_at(alloc, models, places, place)?);
    }
    Ok(found)
}

/// The least line that is an instance of the model of a name, in that model itself or in one that it uses.
fn recursive_named<'a>(
    alloc: Global,
    models: &'a [Model],
    places: &IndexSet<Vec<u8>>,
    used: &[bool],
    name: &Name,
) -> Result<Option<(u32, &'a Name)>, Memory>
    requires places { key_names places.now.keys ≡ model_names (plain_models models.now) }
    requires size { length used.now ≡ length models.now }
    requires used { MarksUsed (plain_models models.now) used.now }
    ensures { IfOk result (λ found. IfSome found (λ at. IsRecursive (plain_models models.now) at.0 at.1.now)) }
{
    match place_of(places, name) {
        None => Ok(None),
        Some(place) => if is_marked(used, place) {
            recursive_at(alloc, models, places, place)
        } else {
            Ok(None)
        }
    }
}

/// The least line at which a used model has an instance of itself, or of a model that uses it.
pub(crate) fn recursion_of<'a>(
    alloc: Global,
    models: &'a [Model],
    places: &IndexSet<Vec<u8>>,
    used: &[bool],
    ranks: &[usize],
) -> Result<Option<(u32, &'a Name)>, Memory>
    requires places { key_names places.now.keys ≡ model_names (plain_models models.now) }
    requires size { length used.now ≡ length models.now }
    requires used { MarksUsed (plain_models models.now) used.now }
    ensures { IfOk result (λ found. IsLeastFound (IsRecursive (plain_models models.now)) (option_map (λ at. (at.0, at.1.now)) found)) }
{
    if never_falls(models, places, used, ranks) {
        let Some((line, name)) = soonest_level(models, places, used, ranks) else {
            return Ok(None);
        };
        if let Some(found) = recursive_named(alloc, models, places, used, name)? {
            if found.0 <= line {
                return Ok(Some(found));
            }
        }
    }
    recursive_of(alloc, models, places, used)
}
