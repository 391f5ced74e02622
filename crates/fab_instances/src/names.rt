//! The models of a file by name.

ghost use Rattle.std.specs.Prelude.{◌≡◌, ◌≢◌, ◌<◌, ◌∷◌, ◌++◌, [], not, if◌then◌else◌, IfErr, IfOk, IfSome, OnOk, length, position};
ghost use Rattle.std.specs.List.{list_any};
ghost use Rattle.std.specs.Str.{bytes_eq};
ghost use Rattle.fab_base.specs.declared.fault.Fault.TheVariants as faults;
ghost use Rattle.fab_blif_models.specs.Plain.{plain_models};
ghost use Rattle.fab_instances.specs.Places.{model_names};
ghost use Rattle.fab_instances.specs.Order.{NamesDiffer, RefusesNames};
ghost use Rattle.fab_bits.specs.Keys.{key_names};

use crate::faults::malformed;
use fab_base::{Fault, Memory, Name, Reason};
use fab_blif_models::Model;
use indexmap::IndexSet;
use std::alloc::Global;

/// Whether a name is put behind names, in which it is not yet.
pub(crate) fn insert_bytes(
    alloc: Global,
    names: &mut IndexSet<Vec<u8>>,
    name: &[u8],
) -> Result<bool, Memory>
    ensures added { IfOk result (λ added. added ≡ not (list_any (bytes_eq name.now) (key_names names.old.keys))) }
    ensures names { IfOk result (λ added. key_names names.new.keys ≡ (if added then key_names names.old.keys ++ name.now ∷ [] else key_names names.old.keys)) }
{
    let key = Vec::from_slice(alloc, name)?;
    let (_, added) = names.insert_full(key)?;
    Ok(added)
}

/// The same for a name that is read.
pub(crate) fn insert_new(
    alloc: Global,
    names: &mut IndexSet<Vec<u8>>,
    name: &Name,
) -> Result<bool, Memory>
    ensures added { IfOk result (λ added. added ≡ not (list_any (bytes_eq name.now) (key_names names.old.keys))) }
    ensures names { IfOk result (λ added. key_names names.new.keys ≡ (if added then key_names names.old.keys ++ name.now ∷ [] else key_names names.old.keys)) }
{
    insert_bytes(alloc, names, name.bytes())
}

/// The places of models by name. `Malformed` comes for a file without a model, at its last line, and for the second of two
/// models of one name.
pub(crate) fn places_of(
    alloc: Global,
    file: &Name,
    last_line: u32,
    models: &[Model],
) -> Result<IndexSet<Vec<u8>>, Fault>
    ensures places { IfOk result (λ places. key_names places.keys ≡ model_names (plain_models models.now)) }
    ensures some { OnOk result (0 < length models.now) }
    ensures differ { OnOk result (NamesDiffer (plain_models models.now)) }
    ensures refused { IfErr result (λ fault. (fault ≢ faults.Memory) → RefusesNames file.now last_line (plain_models models.now) fault) }
{
    if models.len() == 0 {
        return Err(malformed(alloc, file, last_line, Reason::NoModel));
    }
    let mut places = IndexSet::new(alloc);
    for model in models {
        if !insert_new(alloc, &mut places, &model.name)? {
            return Err(malformed(alloc, file, model.line, Reason::NameTwice));
        }
    }
    Ok(places)
}

/// Whether a name is one of these.
pub(crate) fn is_among(names: &IndexSet<Vec<u8>>, name: &[u8]) -> bool
    ensures { result ≡ list_any (bytes_eq name.now) (key_names names.now.keys) }
{
    names.contains(name)
}

/// Where the model of a name stands, by the places of models.
pub fn place_of(places: &IndexSet<Vec<u8>>, name: &Name) -> Option<usize>
    ensures place { result ≡ position (bytes_eq name.now) (key_names places.now.keys) }
    ensures within { IfSome result (λ place. place < length places.now.keys) }
{
    places.get_index_of(name.bytes())
}
