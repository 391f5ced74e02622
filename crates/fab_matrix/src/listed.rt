//! The module of a matrix that is given by a list of pairs of names.

ghost use Rattle.std.specs.Prelude.{◌≡◌, ◌≢◌, ℕ, map, IfOk, OnOk, All};
ghost use Rattle.std.specs.Str.{bytes_eq};
ghost use Rattle.std.specs.List.{position_or_len};
ghost use Rattle.indexmap.specs.IndexSet.{insert_key};
ghost use Rattle.fab_syntax.specs.Plain.{plain_module};
ghost use Rattle.fab_meaning.specs.Ports.{config_name};
ghost use Rattle.fab_matrix.specs.Matrix.{list_outputs, list_matrix};
ghost use Rattle.fab_matrix.specs.Selects.{Selects};
ghost use Rattle.fab_bits.specs.Keys.{key_names};
ghost use Rattle.fab_matrix.specs.inner.Numbering.{AreNumbersOf};

use crate::numbers::matrix_module;
use fab_base::{Memory, Name};
use fab_select::Pair;
use fab_syntax::Module;
use indexmap::IndexSet;
use std::alloc::Global;

/// The module of a list of pairs by name, an output and an input each: inputs and outputs in the order of their first
/// pairs.
///
/// Want of memory is also the answer where names or select bits are too many for 32 bits.
pub fn list_module(alloc: Global, name: &Name, pairs: &[(Name, Name)]) -> Result<Module, Memory>
    ensures module { IfOk result (λ m. plain_module m ≡ list_matrix name.now pairs.now) }
    ensures selects { IfOk result (λ m. All (λ pair. pair.1 ≢ config_name) pairs.now →
        Selects bytes_eq (plain_module m) (list_outputs pairs.now) pairs.now) }
{
    let numbered = number_names(alloc, pairs)?;
    let module = matrix_module(
        alloc,
        name,
        &numbered.inputs,
        &numbered.outputs,
        &numbered.pairs,
    )?;
    Ok(module)
}

// Names in the order in which they first came, and pairs of their numbers.
#[derive(Drop)]
struct Numbered {
    inputs: Vec<Name>,
    outputs: Vec<Name>,
    pairs: Vec<Pair>,
}

// The names and the numbers of pairs.
fn number_names(alloc: Global, pairs: &[(Name, Name)]) -> Result<Numbered, Memory>
    ensures outputs { IfOk result (λ n. AreNumbersOf (map (λ pair. pair.0) pairs.now) n.outputs.items (map (λ pair. pair.output) n.pairs.items)) }
    ensures inputs { IfOk result (λ n. AreNumbersOf (map (λ pair. pair.1) pairs.now) n.inputs.items (map (λ pair. pair.input) n.pairs.items)) }
{
    let mut inputs = IndexSet::new(alloc);
    let mut outputs = IndexSet::new(alloc);
    let mut numbers = Vec::new(alloc);
    for pair in pairs {
        let output = number_of(alloc, &mut outputs, &pair.0)?;
        let input = number_of(alloc, &mut inputs, &pair.1)?;
        numbers.push(Pair { output, input })?;
    }
    Ok(Numbered {
        inputs: names_of(alloc, &inputs)?,
        outputs: names_of(alloc, &outputs)?,
        pairs: numbers,
    })
}

// The number of a name in order of first appearance; want of memory where it does not fit.
fn number_of(alloc: Global, places: &mut IndexSet<Vec<u8>>, name: &Name) -> Result<u32, Memory>
    ensures keys { OnOk result (key_names places.new.keys ≡ insert_key bytes_eq (key_names places.old.keys) name.now) }
    ensures number { IfOk result (λ number. number ≡ position_or_len (bytes_eq name.now) (key_names places.old.keys)) }
{
    let key = Vec::from_slice(alloc, name.bytes())?;
    let (place, _) = places.insert_full(key)?;
    let Ok(number) = u32::try_from(place) else {
        return Err(Memory);
    };
    Ok(number)
}

// The names in their order.
fn names_of(alloc: Global, places: &IndexSet<Vec<u8>>) -> Result<Vec<Name>, Memory>
    ensures { IfOk result (λ names. names.items ≡ key_names places.now.keys) }
{
    let mut names = Vec::new(alloc);
    for key in places.as_slice() {
        names.push(Name::of(alloc, key)?)?;
    }
    Ok(names)
}
