//! Outputs that have too many inputs.

ghost use Rattle.std.specs.Prelude.{◌≡◌, ℕ, List, IfOk, map, find, nat_lt, unwrap_or};
ghost use Rattle.std.specs.Str.{bytes_eq};
ghost use Rattle.indexmap.specs.IndexMap.{get_by};
ghost use Rattle.fab_list_files.specs.Sides.{crowd, input_count, most_inputs};

use fab_base::{Memory, Name};
use indexmap::IndexMap;
use std::alloc::Global;

/// The most inputs of an output.
pub const MOST_INPUTS: u64 = 256;

/// How many inputs each output has.
type Counts = IndexMap<Vec<u8>, u64>;

fn count_of(counts: &Counts, output: &[u8]) -> u64
    ensures { result ≡ unwrap_or (get_by (λ key. bytes_eq output.now key.items) counts.now) 0 }
{
    counts.get(output).copied().unwrap_or(0)
}

fn count_inputs(alloc: Global, pairs: &[(Name, Name)]) -> Result<Counts, Memory>
    ensures { IfOk result (λ counts. (output : List ℕ) →
        unwrap_or (get_by (λ key. bytes_eq output key.items) counts) 0 ≡ input_count bytes_eq pairs.now output) }
{
    let mut counts = IndexMap::new(alloc);
    for pair in pairs {
        let count = count_of(&counts, pair.0.bytes())
            .checked_add(1)
            .ok_or(Memory)?;
        counts.insert(pair.0.copy(alloc)?.into_vec(), count)?;
    }
    Ok(counts)
}

fn first_crowd(counts: &Counts, pairs: &[(Name, Name)]) -> Option<u64>
    ensures { result ≡ find (nat_lt most_inputs) (map (λ pair. unwrap_or (get_by (λ key. bytes_eq pair.0 key.items) counts.now) 0) pairs.now) }
{
    pairs
        .iter()
        .map(|pair| count_of(counts, pair.0.bytes()))
        .find(|count| *count > MOST_INPUTS)
}

/// How many inputs the first output has that has too many, if one has.
pub fn find_crowd(alloc: Global, pairs: &[(Name, Name)]) -> Result<Option<u64>, Memory>
    ensures { IfOk result (λ found. found ≡ crowd bytes_eq pairs.now) }
{
    let counts = count_inputs(alloc, pairs)?;
    Ok(first_crowd(&counts, pairs))
}
