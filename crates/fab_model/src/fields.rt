//! The fields of the configuration bits that select the inputs of matrix outputs.

ghost use Rattle.std.specs.Prelude.{◌≡◌, ◌<◌, ◌+◌, ℕ, All, IfOk, length, map, nat_eq, sum_by, take, slice_index_or};
ghost use Rattle.fab_select.specs.Selection.{inputs_of, in_order};
ghost use Rattle.fab_model.specs.Tiles.{pair_numbers};
ghost use Rattle.fab_model.specs.inner.Numbering.{HasFields, laid_bels, width_in};

use crate::tiles::Bel;
use fab_base::Memory;
use fab_kinds::fab_bits::select_width;
use fab_select::Pair;
use indexmap::IndexSet;
use std::alloc::Global;

/// The fields of the outputs of some pairs.
#[derive(Debug, Drop)]
pub struct Fields {
    /// The outputs in the order of their first pairs.
    pub order: IndexSet<u32>,
    /// The first bit and the width of the field of each of them.
    pub fields: Vec<(u32, u32)>,
    /// The bit behind the last field.
    pub bits: u32,
}

/// The fields of BELs, one behind the other: the first bit and the width of each. Want of memory is also the answer where a
/// number does not fit.
pub fn bel_fields_of(alloc: Global, bels: &[Bel]) -> Result<Vec<(u32, u32)>, Memory>
    ensures { IfOk result (λ fields. fields.items ≡ laid_bels 0 bels.now) }
{
    let mut fields = Vec::new(alloc);
    let mut low: u32 = 0;
    for bel in bels {
        let width = bel.kind.bits();
        fields.push((low, width))?;
        low = low.checked_add(width).ok_or(Memory)?;
    }
    Ok(fields)
}

/// The fields of the outputs of some pairs, from the bit `first` on. Want of memory is also the answer where a number does
/// not fit.
pub fn fields_of(
    alloc: Global,
    first: u32,
    outputs: usize,
    pairs: &[Pair],
) -> Result<Fields, Memory>
    requires { All (λ pair. pair.output < outputs) pairs.now }
    ensures { IfOk result (λ f. HasFields first (map pair_numbers pairs.now) f.order.keys f.fields.items f.bits) }
{
    let counts = input_counts(alloc, outputs, pairs)?;
    let order = outputs_in_order(alloc, pairs)?;
    let (fields, bits) = laid_out(alloc, first, order.as_slice(), &counts)?;
    Ok(Fields {
        order,
        fields,
        bits,
    })
}

// How many inputs each of so many outputs has.
fn input_counts(alloc: Global, outputs: usize, pairs: &[Pair]) -> Result<Vec<u32>, Memory>
    requires { All (λ pair. pair.output < outputs) pairs.now }
    ensures len { IfOk result (λ counts. length counts.items ≡ outputs) }
    ensures counts { IfOk result (λ counts. (output : ℕ) →
        slice_index_or counts.items output 0 ≡ length (inputs_of nat_eq (map pair_numbers pairs.now) output)) }
{
    let mut counts: Vec<u32> = vec![in alloc; 0; outputs]?;
    for pair in pairs {
        let place = pair.output as usize;
        counts[place] = counts[place].checked_add(1).ok_or(Memory)?;
    }
    Ok(counts)
}

/// The outputs of the pairs of a switch matrix, in the order of their first pairs.
pub fn outputs_in_order(alloc: Global, pairs: &[Pair]) -> Result<IndexSet<u32>, Memory>
    ensures { IfOk result (λ order. order.keys ≡ in_order nat_eq (map pair_numbers pairs.now)) }
{
    let mut order = IndexSet::new(alloc);
    for pair in pairs {
        order.insert(pair.output)?;
    }
    Ok(order)
}

// The first bit and the width of the field of each output in order, and the bit behind the last.
fn laid_out(
    alloc: Global,
    first: u32,
    order: &[u32],
    counts: &[u32],
) -> Result<(Vec<(u32, u32)>, u32), Memory>
    requires { All (λ output. output < length counts.now) order.now }
    ensures len { IfOk result (λ laid. length laid.0.items ≡ length order.now) }
    ensures fields { IfOk result (λ laid. (place : ℕ) → place < length order.now →
        slice_index_or laid.0.items place (0, 0)
        ≡ (first + sum_by (width_in counts.now) (take place order.now), width_in counts.now (slice_index_or order.now place 0))) }
    ensures bits { IfOk result (λ laid. laid.1 ≡ first + sum_by (width_in counts.now) order.now) }
{
    let mut fields = Vec::new(alloc);
    let mut low = first;
    for output in order {
        let width = select_width(counts[*output as usize]);
        fields.push((low, width))?;
        low = low.checked_add(width).ok_or(Memory)?;
    }
    Ok((fields, low))
}
