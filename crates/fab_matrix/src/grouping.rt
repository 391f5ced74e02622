//! The pairs of a matrix grouped by output, and the fields of the select bits.

ghost use Rattle.std.specs.Prelude.{◌≡◌, ◌+◌, ◌<◌, ◌≤◌, ◌^◌, ℕ, [], length, map, IfOk, All, sum_by, take, nat_eq, slice_index_or};
ghost use Rattle.fab_bits.specs.Widths.{select_width};
ghost use Rattle.fab_select.specs.Selection.{firsts};
ghost use Rattle.fab_bits.specs.Keys.{group_at};
ghost use Rattle.fab_matrix.specs.inner.Grouped.{numbers_of, width_at, low_at};

use fab_base::Memory;
use fab_bits::select_width;
use fab_select::Pair;
use indexmap::IndexSet;
use std::alloc::Global;

/// The select bits of an output: so many from the bit `low` on.
#[derive(Clone, Copy)]
pub struct Field {
    pub low: u32,
    pub width: u32,
    pub ghost fits: { low + width < 2 ^ 32 },
}

/// The inputs of each of so many outputs, in the order of the pairs.
pub fn inputs_by_output(
    alloc: Global,
    outputs: usize,
    pairs: &[Pair],
) -> Result<Vec<Vec<u32>>, Memory>
    requires { All (λ pair. pair.output < outputs) pairs.now }
    ensures len { IfOk result (λ groups. length groups.items ≡ outputs) }
    ensures groups { IfOk result (λ groups. (output : ℕ) → group_at groups.items output ≡ numbers_of pairs.now output) }
{
    let mut groups = no_inputs(alloc, outputs)?;
    for pair in pairs {
        groups[pair.output as usize].push(pair.input)?;
    }
    Ok(groups)
}

// An empty group for each output.
fn no_inputs(alloc: Global, outputs: usize) -> Result<Vec<Vec<u32>>, Memory>
    ensures len { IfOk result (λ groups. length groups.items ≡ outputs) }
    ensures groups { IfOk result (λ groups. (output : ℕ) → group_at groups.items output ≡ []) }
{
    let mut groups = Vec::new(alloc);
    for _output in 0..outputs {
        groups.push(Vec::new(alloc))?;
    }
    Ok(groups)
}

/// The outputs in the order of their first pairs.
pub fn order_of(alloc: Global, pairs: &[Pair]) -> Result<IndexSet<u32>, Memory>
    ensures { IfOk result (λ order. order.keys ≡ firsts nat_eq (map (λ pair. pair.output) pairs.now)) }
{
    let mut order = IndexSet::new(alloc);
    for pair in pairs {
        order.insert(pair.output)?;
    }
    Ok(order)
}

/// Where the field of each output in order begins, and at the end of all how many select bits there are; want of memory
/// where a number does not fit.
pub fn lows_of(alloc: Global, order: &[u32], groups: &[Vec<u32>]) -> Result<Vec<u32>, Memory>
    requires { All (λ output. output < length groups.now) order.now }
    ensures len { IfOk result (λ lows. length lows.items ≡ length order.now + 1) }
    ensures lows { IfOk result (λ lows. (place : ℕ) → place ≤ length order.now →
        slice_index_or lows.items place 0 ≡ sum_by (width_at groups.now) (take place order.now)) }
{
    let mut lows = Vec::new(alloc);
    let mut low: u32 = 0;
    for output in order {
        lows.push(low)?;
        let width = width_of(&groups[*output as usize])?;
        low = low.checked_add(width).ok_or(Memory)?;
    }
    lows.push(low)?;
    Ok(lows)
}

// How many bits select one of the inputs; want of memory where there are too many to count.
fn width_of(inputs: &[u32]) -> Result<u32, Memory>
    ensures { IfOk result (λ width. width ≡ select_width (length inputs.now)) }
{
    let Ok(count) = u32::try_from(inputs.len()) else {
        return Err(Memory);
    };
    Ok(select_width(count))
}

/// The field of an output; want of memory where its end does not fit.
pub fn field_of(
    order: &IndexSet<u32>,
    lows: &[u32],
    groups: &[Vec<u32>],
    output: u32,
) -> Result<Field, Memory>
    requires output { output < length groups.now }
    requires len { length lows.now ≡ length order.now.keys + 1 }
    requires lows { (place : ℕ) → place ≤ length order.now.keys →
        slice_index_or lows.now place 0 ≡ sum_by (width_at groups.now) (take place order.now.keys) }
    ensures low { IfOk result (λ field. field.low ≡ low_at groups.now order.now.keys output) }
    ensures width { IfOk result (λ field. field.width ≡ width_at groups.now output) }
{
    // an output without a pair stands behind all others
    let place = order.get_index_of(&output).unwrap_or(order.len());
    let low = lows[place];
    let width = width_of(&groups[output as usize])?;
    low.checked_add(width).ok_or(Memory)?;
    Ok(Field { low, width })
}
