//! The end at which walks have the greatest delay, and a walk that has it.

ghost use Rattle.std.specs.Prelude.{◌≡◌, ◌<◌, ◌+◌, ◌^◌, ℕ, [], All, IfOk, OnOk, Some, length, reverse};
ghost use Rattle.std.specs.Option.{IfSome};
ghost use Rattle.fab_fabric.specs.Wires.{numbered_wire};
ghost use Rattle.fab_timing.specs.inner.Tables.{plain_steps, sum_at, before_in, IsShortStep, AreTables, AreSums, AreSmall, IsTrail, IsLatestEnd};
ghost use Rattle.fab_timing.specs.inner.Trails.{better, stop_at, gives, source_of, ComesFrom};

use crate::steps::Steps;
use fab_base::Memory;
use fab_fabric::Wire;
use std::alloc::Global;

// The better of an end with its delay and of another end that has this sum.
fn better(best: Option<(u32, u64)>, node: u32, units: u32, sum: Option<u64>) -> Option<(u32, u64)>
    requires { IfSome sum (λ sum. sum + units < 2 ^ 64) }
    ensures { result ≡ better best (node, units) sum }
{
    let Some(sum) = sum else {
        return best;
    };
    let delay = sum + u64::from(units);
    let Some((_end, most)) = best else {
        return Some((node, delay));
    };
    if most < delay {
        return Some((node, delay));
    }
    best
}

/// Of ends, each a node with its units, one of greatest delay, and this delay: the sum at the end and the units of the
/// end. None where no walk comes to an end.
pub fn latest_end(ends: &[(u32, u32)], sums: &[Option<u64>]) -> Option<(u32, u64)>
    requires within { All (λ end. end.0 < length sums.now) ends.now }
    requires few { length sums.now < 2 ^ 32 }
    requires small { AreSmall sums.now }
    ensures { IsLatestEnd ends.now (sum_at sums.now) result }
{
    let mut latest = None;
    for (node, units) in ends {
        latest = better(latest, *node, *units, sums[*node as usize]);
    }
    latest
}

// The node with its sum, if it has one.
fn stop_at(sums: &[Option<u64>], node: u32) -> Option<(u32, u64)>
    requires { node < length sums.now }
    ensures { result ≡ stop_at (sum_at sums.now) node }
{
    match sums[node as usize] {
        None => None,
        Some(sum) => Some((node, sum)),
    }
}

// Whether a step from a node of some sum gives this sum.
fn gives(from: Option<u64>, units: u32, sum: u64) -> bool
    requires { IfSome from (λ old. old + units < 2 ^ 64) }
    ensures { result ≡ gives from units sum }
{
    match from {
        None => false,
        Some(old) => old + u64::from(units) == sum,
    }
}

// A node from which one of the steps gives this sum.
fn source_of(before: &[(u32, u32)], sums: &[Option<u64>], sum: u64) -> Option<u32>
    requires steps { All (IsShortStep (length sums.now)) before.now }
    requires few { length sums.now < 2 ^ 32 }
    requires small { AreSmall sums.now }
    ensures { result ≡ source_of (sum_at sums.now) sum before.now }
{
    for (from, units) in before {
        if gives(sums[*from as usize], *units, sum) {
            return Some(*from);
        }
    }
    None
}

// The stop before one on a walk; none where the walk begins.
fn stop_before(steps: &Steps, sums: &[Option<u64>], node: u32, sum: u64) -> Option<(u32, u64)>
    requires tables { AreTables steps.now }
    requires len { length sums.now ≡ length steps.now.starts.items }
    requires sums { AreSums steps.now sums.now }
    requires small { AreSmall sums.now }
    requires here { sum_at sums.now node ≡ Some sum }
    ensures { ComesFrom (plain_steps steps.now) (sum_at sums.now) (node, sum) result }
{
    match source_of(&steps.before[node as usize], sums, sum) {
        None => None,
        Some(from) => stop_at(sums, from),
    }
}

// Adds the stops of a walk from its last to its first.
fn walk_back(
    steps: &Steps,
    sums: &[Option<u64>],
    end: u32,
    stops: &mut Vec<(Wire, u64)>,
) -> Result<(), Memory>
    requires tables { AreTables steps.now }
    requires len { length sums.now ≡ length steps.now.starts.items }
    requires sums { AreSums steps.now sums.now }
    requires small { AreSmall sums.now }
    requires within { end < length sums.now }
    requires empty { stops.old.items ≡ [] }
    ensures trail { OnOk result ((sum : ℕ) → sum_at sums.now end ≡ Some sum → IsTrail (plain_steps steps.now) (reverse stops.new.items) (numbered_wire end, sum)) }
    ensures within { OnOk result (All (λ stop. stop.0.0 < length steps.now.starts.items) stops.new.items) }
{
    let mut at = stop_at(sums, end);
    'back: while let Some((node, sum)) = at {
        stops.push((Wire(node), sum))?;
        at = stop_before(steps, sums, node, sum);
    }
    Ok(())
}

/// The stops of a walk that comes to a node with the sum that the node has, in their order.
pub fn trace(
    alloc: Global,
    steps: &Steps,
    sums: &[Option<u64>],
    end: u32,
) -> Result<Vec<(Wire, u64)>, Memory>
    requires tables { AreTables steps.now }
    requires len { length sums.now ≡ length steps.now.starts.items }
    requires sums { AreSums steps.now sums.now }
    requires small { AreSmall sums.now }
    requires within { end < length sums.now }
    ensures trail { IfOk result (λ stops. (sum : ℕ) → sum_at sums.now end ≡ Some sum → IsTrail (plain_steps steps.now) stops.items (numbered_wire end, sum)) }
    ensures within { IfOk result (λ stops. All (λ stop. stop.0.0 < length steps.now.starts.items) stops.items) }
{
    let mut stops = Vec::new(alloc);
    walk_back(steps, sums, end, &mut stops)?;
    stops.reverse();
    Ok(stops)
}
