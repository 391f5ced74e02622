//! The greatest sum of units with which each node is reached: a search backwards, depth first and without recursion. A node
//! waits on the path until all before it have their sums, and looks at them again each time that one of them has.

ghost use Rattle.std.specs.Prelude.{◌≡◌, ◌<◌, ◌-◌, ◌+◌, ◌^◌, ℕ, true, [], All, IfOk, OnOk, Some, None, get_or, length, option_map};
ghost use Rattle.std.specs.Option.{IfNone, IfSome, OnSome};
ghost use Rattle.fab_timing.specs.inner.Arrivals.{IsRanked, IsLatest, later_of, by_steps, latest_by};
ghost use Rattle.fab_timing.specs.inner.Tables.{plain_steps, sum_at, before_in, IsShortStep, AreTables, AreSums, AreSmall};
ghost use Rattle.fab_timing.specs.inner.Search.{IsSearch, StaysMet, is_settled, mark_at, unsettled};

use crate::steps::Steps;
use fab_base::Memory;
use std::alloc::Global;

/// How far the search is with a node.
#[derive(Clone, Copy, Debug)]
enum Mark {
    /// It was not met yet.
    New,
    /// It is on the path.
    Waiting,
    /// It has its sum.
    Settled,
}

impl Mark {
    fn is_settled(self) -> bool
        ensures { result ≡ is_settled self }
    {
        match self {
            Mark::Settled => true,
            Mark::New | Mark::Waiting => false,
        }
    }
}

// The greater of two sums, where one may be missing.
fn later(first: Option<u64>, second: Option<u64>) -> Option<u64>
    ensures { result ≡ later_of first second }
{
    let Some(sum) = first else {
        return second;
    };
    match second {
        None => first,
        Some(other) => Some(sum.max(other)),
    }
}

// The sum behind a step.
fn stepped(sum: Option<u64>, units: u32) -> Option<u64>
    requires { IfSome sum (λ sum. sum + units < 2 ^ 64) }
    ensures { result ≡ option_map (λ sum. sum + units) sum }
{
    match sum {
        None => None,
        Some(sum) => Some(sum + u64::from(units)),
    }
}

// The greatest of a sum and of what steps give.
fn latest_from(first: Option<u64>, before: &[(u32, u32)], sums: &[Option<u64>]) -> Option<u64>
    requires steps { All (IsShortStep (length sums.now)) before.now }
    requires few { length sums.now < 2 ^ 32 }
    requires small { AreSmall sums.now }
    ensures { result ≡ later_of first (by_steps (sum_at sums.now) before.now) }
{
    let mut latest = first;
    for (from, units) in before {
        latest = later(latest, stepped(sums[*from as usize], *units));
    }
    latest
}

// What a node has by its start and by the nodes before it.
fn latest_by(steps: &Steps, sums: &[Option<u64>], node: usize) -> Option<u64>
    requires tables { AreTables steps.now }
    requires len { length sums.now ≡ length steps.now.starts.items }
    requires small { AreSmall sums.now }
    requires within { node < length sums.now }
    ensures { result ≡ latest_by (plain_steps steps.now) (sum_at sums.now) node }
{
    let first = steps.starts[node].map(u64::from);
    latest_from(first, &steps.before[node], sums)
}

// The first node of some steps that is not settled.
fn unsettled_in(marks: &[Mark], before: &[(u32, u32)]) -> Option<u32>
    requires { All (IsShortStep (length marks.now)) before.now }
    ensures { result ≡ unsettled marks.now before.now }
{
    for (from, _units) in before {
        if !marks[*from as usize].is_settled() {
            return Some(*from);
        }
    }
    None
}

// The first node before a node that is not settled.
fn unsettled_before(steps: &Steps, marks: &[Mark], node: usize) -> Option<u32>
    requires tables { AreTables steps.now }
    requires len { length marks.now ≡ length steps.now.starts.items }
    requires within { node < length marks.now }
    ensures { result ≡ unsettled marks.now (before_in steps.now.before.items node) }
{
    unsettled_in(marks, &steps.before[node])
}

fn last(path: &[usize]) -> Option<usize>
    ensures none { IfNone result (path.now ≡ []) }
    ensures some { OnSome result (0 < length path.now) }
    ensures last { IfSome result (λ node. node ≡ get_or path.now (length path.now - 1) 0) }
{
    path.last().copied()
}

// Goes on from the last node of the path until the path is empty.
fn follow(
    steps: &Steps,
    marks: &mut [Mark],
    sums: &mut [Option<u64>],
    path: &mut Vec<usize>,
) -> Result<(), Memory>
    requires tables { AreTables steps.now }
    requires ranked { (rank : ℕ → ℕ) × IsRanked (plain_steps steps.now) rank }
    requires search { IsSearch steps.now marks.old sums.old path.old.items }
    ensures search { OnOk result (IsSearch steps.now marks.new sums.new []) }
    ensures empty { OnOk result (path.new.items ≡ []) }
    ensures met { OnOk result (StaysMet marks.old marks.new) }
{
    while let Some(node) = last(path) {
        match unsettled_before(steps, marks, node) {
            None => {
                sums[node] = latest_by(steps, sums, node);
                marks[node] = Mark::Settled;
                path.pop();
            }
            Some(from) => {
                path.push(from as usize)?;
                marks[from as usize] = Mark::Waiting;
            }
        }
    }
    Ok(())
}

// Settles a node with all before it, where the path is empty.
fn settle(
    steps: &Steps,
    node: usize,
    marks: &mut [Mark],
    sums: &mut [Option<u64>],
    path: &mut Vec<usize>,
) -> Result<(), Memory>
    requires tables { AreTables steps.now }
    requires ranked { (rank : ℕ → ℕ) × IsRanked (plain_steps steps.now) rank }
    requires within { node < length steps.now.starts.items }
    requires empty { path.old.items ≡ [] }
    requires search { IsSearch steps.now marks.old sums.old [] }
    ensures search { OnOk result (IsSearch steps.now marks.new sums.new []) }
    ensures empty { OnOk result (path.new.items ≡ []) }
    ensures met { OnOk result (StaysMet marks.old marks.new) }
    ensures settled { OnOk result (is_settled (mark_at marks.new node) ≡ true) }
{
    if marks[node].is_settled() {
        return Ok(());
    }
    path.push(node)?;
    marks[node] = Mark::Waiting;
    follow(steps, marks, sums, path)
}

// Settles one node after another.
fn settle_each(
    steps: &Steps,
    marks: &mut [Mark],
    sums: &mut [Option<u64>],
    path: &mut Vec<usize>,
) -> Result<(), Memory>
    requires tables { AreTables steps.now }
    requires ranked { (rank : ℕ → ℕ) × IsRanked (plain_steps steps.now) rank }
    requires empty { path.old.items ≡ [] }
    requires search { IsSearch steps.now marks.old sums.old [] }
    ensures search { OnOk result (IsSearch steps.now marks.new sums.new []) }
    ensures settled { OnOk result ((node : ℕ) → node < length steps.now.starts.items → is_settled (mark_at marks.new node) ≡ true) }
{
    for node in 0..steps.starts.len() {
        settle(steps, node, marks, sums, path)?;
    }
    Ok(())
}

/// The greatest sum of units with which a walk from a start comes to each node, none where no walk comes. It takes time
/// for each node and each step. Ranks that grow along steps are a premise: there is no cycle that it might go round.
pub fn settle_all(alloc: Global, steps: &Steps) -> Result<Vec<Option<u64>>, Memory>
    requires tables { AreTables steps.now }
    requires ranked { (rank : ℕ → ℕ) × IsRanked (plain_steps steps.now) rank }
    ensures len { IfOk result (λ sums. length sums.items ≡ length steps.now.starts.items) }
    ensures latest { IfOk result (λ sums. (node : ℕ) → IsLatest (plain_steps steps.now) node (sum_at sums.items node)) }
    ensures sums { IfOk result (λ sums. AreSums steps.now sums.items) }
    ensures small { IfOk result (λ sums. AreSmall sums.items) }
{
    let mut marks = vec![in alloc; Mark::New; steps.starts.len()]?;
    let mut sums = vec![in alloc; None; steps.starts.len()]?;
    let mut path = Vec::new(alloc);
    settle_each(steps, &mut marks, &mut sums, &mut path)?;
    Ok(sums)
}
