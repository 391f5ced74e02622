//! The search itself: nodes are settled in the order of what walks through them pay at least.
ghost use Rattle.std.specs.Prelude.{◌≡◌, ◌⊎◌, ℕ, ◌+◌, ◌*◌, ◌<◌, ◌≤◌, ◌^◌, Bool, false, List, [], ◌++◌, length, Some, if◌then◌else◌, OnOk, IfOk, IfSome, IfNone};
ghost use Rattle.std.specs.List.{All, Contains};
ghost use Rattle.fab_astar.specs.Walks.{Walk, has, paid, HasNoWalk};
ghost use Rattle.fab_astar.specs.Queue.{IsQueue, size};
ghost use Rattle.fab_astar.specs.Scene.{IsScene, left, scene_of};
ghost use Rattle.fab_astar.specs.State.{IsShaped, IsSeen, cost, AreTraced, AreSeeded, IsSearch, IsClosing, IsClosed, Grows};
ghost use Rattle.fab_astar.specs.Tables.{state_of, count_of, price_of, prices, is_held, IsKept};

use crate::field::Field;
use crate::tables::Tables;
use fab_base::Memory;

/// By how much each of up to two other nets makes the step to a node longer.
const CROWD: u32 = 8;

/// The end of the best walk so far. Entries whose keys are not below the limit are of no use.
#[derive(Clone, Copy)]
struct Best {
    limit: u64,
    end: Option<u32>,
}

/// What is left to pay from a node on, at least; 0 where no bound is to be used.
pub(crate) fn left<F: Field>(field: &F, guide: Option<u32>, node: u32) -> u32
    requires { node < (F.graph field.now).nodes }
    ensures { result ≡ left (F.rest field.now) guide node }
{
    match guide {
        Some(aim) => field.rest(aim, node),
        None => 0,
    }
}

/// What a net pays to begin at a node.
fn toll(tables: &Tables, node: u32) -> u64
    requires { node < count_of tables.now }
    ensures { result ≡ (if is_held tables.now node then 0 else price_of tables.now node) }
{
    if tables.is_held(node) {
        return 0;
    }
    tables.price(node)
}

/// When a signal is due where a bound aims, if it is at a node at this time.
pub(crate) fn due_by<F: Field>(field: &F, guide: Option<u32>, node: u32, arrival: u32) -> u32
    requires { node < (F.graph field.now).nodes }
{
    match guide {
        Some(aim) => arrival.saturating_add(field.ahead(aim, node)),
        None => arrival,
    }
}

/// When a signal is at a node, by a step from one where it is at this time. The step to a node that other nets have counts as a longer one:
/// nets that keep out of each other's way, where that takes little, need fewer detours in the end.
fn arrival_at<F: Field>(field: &F, tables: &Tables, node: u32, before: u32) -> u32
    requires node { node < (F.graph field.now).nodes }
    requires count { count_of tables.now ≡ (F.graph field.now).nodes }
{
    let crowd = CROWD * tables.users(node).min(2);
    before
        .saturating_add(field.delay(node))
        .saturating_add(crowd)
}

/// When a signal is at a node where walks begin: at one of the tree when it came there, and at a root from the beginning.
fn start_of(tables: &Tables, node: u32) -> u32
    requires { node < count_of tables.now }
{
    if tables.is_held(node) {
        return tables.arrival(node);
    }
    0
}

/// Offers starts, behind others that have been offered.
pub(crate) fn seed<F: Field>(
    field: &F,
    guide: Option<u32>,
    tables: &mut Tables,
    _tree: &[u32],
    _before: &[u32],
    starts: &[u32],
) -> Result<(), Memory>
    requires scene { IsScene (scene_of (F.graph field.now) (F.rest field.now) guide _tree.now (prices tables.old)) }
    requires count { count_of tables.old ≡ (F.graph field.now).nodes }
    requires held { (node : ℕ) → is_held tables.old node ≡ has _tree.now node }
    requires starts { All (λ w. w < (F.graph field.now).nodes) starts.now }
    requires queue { IsQueue tables.old.queue }
    requires seeded { AreSeeded (scene_of (F.graph field.now) (F.rest field.now) guide _tree.now (prices tables.old)) _before.now (state_of tables.old) tables.old.queue (length _before.now) }
    ensures queue { OnOk result (IsQueue tables.new.queue) }
    ensures kept { OnOk result (IsKept tables.old tables.new) }
    ensures seeded { OnOk result (AreSeeded (scene_of (F.graph field.now) (F.rest field.now) guide _tree.now (prices tables.old))
        (_before.now ++ starts.now) (state_of tables.new) tables.new.queue (length (_before.now ++ starts.now))) }
{
    for start in starts {
        let cost = toll(tables, *start);
        if !tables.improves(*start, cost) {
            continue;
        }
        let key = cost + left(field, guide, *start) as u64;
        let arrival = start_of(tables, *start);
        let due = due_by(field, guide, *start, arrival);
        tables.take(*start, cost, *start, key, arrival, due)?;
    }
    Ok(())
}

/// Offers the nodes to which a node leads that was settled just now.
fn relax<F: Field>(
    field: &F,
    guide: Option<u32>,
    tables: &mut Tables,
    _tree: &[u32],
    _starts: &[u32],
    node: u32,
    limit: u64,
) -> Result<(), Memory>
    requires scene { IsScene (scene_of (F.graph field.now) (F.rest field.now) guide _tree.now (prices tables.old)) }
    requires count { count_of tables.old ≡ (F.graph field.now).nodes }
    requires held { (node : ℕ) → is_held tables.old node ≡ has _tree.now node }
    requires queue { IsQueue tables.old.queue }
    requires search { IsSearch (scene_of (F.graph field.now) (F.rest field.now) guide _tree.now (prices tables.old))
        (_tree.now ++ _starts.now) (state_of tables.old) tables.old.queue }
    requires closing { IsClosing (scene_of (F.graph field.now) (F.rest field.now) guide _tree.now (prices tables.old))
        (_tree.now ++ _starts.now) (state_of tables.old) limit node 0 }
    ensures queue { OnOk result (IsQueue tables.new.queue) }
    ensures kept { OnOk result (IsKept tables.old tables.new) }
    ensures search { OnOk result (IsSearch (scene_of (F.graph field.now) (F.rest field.now) guide _tree.now (prices tables.old))
        (_tree.now ++ _starts.now) (state_of tables.new) tables.new.queue) }
    ensures closed { OnOk result (IsClosed (scene_of (F.graph field.now) (F.rest field.now) guide _tree.now (prices tables.old))
        (_tree.now ++ _starts.now) (state_of tables.new) limit) }
    ensures grows { OnOk result (Grows (state_of tables.old) (state_of tables.new)) }
    ensures size { OnOk result (size tables.new.queue < size tables.old.queue + 2 ^ 64) }
{
    let cost = tables.cost(node);
    let here = tables.arrival(node);
    let ends = field.ends(node);
    for next in ends {
        if tables.is_held(*next) {
            continue;
        }
        let through = cost + 2 * tables.price(*next);
        if !tables.improves(*next, through) {
            continue;
        }
        let key = through + left(field, guide, *next) as u64;
        if key >= limit {
            continue;
        }
        let arrival = arrival_at(field, tables, *next, here);
        let due = due_by(field, guide, *next, arrival);
        tables.take(*next, through, node, key, arrival, due)?;
    }
    Ok(())
}

/// The best end, once a node of this cost is about to be settled.
fn noted(best: Best, goals: &[u32], node: u32, cost: u64) -> Best
    requires { cost + 1 < 2 ^ 64 }
    ensures lower { result.limit ≤ best.limit }
    ensures goal { Contains goals.now node → result.limit ≤ cost + 1 }
    ensures cases { (result ≡ best) ⊎ ((result.end ≡ Some node) × Contains goals.now node × (result.limit ≡ cost + 1)) }
{
    if !goals.contains(&node) || cost + 1 >= best.limit {
        return best;
    }
    Best {
        limit: cost + 1,
        end: Some(node),
    }
}

/// Settles nodes until no walk to a goal can be better than the best one; the goal that is reached, or none.
pub(crate) fn explore<F: Field>(
    field: &F,
    guide: Option<u32>,
    tables: &mut Tables,
    tree: &[u32],
    roots: &[u32],
    goals: &[u32],
) -> Result<Option<u32>, Memory>
    requires scene { IsScene (scene_of (F.graph field.now) (F.rest field.now) guide tree.now (prices tables.old)) }
    requires count { count_of tables.old ≡ (F.graph field.now).nodes }
    requires held { (node : ℕ) → is_held tables.old node ≡ has tree.now node }
    requires near { (goal : ℕ) → Contains goals.now goal → left (F.rest field.now) guide goal ≤ 1 }
    requires queue { IsQueue tables.old.queue }
    requires seeded { AreSeeded (scene_of (F.graph field.now) (F.rest field.now) guide tree.now (prices tables.old))
        (tree.now ++ roots.now) (state_of tables.old) tables.old.queue (length (tree.now ++ roots.now)) }
    ensures queue { OnOk result (IsQueue tables.new.queue) }
    ensures kept { OnOk result (IsKept tables.old tables.new) }
    ensures shape { OnOk result (IsShaped (F.graph field.now).nodes (state_of tables.new)) }
    ensures traced { OnOk result (AreTraced (scene_of (F.graph field.now) (F.rest field.now) guide tree.now (prices tables.old))
        (tree.now ++ roots.now) (state_of tables.new)) }
    ensures seen { IfOk result (λ end. IfSome end (λ goal. IsSeen (state_of tables.new) goal)) }
    ensures goal { IfOk result (λ end. IfSome end (Contains goals.now)) }
    ensures least { IfOk result (λ end. IfSome end (λ goal. (other : ℕ) (path : List ℕ) → Contains goals.now other →
        Walk (F.graph field.now) tree.now (tree.now ++ roots.now) other path →
        cost (state_of tables.new) goal ≤ paid tree.now (price_of tables.old) path)) }
    ensures none { IfOk result (λ end. IfNone end (HasNoWalk (F.graph field.now) tree.now (tree.now ++ roots.now) goals.now)) }
{
    let mut best = Best {
        limit: u64::MAX,
        end: None,
    };
    'turns: while let Some((key, node)) = tables.queue.pop() {
        if !tables.is_open(node) {
            continue;
        }
        best = noted(best, goals, node, tables.cost(node));
        if best.limit <= key {
            return Ok(best.end);
        }
        tables.settle(node);
        relax(field, guide, tables, tree, roots, node, best.limit)?;
    }
    Ok(best.end)
}
