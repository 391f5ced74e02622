//! Rounds until no node is shared, or up to a limit.
ghost use Rattle.std.specs.Prelude.{◌≡◌, ℕ, ◌+◌, ◌-◌, ◌<◌, ◌≤◌, ◌^◌, [], length, map, slice_index, IfOk, IfErr, IfSome, IfNone};
ghost use Rattle.std.specs.List.{All};
ghost use Rattle.fab_astar.specs.Scene.{IsGraph, IsBound};
ghost use Rattle.fab_astar.specs.Tables.{AreTables, count_of, users_of};
ghost use Rattle.fab_pathfinder.specs.declared.hope.Patience.TheVariants.{Endless};
ghost use Rattle.fab_pathfinder.specs.Rounds.{Run, IsCutOff, users, no_trees, last_trees};
ghost use Rattle.fab_pathfinder.specs.Plain.{nets_of, trees_of, rounds_of, IsInside, most_routed_nets};

use crate::hope::{Hope, Patience};
use crate::net::{CutOff, Net};
use crate::round::run_round;
use crate::tree::{Round, Tree};
use fab_astar::{Field, Tables};
use fab_base::Memory;
use fab_progress::{Progress, Step};
use std::alloc::Global;

/// A run, and the least node that its last round leaves in two trees.
#[derive(Drop)]
pub struct Routed {
    pub rounds: Vec<Round>,
    pub shared: Option<u32>,
}

/// A tree of no walks for each net.
fn bare_trees(alloc: Global, count: usize) -> Result<Vec<Tree>, Memory>
    ensures count { IfOk result (λ trees. length trees.items ≡ count) }
    ensures bare { IfOk result (λ trees. All (λ tree. tree.nodes.items ≡ []) trees.items) }
    ensures walks { IfOk result (λ trees. All (λ tree. tree.lengths.items ≡ []) trees.items) }
{
    let mut trees = Vec::with_capacity(alloc, count)?;
    for _ in 0..count {
        trees.push(Tree {
            nodes: Vec::new(alloc),
            lengths: Vec::new(alloc),
        })?;
    }
    Ok(trees)
}

/// The nodes that stand in several trees: the least of them, and how many there are.
#[derive(Drop)]
struct Shared {
    least: Option<u32>,
    count: usize,
}

/// Looks for the nodes that stand in several trees.
fn shared_nodes(tables: &Tables, nodes: u32) -> Shared
    requires { count_of tables.now ≡ nodes }
    ensures found { IfSome result.least (λ w. 2 ≤ users_of tables.now w) }
    ensures least { IfSome result.least (λ w. (v : ℕ) → v < w → users_of tables.now v ≤ 1) }
    ensures none { IfNone result.least ((w : ℕ) → users_of tables.now w ≤ 1) }
{
    let mut shared = Shared {
        least: None,
        count: 0,
    };
    for node in 0..nodes {
        if tables.users(node) >= 2 {
            shared.count += 1;
            shared.least = shared.least.or(Some(node));
        }
    }
    shared
}

/// Adds to each node what its shared use in this round adds to its price.
fn remember(past: &mut Vec<u32>, tables: &Tables)
    requires long { length past.old.items ≡ count_of tables.now }
    requires nodes { count_of tables.now < 2 ^ 32 }
    requires room { (w : ℕ) → slice_index past.old.items w + users_of tables.now w < 2 ^ 32 }
    ensures long { length past.new.items ≡ length past.old.items }
    ensures past { (w : ℕ) → slice_index past.new.items w ≡ slice_index past.old.items w + (users_of tables.now w - 1) }
{
    for at in 0..past.len() {
        past[at] += tables.users(at as u32).saturating_sub(1);
    }
}

/// The trees of the last round, or those before the first.
fn latest<'a>(rounds: &'a [Round], bare: &'a [Tree]) -> &'a [Tree]
    ensures { trees_of result.now ≡ last_trees (trees_of bare.now) (rounds_of rounds.now) }
{
    if rounds.len() == 0 {
        return bare;
    }
    &rounds[rounds.len() - 1].trees
}

/// Rounds over nets in a graph of so many nodes, until no node stands in two trees, or up to a limit. An `Err` tells of the first net with a
/// sink that no walk from its roots comes to, and of its first such sink. The bounds on nets and rounds keep each price below 2^42.
pub fn run_rounds<F: Field, P: Progress>(
    alloc: Global,
    progress: &mut P,
    field: &F,
    nodes: u32,
    nets: &[Net],
    limit: u32,
) -> Result<Result<Routed, CutOff>, Memory>
    requires graph { IsGraph (F.graph field.now) }
    requires bound { IsBound (F.graph field.now) (F.rest field.now) }
    requires nodes { (F.graph field.now).nodes ≡ nodes }
    requires nets { All (IsInside (F.graph field.now).nodes) nets.now }
    requires few { length nets.now ≤ most_routed_nets }
    requires limit { limit ≤ 64 }
    ensures run { IfOk result (λ done. IfOk done (λ routed. Run (F.graph field.now) (nets_of nets.now) (rounds_of routed.rounds.items)
        (last_trees (no_trees (nets_of nets.now)) (rounds_of routed.rounds.items)))) }
    ensures apart { IfOk result (λ done. IfOk done (λ routed. IfNone routed.shared ((w : ℕ) →
        users (last_trees (no_trees (nets_of nets.now)) (rounds_of routed.rounds.items)) w ≤ 1))) }
    ensures shared { IfOk result (λ done. IfOk done (λ routed. IfSome routed.shared (λ w.
        2 ≤ users (last_trees (no_trees (nets_of nets.now)) (rounds_of routed.rounds.items)) w))) }
    ensures least { IfOk result (λ done. IfOk done (λ routed. IfSome routed.shared (λ w. (v : ℕ) → v < w →
        users (last_trees (no_trees (nets_of nets.now)) (rounds_of routed.rounds.items)) v ≤ 1))) }
    ensures begun { IfOk result (λ done. IfOk done (λ routed. 1 ≤ limit → 1 ≤ length routed.rounds.items)) }
    ensures limit { IfOk result (λ done. IfOk done (λ routed. length routed.rounds.items ≤ limit)) }
    ensures all { IfOk result (λ done. IfOk done (λ routed. IfSome routed.shared (λ _. length routed.rounds.items ≡ limit))) }
    ensures cut_off { IfOk result (λ done. IfErr done (λ cut. IsCutOff (F.graph field.now) (nets_of nets.now) cut.net cut.sink)) }
{
    negotiate(
        alloc,
        progress,
        field,
        nodes,
        nets,
        limit,
        Patience::Endless,
    )
}

/// Rounds as those of `run_rounds`, but only while they get better: they end as soon as the count of shared nodes does not get to its half
/// within 8 rounds, while it is above 32.
pub fn try_rounds<F: Field, P: Progress>(
    alloc: Global,
    progress: &mut P,
    field: &F,
    nodes: u32,
    nets: &[Net],
    limit: u32,
) -> Result<Result<Routed, CutOff>, Memory>
    requires graph { IsGraph (F.graph field.now) }
    requires bound { IsBound (F.graph field.now) (F.rest field.now) }
    requires nodes { (F.graph field.now).nodes ≡ nodes }
    requires nets { All (IsInside (F.graph field.now).nodes) nets.now }
    requires few { length nets.now ≤ most_routed_nets }
    requires limit { limit ≤ 64 }
    ensures run { IfOk result (λ done. IfOk done (λ routed. Run (F.graph field.now) (nets_of nets.now) (rounds_of routed.rounds.items)
        (last_trees (no_trees (nets_of nets.now)) (rounds_of routed.rounds.items)))) }
    ensures apart { IfOk result (λ done. IfOk done (λ routed. IfNone routed.shared ((w : ℕ) →
        users (last_trees (no_trees (nets_of nets.now)) (rounds_of routed.rounds.items)) w ≤ 1))) }
    ensures shared { IfOk result (λ done. IfOk done (λ routed. IfSome routed.shared (λ w.
        2 ≤ users (last_trees (no_trees (nets_of nets.now)) (rounds_of routed.rounds.items)) w))) }
    ensures least { IfOk result (λ done. IfOk done (λ routed. IfSome routed.shared (λ w. (v : ℕ) → v < w →
        users (last_trees (no_trees (nets_of nets.now)) (rounds_of routed.rounds.items)) v ≤ 1))) }
    ensures begun { IfOk result (λ done. IfOk done (λ routed. 1 ≤ limit → 1 ≤ length routed.rounds.items)) }
    ensures limit { IfOk result (λ done. IfOk done (λ routed. length routed.rounds.items ≤ limit)) }
    ensures late { IfOk result (λ done. IfOk done (λ routed. IfSome routed.shared (λ _. length routed.rounds.items < limit → 8 ≤ length routed.rounds.items))) }
    ensures cut_off { IfOk result (λ done. IfErr done (λ cut. IsCutOff (F.graph field.now) (nets_of nets.now) cut.net cut.sink)) }
{
    negotiate(
        alloc,
        progress,
        field,
        nodes,
        nets,
        limit,
        Patience::WhileHopeful,
    )
}

/// Rounds of `run_rounds` or of `try_rounds`, by how patient they are.
fn negotiate<F: Field, P: Progress>(
    alloc: Global,
    progress: &mut P,
    field: &F,
    nodes: u32,
    nets: &[Net],
    limit: u32,
    patience: Patience,
) -> Result<Result<Routed, CutOff>, Memory>
    requires graph { IsGraph (F.graph field.now) }
    requires bound { IsBound (F.graph field.now) (F.rest field.now) }
    requires nodes { (F.graph field.now).nodes ≡ nodes }
    requires nets { All (IsInside (F.graph field.now).nodes) nets.now }
    requires few { length nets.now ≤ most_routed_nets }
    requires limit { limit ≤ 64 }
    ensures run { IfOk result (λ done. IfOk done (λ routed. Run (F.graph field.now) (nets_of nets.now) (rounds_of routed.rounds.items)
        (last_trees (no_trees (nets_of nets.now)) (rounds_of routed.rounds.items)))) }
    ensures apart { IfOk result (λ done. IfOk done (λ routed. IfNone routed.shared ((w : ℕ) →
        users (last_trees (no_trees (nets_of nets.now)) (rounds_of routed.rounds.items)) w ≤ 1))) }
    ensures shared { IfOk result (λ done. IfOk done (λ routed. IfSome routed.shared (λ w.
        2 ≤ users (last_trees (no_trees (nets_of nets.now)) (rounds_of routed.rounds.items)) w))) }
    ensures least { IfOk result (λ done. IfOk done (λ routed. IfSome routed.shared (λ w. (v : ℕ) → v < w →
        users (last_trees (no_trees (nets_of nets.now)) (rounds_of routed.rounds.items)) v ≤ 1))) }
    ensures begun { IfOk result (λ done. IfOk done (λ routed. 1 ≤ limit → 1 ≤ length routed.rounds.items)) }
    ensures limit { IfOk result (λ done. IfOk done (λ routed. length routed.rounds.items ≤ limit)) }
    ensures all { patience ≡ Endless → IfOk result (λ done. IfOk done (λ routed. IfSome routed.shared (λ _. length routed.rounds.items ≡ limit))) }
    ensures late { IfOk result (λ done. IfOk done (λ routed. IfSome routed.shared (λ _. length routed.rounds.items < limit → 8 ≤ length routed.rounds.items))) }
    ensures cut_off { IfOk result (λ done. IfErr done (λ cut. IsCutOff (F.graph field.now) (nets_of nets.now) cut.net cut.sink)) }
{
    let mut tables = Tables::new(alloc, nodes)?;
    let mut past = vec![in alloc; 0; nodes as usize]?;
    let bare = bare_trees(alloc, nets.len())?;
    let mut rounds: Vec<Round> = Vec::new(alloc);
    let mut shared = None;
    let mut hope = Hope::new();
    for number in 0..limit {
        let old = latest(&rounds, &bare);
        let trees = match run_round(alloc, field, &mut tables, &past, number, nets, old)? {
            Ok(trees) => trees,
            Err(cut) => return Ok(Err(cut)),
        };
        let left = shared_nodes(&tables, nodes);
        progress.tell(Step::Routing {
            round: number + 1,
            shared: left.count,
        });
        remember(&mut past, &tables);
        rounds.push(Round { trees })?;
        if left.least.is_none() {
            return Ok(Ok(Routed {
                rounds,
                shared: None,
            }));
        }
        shared = left.least;
        hope = hope.after(left.count);
        if hope.is_lost(patience) {
            return Ok(Ok(Routed { rounds, shared }));
        }
    }
    Ok(Ok(Routed { rounds, shared }))
}
