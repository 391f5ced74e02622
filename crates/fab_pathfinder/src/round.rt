//! A round over all nets.
ghost use Rattle.std.specs.Prelude.{◌≡◌, ℕ, ◌+◌, ◌<◌, ◌≤◌, ◌^◌, [], length, map, slice_index, slice_index_or, OnOk, IfOk, IfErr};
ghost use Rattle.std.specs.List.{All};
ghost use Rattle.fab_astar.specs.Scene.{IsGraph, IsBound};
ghost use Rattle.fab_astar.specs.Tables.{AreTables, count_of, users_of};
ghost use Rattle.fab_pathfinder.specs.Rounds.{IsRound, IsCutOff, users};
ghost use Rattle.fab_pathfinder.specs.Plain.{nets_of, trees_of, IsInside, most_routed_nets};
ghost use Rattle.fab_pathfinder.specs.inner.Prices.{ArePriced, IsPast};

use crate::counts::{give_up, price, take_up};
use crate::grow::grow;
use crate::net::{CutOff, Net};
use crate::tree::Tree;
use fab_astar::{Field, Tables};
use fab_base::Memory;
use std::alloc::Global;

/// Sets each node's price for a round.
fn price_all(tables: &mut Tables, past: &[u32], round: u32)
    requires tables { AreTables tables.old }
    requires past { IsPast past.now round tables.old }
    requires few { (w : ℕ) → users_of tables.old w ≤ most_routed_nets }
    requires nodes { count_of tables.old < 2 ^ 32 }
    ensures tables { AreTables tables.new }
    ensures count { count_of tables.new ≡ count_of tables.old }
    ensures users { (w : ℕ) → users_of tables.new w ≡ users_of tables.old w }
    ensures priced { ArePriced past.now round tables.new }
{
    for at in 0..past.len() {
        let node = at as u32;
        let users = tables.users(node);
        tables.charge(node, users, price(past[at], round, users));
    }
}

/// One round: each net in order gives up its tree and grows a new one. An `Err` tells of the first net that is cut off from a sink.
pub(crate) fn run_round<F: Field>(
    alloc: Global,
    field: &F,
    tables: &mut Tables,
    past: &[u32],
    round: u32,
    nets: &[Net],
    old: &[Tree],
) -> Result<Result<Vec<Tree>, CutOff>, Memory>
    requires graph { IsGraph (F.graph field.now) }
    requires bound { IsBound (F.graph field.now) (F.rest field.now) }
    requires tables { AreTables tables.old }
    requires count { count_of tables.old ≡ (F.graph field.now).nodes }
    requires past { IsPast past.now round tables.old }
    requires few { length nets.now ≤ most_routed_nets }
    requires nets { All (IsInside (F.graph field.now).nodes) nets.now }
    requires old { length old.now ≡ length nets.now }
    requires inside { All (λ tree. All (λ w. w < (F.graph field.now).nodes) tree.nodes.items) old.now }
    requires counted { (w : ℕ) → users_of tables.old w ≡ users (trees_of old.now) w }

    ensures tables { OnOk result (AreTables tables.new) }
    ensures count { OnOk result (count_of tables.new ≡ count_of tables.old) }
    ensures inside { IfOk result (λ done. IfOk done (λ new. All (λ tree. All (λ w. w < (F.graph field.now).nodes) tree.nodes.items) new.items)) }
    ensures counted { IfOk result (λ done. IfOk done (λ new. (w : ℕ) → users_of tables.new w ≡ users (trees_of new.items) w)) }

    ensures round { IfOk result (λ done. IfOk done (λ new. IsRound (F.graph field.now) (nets_of nets.now) (slice_index past.now) round (trees_of old.now) (trees_of new.items))) }
    ensures cut_off { IfOk result (λ done. IfErr done (λ cut. IsCutOff (F.graph field.now) (nets_of nets.now) cut.net cut.sink)) }
{
    price_all(tables, past, round);
    let mut new = Vec::with_capacity(alloc, nets.len())?;
    for net in 0..nets.len() {
        let tree = &old[net];
        give_up(tables, past, round, &tree.nodes);
        tables.release();
        match grow(alloc, field, tables, &nets[net])? {
            Ok(tree) => {
                take_up(tables, past, round, &tree.nodes);
                new.push(tree)?;
            }
            Err(sink) => return Ok(Err(CutOff { net, sink })),
        }
    }
    Ok(Ok(new))
}
