//! The tree of one net.
ghost use Rattle.std.specs.Prelude.{◌≡◌, ℕ, ◌<◌, ◌≤◌, false, [], length, map, slice_index_or, OnOk, IfOk, IfErr};
ghost use Rattle.std.specs.List.{All};
ghost use Rattle.fab_astar.specs.Walks.{HasNoWalk};
ghost use Rattle.fab_astar.specs.Scene.{IsGraph, IsBound, ArePrices};
ghost use Rattle.fab_astar.specs.Tables.{AreTables, count_of, price_of, prices, counts, is_held};
ghost use Rattle.fab_pathfinder.specs.Rounds.{AreGrown, HasWalk};
ghost use Rattle.fab_pathfinder.specs.Plain.{goals_of, paths_of, IsInside};

use crate::net::Net;
use crate::tree::Tree;
use fab_astar::{Field, Tables, least_walk};
use fab_base::Memory;
use std::alloc::Global;

/// Grows the tree of a net, sink by sink; an `Err` is the number of the first sink that no walk comes to.
pub(crate) fn grow<F: Field>(
    alloc: Global,
    field: &F,
    tables: &mut Tables,
    net: &Net,
) -> Result<Result<Tree, usize>, Memory>
    requires graph { IsGraph (F.graph field.now) }
    requires bound { IsBound (F.graph field.now) (F.rest field.now) }
    requires prices { ArePrices (F.graph field.now).nodes (price_of tables.old) }
    requires tables { AreTables tables.old }
    requires count { count_of tables.old ≡ (F.graph field.now).nodes }
    requires free { (node : ℕ) → is_held tables.old node ≡ false }
    requires net { IsInside (F.graph field.now).nodes net.now }

    ensures tables { OnOk result (AreTables tables.new) }
    ensures count { OnOk result (count_of tables.new ≡ count_of tables.old) }
    ensures price { OnOk result (prices tables.new ≡ prices tables.old) }
    ensures users { OnOk result (counts tables.new ≡ counts tables.old) }

    ensures grown { IfOk result (λ grown. IfOk grown (λ tree. AreGrown (F.graph field.now) net.now.roots.items (price_of tables.old) [] (goals_of net.now.sinks.items) (paths_of tree))) }
    ensures inside { IfOk result (λ grown. IfOk grown (λ tree. All (λ w. w < (F.graph field.now).nodes) tree.nodes.items)) }
    ensures sink { IfOk result (λ grown. IfErr grown (λ sink. sink < length net.now.sinks.items)) }
    ensures apart { IfOk result (λ grown. IfErr grown (λ sink. HasNoWalk (F.graph field.now) [] net.now.roots.items (slice_index_or (goals_of net.now.sinks.items) sink []))) }
    ensures before { IfOk result (λ grown. IfErr grown (λ sink. (s : ℕ) → s < sink → HasWalk (F.graph field.now) net.now.roots.items (slice_index_or (goals_of net.now.sinks.items) s []))) }
{
    let mut nodes = Vec::new(alloc);
    let mut lengths = Vec::new(alloc);
    for number in 0..net.sinks.len() {
        let sink = &net.sinks[number];
        let from = nodes.len();
        if !least_walk(field, tables, &net.roots, &sink.goals, sink.aim, &mut nodes)? {
            return Ok(Err(number));
        }
        lengths.push(nodes.len() - from)?;
    }
    Ok(Ok(Tree { nodes, lengths }))
}
