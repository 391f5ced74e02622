//! The hops of edges: from which class they lead to which, and how far.

ghost use Rattle.std.specs.Prelude.{◌≡◌, ◌<◌, ◌≤◌, ℕ, IsTrue, ◌↔◌, IfOk, OnOk, All, length, Contains};
ghost use Rattle.fab_route.specs.inner.Guided.{IsWindow, IsWithin, place_at, HasHop, HaveHops, KeepHops};
ghost use Rattle.fab_route.specs.Plain.{graph_of};
ghost use Rattle.fab_astar.specs.Scene.{IsGraph};

use crate::classes::Place;
use crate::nodes::Nodes;
use crate::window::Window;
use fab_astar::Field;
use fab_base::Memory;
use std::alloc::Global;

/// From a class so many tiles across and down, which are 32 where nothing changes.
#[derive(Clone, Copy, PartialEq, Eq)]
pub struct Hop {
    pub from: u32,
    pub across: u32,
    pub down: u32,
}

/// For each class the hops that lead to it.
pub(crate) fn hops_of(
    alloc: Global,
    nodes: &Nodes,
    places: &Vec<Place>,
    _window: Window,
    classes: usize,
) -> Result<Vec<Vec<Hop>>, Memory>
    requires graph { IsGraph (graph_of nodes.now) }
    requires window { IsWindow _window }
    requires long { length places.now.items ≡ (graph_of nodes.now).nodes }
    requires within { All (IsWithin _window classes) places.now.items }
    ensures many { IfOk result (λ hops. length hops.items ≡ classes) }
    ensures hops { IfOk result (λ hops. HaveHops (graph_of nodes.now) places.now.items (graph_of nodes.now).nodes hops.items) }
{
    let mut hops = no_hops(alloc, classes)?;
    for node in 0..nodes.count() {
        let from = places[node as usize];
        add_hops(&mut hops, places, _window, classes, from, nodes.ends(node))?;
    }
    Ok(hops)
}

fn no_hops(alloc: Global, classes: usize) -> Result<Vec<Vec<Hop>>, Memory>
    ensures { IfOk result (λ hops. length hops.items ≡ classes) }
{
    let mut hops = Vec::with_capacity(alloc, classes)?;
    for _class in 0..classes {
        hops.push(Vec::new(alloc))?;
    }
    Ok(hops)
}

// The hops from a place to those of some nodes.
fn add_hops(
    hops: &mut Vec<Vec<Hop>>,
    places: &Vec<Place>,
    _window: Window,
    _classes: usize,
    from: Place,
    ends: &[u32],
) -> Result<(), Memory>
    requires window { IsWindow _window }
    requires many { length hops.old.items ≡ _classes }
    requires within { All (IsWithin _window _classes) places.now.items }
    requires from { IsWithin _window _classes from }
    requires ends { All (λ end. end < length places.now.items) ends.now }
    ensures kept { OnOk result (KeepHops hops.old.items hops.new.items) }
    ensures added { OnOk result (All (λ end. HasHop hops.new.items from (place_at places.now.items end)) ends.now) }
{
    for end in ends {
        add_hop(hops, _window, _classes, from, places[*end as usize])?;
    }
    Ok(())
}

fn add_hop(
    hops: &mut Vec<Vec<Hop>>,
    _window: Window,
    _classes: usize,
    from: Place,
    to: Place,
) -> Result<(), Memory>
    requires window { IsWindow _window }
    requires many { length hops.old.items ≡ _classes }
    requires from { IsWithin _window _classes from }
    requires to { IsWithin _window _classes to }
    ensures kept { OnOk result (KeepHops hops.old.items hops.new.items) }
    ensures added { OnOk result (HasHop hops.new.items from to) }
{
    let hop = Hop {
        from: from.class,
        across: to.column + 32 - from.column,
        down: to.row + 32 - from.row,
    };
    if is_known(&hops[to.class as usize], hop) {
        return Ok(());
    }
    hops[to.class as usize].push(hop)?;
    Ok(())
}

fn is_known(hops: &[Hop], hop: Hop) -> bool
    ensures { IsTrue result ↔ Contains hops.now hop }
{
    hops.contains(&hop)
}
