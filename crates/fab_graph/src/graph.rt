//! The edges of a fabric's wires.

ghost use Rattle.std.specs.Prelude.{◌≡◌, ◌<◌, ℕ, Some, IfOk, IfSome, All, length, slice_get};
ghost use Rattle.fab_model.specs.Tiles.{PlainTile};
ghost use Rattle.fab_model.specs.Grid.{tile_at};
ghost use Rattle.fab_fabric.specs.Fabric.{AreTiles, wires_at, wire_count};
ghost use Rattle.fab_ways_laws.specs.Edges.{outputs_of, turned_pairs, ends, origins};
ghost use Rattle.fab_graph.specs.inner.Outputs.{HaveOutputs};

use crate::outputs::{Outputs, type_outputs};
use fab_base::Memory;
use fab_fabric::{Fabric, Wire};
use std::alloc::Global;
use std::marker::Model;

/// A fabric whose edges are found without a search: the outputs of each input of a tile type are kept, and the inputs of
/// each output. Contracts see the fabric.
#[derive(Drop)]
pub struct Graph<'a> {
    fabric: &'a Fabric,
    outputs: Vec<Outputs>,
    inputs: Vec<Outputs>,
}

impl<'a> Model for Graph<'a> {
    ghost use Rattle.std.specs.Prelude.{false, true};
    ghost use Rattle.fab_model.specs.Grid.{PlainFabric};
    ghost use Rattle.fab_graph.specs.inner.Outputs.{HaveOutputs};

    ghost Value = { PlainFabric };

    ghost view = { λ graph. graph.fabric.now };

    ghost invariant = { λ graph. HaveOutputs false graph.fabric.now.types graph.outputs.items × HaveOutputs true graph.fabric.now.types graph.inputs.items };
}

/// The wires at the other ends of the edges of a wire, or of those to it. Contracts see them as a list.
#[derive(Drop)]
pub struct Ends<'a> {
    fabric: &'a Fabric,
    x: u32,
    y: u32,
    outputs: &'a [u32],
    join: Option<Wire>,
}

impl<'a> Model for Ends<'a> {
    ghost use Rattle.std.specs.Prelude.{◌++◌, ◌<◌, List, map, All, IfSome, option_to_list};
    ghost use Rattle.fab_fabric.specs.Fabric.{wires_at, wire_count};
    ghost use Rattle.fab_fabric.specs.declared.wire.Wire.{Wire};
    ghost use Rattle.fab_ways_laws.specs.Edges.{wire_at};

    ghost Value = { List Wire };

    ghost view = { λ ends. map (wire_at ends.fabric.now ends.x ends.y) ends.outputs.now ++ option_to_list ends.join };

    ghost invariant = { λ ends. All (λ output. output < wires_at ends.fabric.now ends.x ends.y) ends.outputs.now };
}

impl<'a> Ends<'a> {
    /// The wire at the end of an edge, and none past the last edge.
    pub fn get(&self, index: usize) -> Option<Wire>
        ensures { result ≡ slice_get self.now index }
    {
        if index < self.outputs.len() {
            return Some(self.fabric.wire_at(self.x, self.y, self.outputs[index]));
        }
        if index == self.outputs.len() {
            return self.join;
        }
        None
    }

    /// The wire at the end of an edge.
    pub fn at(&self, index: usize) -> Wire
        requires { index < length self.now }
        ensures { slice_get self.now index ≡ Some result }
    {
        match self.get(index) {
            Some(end) => end,
            None => unreachable!(),
        }
    }

    /// How many they are.
    pub fn len(&self) -> usize
        ensures { result ≡ length self.now }
    {
        if self.join.is_some() {
            self.outputs.len() + 1
        } else {
            self.outputs.len()
        }
    }
}

impl<'a> Graph<'a> {
    /// The graph of a fabric.
    pub fn new(alloc: Global, fabric: &'a Fabric) -> Result<Graph<'a>, Memory>
        ensures { IfOk result (λ graph. graph ≡ fabric.now) }
    {
        let outputs = type_outputs(alloc, fabric, false)?;
        let inputs = type_outputs(alloc, fabric, true)?;
        Ok(Graph {
            fabric,
            outputs,
            inputs,
        })
    }

    /// How many wires there are.
    pub fn wires(&self) -> u32
        ensures count { result ≡ wire_count self.now }
        ensures are_tiles { AreTiles self.now }
    {
        self.fabric.is_well_made();
        self.fabric.wires()
    }

    /// States what holds of the fabric of every graph, for the calls that rest on it. It does nothing.
    pub fn is_well_made(&self)
        ensures { AreTiles self.now }
    {
        self.fabric.is_well_made();
    }

    /// The wires to which a wire leads.
    pub fn ends(&self, wire: Wire) -> Ends<'_>
        requires { wire.0 < wire_count self.now }
        ensures ends { result ≡ ends self.now wire.0 }
        ensures within { All (λ to. to.0 < wire_count self.now) (ends self.now wire.0) }
        ensures are_tiles { AreTiles self.now }
    {
        self.fabric.is_well_made();
        let (x, y, number) = self.fabric.spot(wire);
        Ends {
            fabric: self.fabric,
            x,
            y,
            outputs: group_in(self.fabric, &self.outputs, false, x, y, number),
            join: self.fabric.join_to(wire),
        }
    }

    /// The wires from which edges lead to a wire.
    pub fn origins(&self, wire: Wire) -> Ends<'_>
        requires { wire.0 < wire_count self.now }
        ensures { result ≡ origins self.now wire.0 }
    {
        let (x, y, number) = self.fabric.spot(wire);
        Ends {
            fabric: self.fabric,
            x,
            y,
            outputs: group_in(self.fabric, &self.inputs, true, x, y, number),
            join: self.fabric.join_from(wire),
        }
    }
}

// The outputs that pairs of the tile at a place join to an input, or the other way round.
fn group_in<'t>(
    fabric: &Fabric,
    tables: &'t Vec<Outputs>,
    turned: bool,
    x: u32,
    y: u32,
    number: u32,
) -> &'t [u32]
    requires tables { HaveOutputs turned fabric.now.types tables.now.items }
    requires number { number < wires_at fabric.now x y }
    ensures outputs { (tile : PlainTile) → tile_at fabric.now x y ≡ Some tile → result.now ≡ outputs_of (turned_pairs turned tile.pairs) number }
    ensures within { All (λ output. output < wires_at fabric.now x y) result.now }
{
    fabric.is_well_made();
    match fabric.type_at(x, y) {
        Some(place) => &tables[place as usize].groups[number as usize],
        None => &[],
    }
}
