//! The inputs of the outputs of switch matrices.

ghost use Rattle.std.specs.Prelude.{◌≡◌, IfOk};
ghost use Rattle.std.specs.Option.{MatchOption};
ghost use Rattle.fab_model.specs.Grid.{tile_at};
ghost use Rattle.fab_fabric.specs.Fabric.{IsFabric, AreTiles};
ghost use Rattle.fab_bits.specs.Keys.{group_at};
ghost use Rattle.fab_features.specs.inner.Matrices.{IsMatrixOf, AreMatricesOf};

use fab_base::Memory;
use fab_fabric::{Fabric, inputs_by_output};
use fab_model::{TileType, outputs_in_order};
use indexmap::IndexSet;
use std::alloc::Global;

/// The switch matrix of a tile type.
#[derive(Debug, Drop)]
pub struct Matrix {
    /// The inputs of each output, in the order of its pairs.
    pub inputs: Vec<Vec<u32>>,
    /// The outputs in the order of their first pairs.
    pub outputs: IndexSet<u32>,
}

impl Matrix {
    /// The switch matrix of this tile type.
    pub fn of(alloc: Global, tile: &TileType) -> Result<Matrix, Memory>
        ensures { IfOk result (IsMatrixOf tile.now) }
    {
        let inputs = inputs_by_output(alloc, tile.matrix_names(), tile.pairs())?;
        let outputs = outputs_in_order(alloc, tile.pairs())?;
        Ok(Matrix { inputs, outputs })
    }

    /// The inputs of an output, in the order of its pairs.
    pub fn inputs_of(&self, output: u32) -> &[u32]
        ensures { result.now ≡ group_at self.now.inputs.items output }
    {
        match self.inputs.get(output as usize) {
            Some(inputs) => inputs,
            None => &[],
        }
    }
}

/// The switch matrices of the tile types of a fabric.
pub fn matrices_of(alloc: Global, fabric: &Fabric) -> Result<Vec<Matrix>, Memory>
    ensures matrices { IfOk result (λ matrices. AreMatricesOf fabric.now.types matrices.items) }
    ensures is_fabric { IfOk result (λ matrices. IsFabric fabric.now) }
    ensures are_tiles { IfOk result (λ matrices. AreTiles fabric.now) }
{
    let types = fabric.types();
    let mut matrices = Vec::new(alloc);
    for tile in types {
        matrices.push(Matrix::of(alloc, tile)?)?;
    }
    Ok(matrices)
}

/// The tile at a place with its switch matrix; none where there is no tile.
pub fn tile_with<'a>(
    fabric: &'a Fabric,
    matrices: &'a [Matrix],
    x: u32,
    y: u32,
) -> Option<(&'a TileType, &'a Matrix)>
    requires { AreMatricesOf fabric.now.types matrices.now }
    ensures found { MatchOption result (tile_at fabric.now x y ≡ None)
        (λ found. (tile_at fabric.now x y ≡ Some found.0.now) × IsMatrixOf found.0.now found.1.now) }
    ensures is_fabric { IsFabric fabric.now }
    ensures are_tiles { AreTiles fabric.now }
{
    let types = fabric.types();
    if x >= fabric.columns() || y >= fabric.rows() {
        return None;
    }
    let number = fabric.type_at(x, y)? as usize;
    Some((&types[number], &matrices[number]))
}
