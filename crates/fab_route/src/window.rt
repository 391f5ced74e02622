//! How far sinks can be from nodes.

ghost use Rattle.std.specs.Prelude.{◌≡◌};
ghost use Rattle.fab_route.specs.inner.Guided.{IsWindow};

use fab_fabric::Fabric;

/// The columns and rows of a grid.
#[derive(Clone, Copy)]
pub struct Window {
    pub columns: u32,
    pub rows: u32,
}

impl Window {
    /// Those of a fabric.
    pub fn of(fabric: &Fabric) -> Window
        ensures window { IsWindow result }
        ensures columns { result.columns ≡ fabric.now.columns }
        ensures rows { result.rows ≡ fabric.now.rows }
    {
        fabric.is_well_made();
        Window {
            columns: fabric.columns(),
            rows: fabric.rows(),
        }
    }
}
