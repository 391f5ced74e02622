//! The points that loading sets, by the names that they have in the text of the fabric.

ghost use Rattle.std.specs.Prelude.{IfOk};
ghost use Rattle.fab_syntax.specs.Plain.{plain_text};
ghost use Rattle.fab_equations.specs.Equations.{IsFound};

use fab_equations::{Declared, Equations};
use fab_examples::Stop;
use fab_values::bits_of_shape;
use std::alloc::Global;

/// The names outside of the instances below that loading sets.
const NAMES: [&str; 9] = [
    "Address",
    "Strobe",
    "Row0",
    "fab_strobe_0",
    "fab_strobe_1",
    "X0Y0.FrameData",
    "X0Y0.FrameStrobe",
    "X1Y0.FrameData",
    "X1Y0.FrameStrobe",
];

/// A name in each instance of which loading sets all names: the loader, and the configuration of each tile.
const INSTANCES: [&str; 3] = [
    "fab_loader.state",
    "X0Y0.fab_config.q0",
    "X1Y0.fab_config.q0",
];

/// Where a name is declared.
pub fn declared(equations: &Equations, name: &str) -> Result<Declared, Stop>
    ensures { IfOk result (λ declared. IsFound (plain_text equations.now) name.now declared) }
{
    equations.find(name.as_bytes()).ok_or(Stop::Data)
}

/// The point of a bit of a name.
pub fn point_of(equations: &Equations, name: &str, bit: u32) -> Result<u32, Stop> {
    equations.place_of(name.as_bytes(), bit).ok_or(Stop::Data)
}

// Adds the points of a name.
fn add_name(points: &mut Vec<u32>, equations: &Equations, name: &str) -> Result<(), Stop> {
    for bit in 0..bits_of_shape(declared(equations, name)?.shape) {
        points.push(point_of(equations, name, bit)?)?;
    }
    Ok(())
}

// Adds the points of the instance in which a name is declared.
fn add_instance(points: &mut Vec<u32>, equations: &Equations, name: &str) -> Result<(), Stop> {
    for point in equations.points_of(declared(equations, name)?.instance) {
        points.push(point)?;
    }
    Ok(())
}

/// All points that loading sets.
pub fn loading_points(alloc: Global, equations: &Equations) -> Result<Vec<u32>, Stop> {
    let mut points = Vec::new(alloc);
    for name in NAMES {
        add_name(&mut points, equations, name)?;
    }
    for name in INSTANCES {
        add_instance(&mut points, equations, name)?;
    }
    Ok(points)
}
