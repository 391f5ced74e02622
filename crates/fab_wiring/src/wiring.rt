//! The drives of a text's points, in their order.

ghost use Rattle.std.specs.Prelude.{◌≡◌, ℕ, length, OnOk, IfOk};
ghost use Rattle.fab_syntax.specs.Plain.{plain_text};
ghost use Rattle.fab_meaning.specs.Points.{Driver as PlainDriver};
ghost use Rattle.fab_equations.specs.Instances.{points};
ghost use Rattle.fab_equations.specs.Equations.{DriverFits, Means};
ghost use Rattle.fab_network.specs.Network.{AreFit, IsFitDrive};
ghost use Rattle.fab_wiring.specs.Wiring.{AreDrives, IsDriveOf};
ghost use Rattle.fab_wiring.specs.Clocks.{AreClocks};
ghost use Rattle.fab_wiring.specs.inner.Trees.{AreTrees, AreKept};

use crate::clocks::{Clocks, clocks_of};
use crate::trees::Trees;
use fab_base::Memory;
use fab_equations::{Cursor, Driver, Equations};
use fab_meaning::laws::points_of_sound_texts_have_one_driver;
use fab_network::{Drive, Network};
use std::alloc::Global;

/// The drives of all points of a text, over its expressions. An expression is compiled once for all instances of its module. Want of memory is also
/// the answer where a width does not fit 64 bits, or the number of a tree 32.
pub fn network_of(alloc: Global, equations: &Equations) -> Result<Network, Memory>
    ensures long { IfOk result (λ made. length made.drives.items ≡ length (points (plain_text equations.now))) }
    ensures fit { IfOk result (λ made. AreFit made.trees.items made.drives.items) }
    ensures drives { IfOk result (λ made. AreDrives (plain_text equations.now) made.trees.items made.drives.items) }
{
    let mut trees = Trees::new(alloc, equations)?;
    let drives = drives_of(alloc, equations, &mut trees)?;
    Ok(Network {
        drives,
        trees: trees.into_trees(),
    })
}

// The drives of all points, over the trees that are left.
fn drives_of(alloc: Global, equations: &Equations, trees: &mut Trees) -> Result<Vec<Drive>, Memory>
    requires { AreTrees (plain_text equations.now) trees.old }
    ensures long { IfOk result (λ drives. length drives.items ≡ length (points (plain_text equations.now))) }
    ensures fit { IfOk result (λ drives. AreFit trees.new.trees.items drives.items) }
    ensures drives { IfOk result (λ drives. AreDrives (plain_text equations.now) trees.new.trees.items drives.items) }
{
    equations.text_is_sound();
    points_of_sound_texts_have_one_driver();
    let clocks = clocks_of(equations);
    let mut drives = Vec::with_capacity(alloc, equations.points() as usize)?;
    let mut cursor = Cursor::new();
    for point in 0..equations.points() {
        let driver = equations.driver_near(point, &mut cursor);
        drives.push(drive_of(alloc, equations, clocks, trees, driver)?)?;
    }
    Ok(drives)
}

// The drive of a point, for what drives it.
fn drive_of(
    alloc: Global,
    equations: &Equations,
    clocks: Clocks,
    trees: &mut Trees,
    driver: Driver,
) -> Result<Drive, Memory>
    requires clocks { AreClocks (plain_text equations.now) clocks }
    requires trees { AreTrees (plain_text equations.now) trees.old }
    requires means { (d : PlainDriver) × Means (plain_text equations.now) driver d }
    requires fits { DriverFits (plain_text equations.now) driver }
    ensures trees { OnOk result (AreTrees (plain_text equations.now) trees.new) }
    ensures kept { OnOk result (AreKept trees.old.trees.items trees.new.trees.items) }
    ensures drive { IfOk result (λ drive. (d : PlainDriver) → Means (plain_text equations.now) driver d → IsDriveOf (plain_text equations.now) trees.new.trees.items d drive) }
    ensures fit { IfOk result (λ drive. IsFitDrive trees.new.trees.items (length (points (plain_text equations.now))) drive) }
{
    match driver {
        Driver::Outside => Ok(Drive::Given),
        Driver::Same(other) => Ok(Drive::Same(other)),
        Driver::Value(meant) => {
            let source = trees.source(alloc, equations, meant)?;
            Ok(Drive::Value(source))
        }
        Driver::Flop(clock, next) => {
            let clock = clocks.clock(equations, clock);
            let next = trees.source(alloc, equations, next)?;
            Ok(Drive::Flop(clock, next))
        }
        Driver::Hold(gate, latched) => {
            let gate = trees.source(alloc, equations, gate)?;
            let latched = trees.source(alloc, equations, latched)?;
            Ok(Drive::Hold(gate, latched))
        }
    }
}
