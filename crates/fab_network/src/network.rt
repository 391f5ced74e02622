//! What points show, by numbers.

ghost use Rattle.std.specs.Prelude.{◌≡◌, ◌<◌, ◌≤◌, ◌^◌, true, Some, length};
ghost use Rattle.fab_systems_laws.specs.Ternary.{IsBelow};
ghost use Rattle.fab_ternary.specs.Terns.{plain_tern};
ghost use Rattle.fab_compiled.specs.Terns.{seen, IsView};
ghost use Rattle.fab_network.specs.Network.{drive_tern, source_tern, shown_tern, AreBeside, AreFit, IsFitDrive, IsFitSource};
ghost use Rattle.fab_network.specs.Sharing.{AreShared};

use crate::sharing::KeptValues;
use fab_compiled::{Tree, View, eval, through};
use fab_ternary::Tern;

/// A bit of a compiled expression over the points of an instance, of which the first is given.
#[derive(Clone, Copy, Debug, PartialEq, Eq)]
pub struct Source {
    pub tree: u32,
    pub first: u32,
    pub bit: u32,
}

impl Source {
    /// Whether this and another are bits of one expression, of the same instance.
    pub fn is_beside(self, other: Source) -> bool
        ensures beside { result ≡ true → AreBeside self other }
        ensures found { AreBeside self other → result ≡ true }
    {
        self.tree == other.tree && self.first == other.first
    }
}

/// The clock of a flip-flop, as an input of the top.
#[derive(Clone, Copy, Debug, PartialEq, Eq)]
pub enum Clock {
    /// `CLK`, at which words are loaded.
    Loader,
    /// `UserCLK`, which ends a cycle of the design.
    User,
    /// An input of another name.
    Other,
}

/// What a point shows.
#[derive(Clone, Copy, Debug, PartialEq, Eq)]
pub enum Drive {
    /// An input of the top: what is given to it.
    Given,
    /// A flip-flop: what it holds. At a tick of its clock it takes the bit of an expression.
    Flop(Clock, Source),
    /// What another point has.
    Same(u32),
    /// The bit of an expression.
    Value(Source),
    /// A latch: its gate and its data.
    Hold(Source, Source),
}

/// What the points of a text show, over compiled expressions.
#[derive(Drop)]
pub struct Network {
    /// By the number of the point.
    pub drives: Vec<Drive>,
    pub trees: Vec<Tree>,
}

/// What a source has.
pub fn evaluate(trees: &[Tree], source: Source, view: &View) -> Tern
    requires fit { IsFitSource trees.now (length view.now.leads.now) source }
    requires view { IsView view.now.terns.now view.now.leads.now }
    requires small { length view.now.leads.now ≤ 2 ^ 32 }
    ensures { plain_tern result ≡ source_tern trees.now (seen view.now.terns.now view.now.leads.now) source }
{
    let tree = &trees[source.tree as usize];
    eval(tree, u64::from(source.bit), source.first as usize, view)
}

/// What a point shows, where a latch holds this value; nothing is known of it where there is no such point.
pub fn shown(
    network: &Network,
    point: usize,
    held: Tern,
    shared: &mut KeptValues,
    view: &View,
) -> Tern
    requires fit { AreFit network.now.trees.items network.now.drives.items }
    requires points { length network.now.drives.items ≡ length view.now.leads.now }
    requires view { IsView view.now.terns.now view.now.leads.now }
    requires small { length view.now.leads.now ≤ 2 ^ 32 }
    requires within { point < length view.now.leads.now }
    requires shared { AreShared network.now.trees.items (length view.now.leads.now) (seen view.now.terns.now view.now.leads.now) shared.old }
    ensures shared { AreShared network.now.trees.items (length view.now.leads.now) (seen view.now.terns.now view.now.leads.now) shared.new }
    ensures value { plain_tern result ≡ shown_tern network.now.trees.items network.now.drives.items (plain_tern held) (seen view.now.terns.now view.now.leads.now) point }
{
    match network.drives.get(point) {
        Some(drive) => shown_by(&network.trees, *drive, point, held, shared, view),
        None => Tern::Open,
    }
}

// What a point shows by its drive.
fn shown_by(
    trees: &[Tree],
    drive: Drive,
    point: usize,
    held: Tern,
    shared: &mut KeptValues,
    view: &View,
) -> Tern
    requires fit { IsFitDrive trees.now (length view.now.leads.now) drive }
    requires view { IsView view.now.terns.now view.now.leads.now }
    requires small { length view.now.leads.now ≤ 2 ^ 32 }
    requires within { point < length view.now.leads.now }
    requires shared { AreShared trees.now (length view.now.leads.now) (seen view.now.terns.now view.now.leads.now) shared.old }
    ensures shared { AreShared trees.now (length view.now.leads.now) (seen view.now.terns.now view.now.leads.now) shared.new }
    ensures value { plain_tern result ≡ drive_tern trees.now (plain_tern held) (seen view.now.terns.now view.now.leads.now) point (Some drive) }
{
    match drive {
        Drive::Given | Drive::Flop(_, _) => view.at(point),
        Drive::Same(other) => view.at(other as usize),
        Drive::Value(source) => shared.points.value(trees, source, view),
        Drive::Hold(gate, latched) => {
            let gate = shared.gates.value(trees, gate, view);
            through(gate, shared.points.value(trees, latched, view), held)
        }
    }
}

/// The same where another look follows: less may be told where that takes long.
pub fn shown_meanwhile(
    network: &Network,
    point: usize,
    held: Tern,
    shared: &mut KeptValues,
    view: &View,
) -> Tern
    requires fit { AreFit network.now.trees.items network.now.drives.items }
    requires points { length network.now.drives.items ≡ length view.now.leads.now }
    requires view { IsView view.now.terns.now view.now.leads.now }
    requires small { length view.now.leads.now ≤ 2 ^ 32 }
    requires within { point < length view.now.leads.now }
    requires shared { AreShared network.now.trees.items (length view.now.leads.now) (seen view.now.terns.now view.now.leads.now) shared.old }
    ensures shared { AreShared network.now.trees.items (length view.now.leads.now) (seen view.now.terns.now view.now.leads.now) shared.new }
    ensures below { IsBelow (plain_tern result)
        (shown_tern network.now.trees.items network.now.drives.items (plain_tern held) (seen view.now.terns.now view.now.leads.now) point) }
{
    match network.drives.get(point) {
        Some(drive) => meanwhile_by(&network.trees, *drive, point, held, shared, view),
        None => Tern::Open,
    }
}

// What a point shows by its drive, or less.
fn meanwhile_by(
    trees: &[Tree],
    drive: Drive,
    point: usize,
    held: Tern,
    shared: &mut KeptValues,
    view: &View,
) -> Tern
    requires fit { IsFitDrive trees.now (length view.now.leads.now) drive }
    requires view { IsView view.now.terns.now view.now.leads.now }
    requires small { length view.now.leads.now ≤ 2 ^ 32 }
    requires within { point < length view.now.leads.now }
    requires shared { AreShared trees.now (length view.now.leads.now) (seen view.now.terns.now view.now.leads.now) shared.old }
    ensures shared { AreShared trees.now (length view.now.leads.now) (seen view.now.terns.now view.now.leads.now) shared.new }
    ensures below { IsBelow (plain_tern result) (drive_tern trees.now (plain_tern held) (seen view.now.terns.now view.now.leads.now) point (Some drive)) }
{
    match drive {
        Drive::Given | Drive::Flop(_, _) | Drive::Same(_) => {
            shown_by(trees, drive, point, held, shared, view)
        }
        Drive::Value(source) => shared.points.value_meanwhile(trees, source, view),
        Drive::Hold(gate, latched) => {
            let gate = shared.gates.value_meanwhile(trees, gate, view);
            let data = shared.points.value_meanwhile(trees, latched, view);
            through(gate, data, held)
        }
    }
}
