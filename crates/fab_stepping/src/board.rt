//! What points have and what is held.

ghost use Rattle.std.specs.Prelude.{◌≡◌, ◌<◌, ◌≤◌, ◌^◌, ℕ, Some, IfOk, length};
ghost use Rattle.fab_ternary.specs.Terns.{plain_tern};
ghost use Rattle.fab_compiled.specs.Terns.{seen, IsView};
ghost use Rattle.fab_network.specs.declared.network.Clock.TheVariants.{User};
ghost use Rattle.fab_network.specs.declared.network.Drive.TheVariants.{Flop};
ghost use Rattle.fab_network.specs.Network.{AreFit, IsFitDrive, IsFitSource};
ghost use Rattle.fab_network.specs.Sharing.{IsShared};
ghost use Rattle.fab_wiring.specs.Given.{left_by};
ghost use Rattle.fab_stepping.specs.Boards.{IsBoardOf, IsTakenOver, IsTicked, LeadToThemselves};

use fab_base::Memory;
use fab_compiled::{Tree, View};
use fab_network::{Clock, Drive, Network, Shared, Source};
use fab_ternary::Tern;
use std::alloc::Global;

/// What the points of a text have, and what is held where one has a flip-flop or a latch.
#[derive(Drop)]
pub struct Board {
    pub terns: Vec<Tern>,
    pub held: Vec<Tern>,
    /// Each point leads to itself.
    pub leads: Vec<u32>,
}

impl Board {
    /// What the points have.
    pub fn view(&self) -> View<'_>
        ensures terns { result.terns.now ≡ self.now.terns.items }
        ensures leads { result.leads.now ≡ self.now.leads.items }
    {
        View {
            terns: &self.terns,
            leads: &self.leads,
        }
    }

    /// A tick of UserCLK: flip-flops of this clock hold their next values, and latches what their points have.
    pub fn tick(&mut self, network: &Network)
        requires fit { AreFit network.now.trees.items network.now.drives.items }
        requires board { IsBoardOf network.now self.old }
        ensures { IsTicked network.now self.old self.new }
    {
        let mut shared = Shared::new(*network.trees.allocator());
        for point in 0..self.held.len() {
            let drive = network.drives[point];
            self.held[point] = left(
                &network.trees,
                drive,
                point,
                self.held[point],
                &mut shared,
                &self.view(),
            );
        }
    }
}

/// So many points, each of which leads to itself.
pub fn own_leads(alloc: Global, count: usize) -> Result<Vec<u32>, Memory>
    requires { count ≤ 2 ^ 32 }
    ensures { IfOk result (λ leads. LeadToThemselves count leads.items) }
{
    let mut leads = Vec::with_capacity(alloc, count)?;
    for point in 0..count {
        leads.push(point as u32)?;
    }
    Ok(leads)
}

// What a tick of UserCLK leaves with a point that holds this.
fn left(
    trees: &[Tree],
    drive: Drive,
    point: usize,
    held: Tern,
    shared: &mut Shared,
    view: &View,
) -> Tern
    requires fit { IsFitDrive trees.now (length view.now.leads.now) drive }
    requires view { IsView view.now.terns.now view.now.leads.now }
    requires few { length view.now.leads.now ≤ 2 ^ 32 }
    requires within { point < length view.now.leads.now }
    requires shared { IsShared trees.now (length view.now.leads.now) (seen view.now.terns.now view.now.leads.now) shared.old }
    ensures left { plain_tern result ≡ left_by trees.now User (plain_tern held) (seen view.now.terns.now view.now.leads.now) point (Some drive) }
    ensures shared { IsShared trees.now (length view.now.leads.now) (seen view.now.terns.now view.now.leads.now) shared.new }
{
    match drive {
        Drive::Flop(clock, next) => left_with_flop(trees, clock, next, held, shared, view),
        Drive::Hold(_, _) => view.at(point),
        Drive::Given | Drive::Same(_) | Drive::Value(_) => held,
    }
}

// What it leaves with a flip-flop.
fn left_with_flop(
    trees: &[Tree],
    clock: Clock,
    next: Source,
    held: Tern,
    shared: &mut Shared,
    view: &View,
) -> Tern
    requires next { IsFitSource trees.now (length view.now.leads.now) next }
    requires view { IsView view.now.terns.now view.now.leads.now }
    requires few { length view.now.leads.now ≤ 2 ^ 32 }
    requires shared { IsShared trees.now (length view.now.leads.now) (seen view.now.terns.now view.now.leads.now) shared.old }
    ensures shared { IsShared trees.now (length view.now.leads.now) (seen view.now.terns.now view.now.leads.now) shared.new }
    ensures left { (point : ℕ) → plain_tern result ≡ left_by trees.now User (plain_tern held) (seen view.now.terns.now view.now.leads.now) point (Some (Flop clock next)) }
{
    match clock {
        Clock::User => shared.value(trees, next, view),
        Clock::Loader | Clock::Other => held,
    }
}

/// Where points are marked so, a list takes over what another has.
pub fn take_over(marks: &[bool], mark: bool, from: &[Tern], terns: &mut [Tern])
    requires marks { length marks.now ≡ length terns.old }
    requires from { length from.now ≡ length terns.old }
    ensures { IsTakenOver marks.now mark from.now terns.old terns.new }
{
    for (point, other) in marks.iter().enumerate() {
        if *other != mark {
            continue;
        }
        terns[point] = from[point];
    }
}
