//! The points that a simulation has to look at.

ghost use Rattle.std.specs.Prelude.{◌≡◌, ◌<◌, ◌≤◌, ◌^◌, ℕ, [], length, slice_index, slice_set, IfOk};
ghost use Rattle.fab_ternary.specs.Terns.{plain_tern};
ghost use Rattle.fab_compiled.specs.Leading.{PointTerns, IsMarked};
ghost use Rattle.fab_compiled.specs.Terns.{seen, IsView};
ghost use Rattle.fab_network.specs.declared.network.Network.{Network};
ghost use Rattle.fab_network.specs.Network.{AreFit, IsFitSource};
ghost use Rattle.fab_network.specs.Passes.{kept_tern};
ghost use Rattle.fab_demand.specs.Asked.{Asked, AsksMore, DiffersInOwn, IsSourceAsked, IsWhole};
ghost use Rattle.fab_demand.specs.Demand.{AreFormsOf, AreOpen, AreRegistersAsked, IsAsked, IsClear, ShowsLeast};

use crate::cycles::settle_anew;
use crate::search::Search;
use fab_ahead::Rows;
use fab_base::Memory;
use fab_compiled::View;
use fab_network::{Clock, Form, Network, Source, forms_of};
use fab_ternary::Tern;
use std::alloc::Global;
use std::marker::Model;

/// The points of a text that have been asked for, with all that they need.
///
/// Most of them are decided by what is given when they are asked for, or have what another point has. The others stand for
/// themselves: in each cycle they start anew and are settled. Contracts see the lists of `Asked`.
#[derive(Drop)]
pub struct Demand {
    search: Search,
    rows: Rows,
}

impl Model for Demand {
    ghost use Rattle.fab_demand.specs.Asked.{Asked};

    ghost Value = { Asked };

    ghost use Rattle.fab_demand.specs.Search.{asked_of, IsKeeping};

    ghost view = { λ demand. asked_of demand.search };

    ghost invariant = { λ demand. IsKeeping demand.search };
}

impl Demand {
    /// Nothing is asked for, of so many points.
    pub fn new(alloc: Global, points: usize) -> Result<Demand, Memory>
        requires few { points ≤ 2 ^ 32 }
        ensures long { IfOk result (λ demand. length demand.leads ≡ points) }
        ensures clear { IfOk result (λ demand. IsClear demand) }
    {
        let search = Search::new(alloc, points)?;
        let rows = Rows::new(alloc);
        Ok(Demand { search, rows })
    }

    /// Nothing is asked for any more.
    pub fn clear(&mut self)
        ensures long { length self.new.leads ≡ length self.old.leads }
        ensures clear { IsClear self.new }
    {
        self.search.clear();
        self.rows.clear();
    }

    /// Asks for a point, and for all that it needs. What is given here of an input, a flip-flop or a latch is what is known of it
    /// in all cycles, as `IsKept` says: `Open` for an input that varies. Flip-flops of this clock are open in any case.
    pub fn ask(&mut self, network: &Network, clock: Clock, given: &[Tern], point: u32)
        requires fit { AreFit network.now.trees.items network.now.drives.items }
        requires points { length network.now.drives.items ≡ length self.old.leads }
        requires given { length given.now ≡ length self.old.leads }
        requires within { point < length self.old.leads }
        requires asked { IsAsked network.now clock (kept_tern given.now) self.old }
        ensures asked { IsAsked network.now clock (kept_tern given.now) self.new }
        ensures more { AsksMore self.old self.new }
        ensures marked { IsMarked self.new.marks point }
    {
        self.search.gates.forget();
        self.search
            .ask(network, clock, given, &mut self.rows, point);
    }

    /// Asks for all that the bit of an expression needs.
    pub fn ask_source(&mut self, network: &Network, clock: Clock, given: &[Tern], source: Source)
        requires fit { AreFit network.now.trees.items network.now.drives.items }
        requires points { length network.now.drives.items ≡ length self.old.leads }
        requires given { length given.now ≡ length self.old.leads }
        requires source { IsFitSource network.now.trees.items (length self.old.leads) source }
        requires asked { IsAsked network.now clock (kept_tern given.now) self.old }
        ensures asked { IsAsked network.now clock (kept_tern given.now) self.new }
        ensures more { AsksMore self.old self.new }
        ensures source { IsSourceAsked network.now.trees.items self.new source }
    {
        self.search.gates.forget();
        self.search
            .ask_source(network, clock, given, &mut self.rows, source);
    }

    /// Asks for the next values of all flip-flops of this clock that have been asked for, and of those that come to be asked for by that.
    pub fn ask_registers(&mut self, network: &Network, clock: Clock, given: &[Tern])
        requires fit { AreFit network.now.trees.items network.now.drives.items }
        requires points { length network.now.drives.items ≡ length self.old.leads }
        requires given { length given.now ≡ length self.old.leads }
        requires asked { IsAsked network.now clock (kept_tern given.now) self.old }
        ensures asked { IsAsked network.now clock (kept_tern given.now) self.new }
        ensures more { AsksMore self.old self.new }
        ensures registers { AreRegistersAsked network.now clock self.new }
    {
        self.search.gates.forget();
        self.search
            .ask_registers(network, clock, given, &mut self.rows);
    }

    /// The forms of the points that stand for themselves, for cycles from now on. Nothing is known of these points yet.
    pub fn find_forms(&mut self, network: &Network, forms: &mut Vec<Form>)
        requires fit { AreFit network.now.trees.items network.now.drives.items }
        requires points { length network.now.drives.items ≡ length self.old.leads }
        requires fresh { AreOpen self.old }
        ensures stays { (asked : Asked) → DiffersInOwn asked self.old → DiffersInOwn asked self.new }
        ensures forms { AreFormsOf network.now self.new forms.new.items }
    {
        let search = &mut self.search;
        forms_of(
            network,
            &search.own,
            &search.leads,
            &search.marks,
            &mut search.terns,
            forms,
        );
    }

    /// The values of a cycle: points that stand for themselves start with what is given to them now, and are settled.
    pub fn settle(&mut self, network: &Network, given: &[Tern])
        requires fit { AreFit network.now.trees.items network.now.drives.items }
        requires points { length network.now.drives.items ≡ length self.old.leads }
        requires given { length given.now ≡ length self.old.leads }
        ensures stays { (asked : Asked) → DiffersInOwn asked self.old → DiffersInOwn asked self.new }
        ensures shows { ShowsLeast network.now given.now self.old self.new }
    {
        self.settle_by(network, &[], given);
    }

    /// The same, where points that stand for themselves have these forms.
    pub fn settle_by(&mut self, network: &Network, forms: &[Form], given: &[Tern])
        requires fit { AreFit network.now.trees.items network.now.drives.items }
        requires points { length network.now.drives.items ≡ length self.old.leads }
        requires given { length given.now ≡ length self.old.leads }
        requires forms { AreFormsOf network.now self.old forms.now }
        ensures stays { (asked : Asked) → DiffersInOwn asked self.old → DiffersInOwn asked self.new }
        ensures shows { ShowsLeast network.now given.now self.old self.new }
        ensures forms { AreFormsOf network.now self.new forms.now }
    {
        let search = &mut self.search;
        settle_anew(
            network,
            &search.own,
            given,
            &search.leads,
            forms,
            &mut search.readers,
            &mut search.terns,
        );
    }

    /// The point at a place among those that stand for themselves has another value from now on.
    pub fn set_own(&mut self, place: usize, tern: Tern)
        requires { place < length self.old.own }
        ensures { self.new ≡ record (self.old) { terns = slice_set self.old.terns (slice_index self.old.own place) tern } }
    {
        let point = self.search.own[place] as usize;
        self.search.terns[point] = tern;
    }

    /// What is known of the points.
    pub fn view(&self) -> View<'_>
        ensures terns { result.terns.now ≡ self.now.terns }
        ensures leads { result.leads.now ≡ self.now.leads }
        ensures whole { IsWhole self.now }
    {
        View {
            terns: &self.search.terns,
            leads: &self.search.leads,
        }
    }

    /// What a point has. It is right of points that have been asked for.
    pub fn at(&self, point: usize) -> Tern
        requires within { point < length self.now.leads }
        ensures { plain_tern result ≡ seen self.now.terns self.now.leads point }
    {
        self.view().at(point)
    }

    /// Whether each point has been asked for.
    pub fn marks(&self) -> &[bool]
        ensures { result.now ≡ self.now.marks }
    {
        &self.search.marks
    }

    /// The points that stand for themselves, each once.
    pub fn own(&self) -> &[u32]
        ensures { result.now ≡ self.now.own }
    {
        &self.search.own
    }
}
