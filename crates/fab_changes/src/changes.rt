//! Values of points that stand for themselves, looked at again where something has changed that they read.

ghost use Rattle.std.specs.Prelude.{◌≡◌, ◌⊎◌, ◌+◌, ◌<◌, ◌^◌, ℕ, true, length, IfSome};
ghost use Rattle.fab_network.specs.Network.{AreFit};
ghost use Rattle.fab_network.specs.Passes.{AreOwn, IsListed};
ghost use Rattle.fab_demand.specs.Asked.{Asked, DiffersInOwn};
ghost use Rattle.fab_demand.specs.Demand.{ShowsLeast};
ghost use Rattle.fab_changes.specs.Changes.{AreChangesOf, AreGroups, AreWaiting, HasGiven, HasKept, WaitsAt};
ghost use Rattle.fab_changes.specs.Fanout.{ArePlaces, HasTouched, IsFresh, IsOnce};
ghost use Rattle.fab_changes.specs.inner.Looking.{AreRightFrom, AreSameGroups, HasRoom, HasWritten, HaveTaken, IsSameWaiting};

use crate::fanout::Fanout;
use crate::groups::{Group, are_ordered, fanout_of, groups_of, longest, places_of, taken_of};
use crate::looking::{find_values, take_given, take_values};
use crate::places::Places;
use fab_demand::Demand;
use fab_network::{Network, Shared};
use fab_ternary::Tern;
use std::alloc::Global;

/// What is looked at again of the points of a demand that stand for themselves: where one of them changes, the groups that read it are stale.
#[derive(Drop)]
pub struct Changes {
    /// The places of inputs and flip-flops.
    pub taken: Vec<u32>,
    /// By the number of a point: one more than its place, for an input or a flip-flop that stands for itself, and 0 for all others.
    pub places: Vec<u32>,
    /// The places of inputs and flip-flops to which another value has been given since they were taken last.
    pub waiting: Vec<u32>,
    /// Whether all inputs and flip-flops are to be taken: at first, and where there was no memory for one that waits.
    pub all_wait: bool,
    /// The other points. Each group reads inputs, flip-flops and groups before it alone.
    pub groups: Vec<Group>,
    /// The readers are the groups.
    pub fanout: Fanout,
    /// Room for the values of a group.
    pub found: Vec<Tern>,
    /// Room for the value of the expression of a group.
    pub shared: Shared,
}

impl Changes {
    /// The groups of a demand, all stale. `None` where a point reads itself or what stands behind it, where a latch or a copy of a point stands
    /// for itself, where expressions are read so often that it does not pay, and where there is no memory.
    pub fn new(alloc: Global, network: &Network, places: &Places) -> Option<Changes>
        requires fit { AreFit network.now.trees.items network.now.drives.items }
        requires points { length network.now.drives.items ≡ length places.now.leads.now }
        requires places { ArePlaces places.now }
        requires once { IsOnce places.now.own.now }
        ensures changes { IfSome result (λ changes. (asked : Asked) → asked.own ≡ places.now.own.now → asked.leads ≡ places.now.leads.now →
            AreChangesOf network.now asked changes) }
        ensures waits { IfSome result (λ changes. (point : ℕ) → WaitsAt changes point) }
    {
        let taken = taken_of(alloc, network, places.own)?;
        let by_point = places_of(alloc, places, &taken)?;
        let groups = groups_of(alloc, network, places.own)?;
        let found = vec![in alloc; Tern::Open; longest(&groups)].ok()?;
        let fanout = fanout_of(alloc, network, places, &groups)?;
        if !are_ordered(network, places.own, &groups, &fanout) {
            return None;
        }
        Some(Changes {
            taken,
            places: by_point,
            waiting: Vec::new(alloc),
            all_wait: true,
            groups,
            fanout,
            found,
            shared: Shared::new(alloc),
        })
    }

    /// The values of a cycle, as `Demand::settle` finds them: points that stand for themselves take what is given to them now, and are
    /// settled. Of inputs and flip-flops only those are looked at whose value has been noted since, by `note_given` or `note_points`. The
    /// readers of points that change come to be stale, those of `watches` too.
    pub fn settle(
        &mut self,
        network: &Network,
        given: &[Tern],
        demand: &mut Demand,
        watches: &mut Fanout,
    )
        requires fit { AreFit network.now.trees.items network.now.drives.items }
        requires points { length network.now.drives.items ≡ length demand.old.leads }
        requires given { length given.now ≡ length demand.old.leads }
        requires changes { AreChangesOf network.now demand.old self.old }
        requires has { HasGiven demand.old.terns given.now self.old }
        ensures changes { AreChangesOf network.now demand.new self.new }
        ensures has { HasGiven demand.new.terns given.now self.new }
        ensures stays { (asked : Asked) → DiffersInOwn asked demand.old → DiffersInOwn asked demand.new }
        ensures shows { ShowsLeast network.now given.now demand.old demand.new }
        ensures readers { watches.new.readers.items ≡ watches.old.readers.items }
        ensures long { length watches.new.stale ≡ length watches.old.stale }
        ensures kept { (reader : ℕ) → IsFresh watches.new.stale reader → HasKept demand.old demand.new watches.old reader }
    {
        self.take_waiting(given, demand, watches);
        self.waiting.clear();
        self.all_wait = false;
        self.settle_groups(network, demand, watches);
    }

    // The inputs and flip-flops that wait take what is given to them.
    fn take_waiting(&mut self, given: &[Tern], demand: &mut Demand, watches: &mut Fanout)
        requires given { length given.now ≡ length demand.old.leads }
        requires own { AreOwn demand.old.own demand.old.leads }
        requires within { (place : ℕ) → IsListed self.old.taken.items place → place < length demand.old.own }
        requires waiting { AreWaiting demand.old.own self.old }
        requires has { HasGiven demand.old.terns given.now self.old }
        ensures taken { HaveTaken self.old.taken.items (length self.old.taken.items) given.now demand.old demand.new }
        ensures same { self.new ≡ record (self.old) { fanout = self.new.fanout } }
        ensures fanout { HasTouched demand.old.own demand.old.terns demand.new.terns self.old.fanout self.new.fanout }
        ensures watches { HasTouched demand.old.own demand.old.terns demand.new.terns watches.old watches.new }
    {
        if self.all_wait {
            take_given(&self.taken, given, demand, &mut self.fanout, watches);
        } else {
            take_given(&self.waiting, given, demand, &mut self.fanout, watches);
        }
    }

    /// Another value is given to a point. If it takes what is given to it, it does so at the next `settle`.
    pub fn note_given(&mut self, point: usize)
        ensures changes { (network : Network) (asked : Asked) → AreChangesOf network asked self.old → AreChangesOf network asked self.new }
        ensures waits { WaitsAt self.new point }
        ensures more { (other : ℕ) → WaitsAt self.old other → WaitsAt self.new other }
    {
        if point >= self.places.len() {
            return;
        }
        let behind = self.places[point];
        if behind > 0 {
            self.wait(behind - 1);
        }
    }

    // The input or flip-flop at a place waits.
    fn wait(&mut self, place: u32)
        ensures same { self.new ≡ record (self.old) { waiting = self.new.waiting; all_wait = self.new.all_wait } }
        ensures all { self.old.all_wait ≡ true → self.new.all_wait ≡ true }
        ensures waits { (self.new.all_wait ≡ true) ⊎ IsListed self.new.waiting.items place }
        ensures more { (other : ℕ) → IsListed self.old.waiting.items other → IsListed self.new.waiting.items other }
        ensures among { (other : ℕ) → IsListed self.new.waiting.items other → IsListed self.old.waiting.items other ⊎ (other ≡ place) }
    {
        match self.waiting.push(place) {
            Ok(()) => {}
            Err(_) => self.all_wait = true,
        }
    }

    /// The same of so many points that follow one another.
    pub fn note_points(&mut self, first: usize, count: usize)
        requires { first + count < 2 ^ 64 }
        ensures changes { (network : Network) (asked : Asked) → AreChangesOf network asked self.old → AreChangesOf network asked self.new }
        ensures waits { (k : ℕ) → k < count → WaitsAt self.new (first + k) }
        ensures more { (other : ℕ) → WaitsAt self.old other → WaitsAt self.new other }
    {
        for next in 0..count {
            self.note_given(first + next);
        }
    }

    // Stale groups are looked at, each behind those that it reads.
    fn settle_groups(&mut self, network: &Network, demand: &mut Demand, watches: &mut Fanout)
        requires fit { AreFit network.now.trees.items network.now.drives.items }
        requires points { length network.now.drives.items ≡ length demand.old.leads }
        requires groups { AreGroups network.now demand.old.own demand.old.leads self.old.fanout.readers.items self.old.taken.items self.old.groups.items }
        requires long { length self.old.fanout.stale ≡ length self.old.groups.items }
        requires room { HasRoom self.old.groups.items self.old.found.items }
        requires right { AreRightFrom network.now demand.old self.old 0 }
        ensures same { AreSameGroups self.old self.new }
        ensures waits { IsSameWaiting self.old self.new }
        ensures right { AreRightFrom network.now demand.new self.new (length self.old.groups.items) }
        ensures written { HasWritten network.now demand.old demand.new }
        ensures watches { HasTouched demand.old.own demand.old.terns demand.new.terns watches.old watches.new }
    {
        let mut from = 0;
        while let Some(number) = self.fanout.next_stale(from) {
            self.settle_group(network, number, demand, watches);
            from = number + 1;
        }
    }

    // A group is looked at.
    fn settle_group(
        &mut self,
        network: &Network,
        number: usize,
        demand: &mut Demand,
        watches: &mut Fanout,
    )
        requires fit { AreFit network.now.trees.items network.now.drives.items }
        requires points { length network.now.drives.items ≡ length demand.old.leads }
        requires within { number < length self.old.groups.items }
        requires groups { AreGroups network.now demand.old.own demand.old.leads self.old.fanout.readers.items self.old.taken.items self.old.groups.items }
        requires long { length self.old.fanout.stale ≡ length self.old.groups.items }
        requires room { HasRoom self.old.groups.items self.old.found.items }
        requires right { AreRightFrom network.now demand.old self.old number }
        ensures same { AreSameGroups self.old self.new }
        ensures waits { IsSameWaiting self.old self.new }
        ensures right { AreRightFrom network.now demand.new self.new (number + 1) }
        ensures written { HasWritten network.now demand.old demand.new }
        ensures watches { HasTouched demand.old.own demand.old.terns demand.new.terns watches.old watches.new }
    {
        self.fanout.set_fresh(number);
        let group = self.groups[number];
        find_values(network, group, demand, &mut self.shared, &mut self.found);
        take_values(group, &self.found, demand, &mut self.fanout, watches);
    }
}
