//! A search along what points need, depth first and without recursion.

ghost use Rattle.std.specs.Prelude.{◌≡◌, ◌-◌, ◌<◌, ◌≤◌, ◌^◌, ◌++◌, [], ◌∷◌, true, false, length, take, slice_get, slice_set, vec_capacity, IfOk};
ghost use Rattle.std.specs.Prelude.{MatchOption, Some};
ghost use Rattle.std.specs.List.{range_with_len};
ghost use Rattle.fab_systems_laws.specs.Ternary.{known as known_tern};
ghost use Rattle.fab_ternary.specs.Terns.{plain_tern};
ghost use Rattle.fab_compiled.specs.Leading.{IsMarked};
ghost use Rattle.fab_network.specs.Network.{AreFit, IsFitSource};
ghost use Rattle.fab_network.specs.Passes.{kept_tern};
ghost use Rattle.fab_demand.specs.Asked.{AsksMore, IsSourceAsked, IsWhole};
ghost use Rattle.fab_demand.specs.Search.{asked_of, left_of, Closes, HasRoom, IsBlank, IsKeeping, IsResting, IsSearching};

use crate::gates::Gates;
use crate::look::look;
use crate::others::MANY;
use fab_ahead::{Next, Rows, end_of_rest, is_unmarked};
use fab_base::Memory;
use fab_compiled::{Lead, View};
use fab_network::{Clock, Network, Source, lead_of_source};
use fab_readers::Readers;
use fab_ternary::Tern;
use std::alloc::Global;

/// What a search knows. All is sized by the number of points at first; what takes memory afterwards helps for speed alone.
#[derive(Drop)]
pub struct Search {
    /// By the number of the point: what is known of it.
    pub terns: Vec<Tern>,
    /// The point to which it is led, or itself.
    pub leads: Vec<u32>,
    /// Whether it has been asked for.
    pub marks: Vec<bool>,
    /// Whether it waits for nothing any more.
    pub done: Vec<bool>,
    /// The points that stand for themselves, in the order in which they came to be done.
    pub own: Vec<u32>,
    /// The points that wait, each for the next one.
    pub stack: Vec<u32>,
    /// The readers of the points that stand for themselves.
    pub readers: Readers,
    /// What gates are that take long, in the network that is searched.
    pub gates: Gates,
}

impl Search {
    /// Nothing is asked for.
    pub(crate) fn new(alloc: Global, points: usize) -> Result<Search, Memory>
        requires few { points ≤ 2 ^ 32 }
        ensures keeping { IfOk result (λ search. IsKeeping search) }
        ensures blank { IfOk result (λ search. IsBlank points (asked_of search)) }
    {
        let mut leads = vec![in alloc; 0; points]?;
        number(&mut leads);
        Ok(Search {
            terns: vec![in alloc; Tern::Open; points]?,
            leads,
            marks: vec![in alloc; false; points]?,
            done: vec![in alloc; false; points]?,
            own: Vec::with_capacity(alloc, points)?,
            stack: Vec::with_capacity(alloc, points)?,
            readers: Readers::new(alloc, points)?,
            gates: Gates::new(alloc)?,
        })
    }

    /// Nothing is asked for any more.
    pub(crate) fn clear(&mut self)
        requires keeping { IsKeeping self.old }
        ensures keeping { IsKeeping self.new }
        ensures blank { IsBlank (length self.old.leads.items) (asked_of self.new) }
    {
        self.terns.fill(Tern::Open);
        number(&mut self.leads);
        self.marks.fill(false);
        self.done.fill(false);
        self.own.clear();
        self.stack.clear();
        self.readers.forget();
    }

    /// The point that waits and that was asked for last.
    pub(crate) fn waiting(&self) -> Option<u32>
        ensures { result ≡ slice_get self.now.stack.items (length self.now.stack.items - 1) }
    {
        self.stack.last().copied()
    }

    // Whether a point waits.
    fn is_waiting(&self, point: u32) -> bool {
        match (
            self.marks.get(point as usize),
            self.done.get(point as usize),
        ) {
            (Some(mark), Some(done)) => *mark && !*done,
            _ => false,
        }
    }

    /// Asks for a point.
    pub(crate) fn wait(&mut self, point: u32)
        requires room { HasRoom self.old }
        requires unmarked { slice_get self.old.marks.items point ≡ Some false }
        ensures asked { asked_of self.new ≡ record (asked_of self.old) { marks = slice_set self.old.marks.items point true } }
        ensures done { self.new.done.items ≡ self.old.done.items }
        ensures stack { self.new.stack.items ≡ self.old.stack.items ++ point ∷ [] }
        ensures gates { self.new.gates.kept.items ≡ self.old.gates.kept.items }
        ensures room { HasRoom self.new }
    {
        self.marks[point as usize] = true;
        add(&mut self.stack, point);
    }

    // The last point that waits is done.
    fn close(&mut self, point: u32)
        requires done { slice_get self.old.done.items point ≡ Some false }
        ensures asked { asked_of self.new ≡ asked_of self.old }
        ensures done { self.new.done.items ≡ slice_set self.old.done.items point true }
        ensures stack { self.new.stack.items ≡ take (length self.old.stack.items - 1) self.old.stack.items }
        ensures gates { self.new.gates.kept.items ≡ self.old.gates.kept.items }
        ensures own_room { vec_capacity self.new.own ≡ vec_capacity self.old.own }
        ensures stack_room { vec_capacity self.new.stack ≡ vec_capacity self.old.stack }
    {
        self.done[point as usize] = true;
        self.stack.pop();
    }

    /// A point is known.
    pub(crate) fn know(&mut self, point: u32, bit: bool)
        requires room { HasRoom self.old }
        requires done { slice_get self.old.done.items point ≡ Some false }
        requires within { point < length self.old.terns.items }
        ensures { (tern : Tern) × (plain_tern tern ≡ known_tern bit) ×
            Closes self.old self.new point (record (asked_of self.old) { terns = slice_set self.old.terns.items point tern }) }
    {
        self.terns[point as usize] = Tern::known(bit);
        self.close(point);
    }

    // A point is led to another.
    fn lead(&mut self, point: u32, other: u32)
        requires room { HasRoom self.old }
        requires done { slice_get self.old.done.items point ≡ Some false }
        requires within { point < length self.old.leads.items }
        ensures { Closes self.old self.new point (record (asked_of self.old) { leads = slice_set self.old.leads.items point other }) }
    {
        self.leads[point as usize] = other;
        self.close(point);
    }

    /// A point stands for itself.
    pub(crate) fn keep(&mut self, point: u32)
        requires room { HasRoom self.old }
        requires done { slice_get self.old.done.items point ≡ Some false }
        ensures { Closes self.old self.new point (record (asked_of self.old) { own = self.old.own.items ++ point ∷ [] }) }
    {
        add(&mut self.own, point);
        self.readers.forget();
        self.close(point);
    }

    // One step for the last point that waits: what its row tells is asked for without a look. Others beside it are closed with it where it stands for itself,
    // as often as pays, where many of them have been looked at, and in a row in any case, since there are many then.
    fn go_by(
        &mut self,
        network: &Network,
        clock: Clock,
        given: &[Tern],
        rows: &mut Rows,
        point: u32,
    )
        requires fit { AreFit network.now.trees.items network.now.drives.items }
        requires points { length network.now.drives.items ≡ length self.old.leads.items }
        requires given { length given.now ≡ length self.old.leads.items }
        requires searching { IsSearching network.now clock (kept_tern given.now) self.old }
        requires waits { slice_get self.old.stack.items (length self.old.stack.items - 1) ≡ Some point }
        ensures searching { IsSearching network.now clock (kept_tern given.now) self.new }
        ensures more { AsksMore (asked_of self.old) (asked_of self.new) }
        ensures falls { left_of self.new < left_of self.old }
    {
        let own = self.own.len();
        let depth = self.stack.len();
        match rows.next(depth, &self.marks) {
            Next::Ask(needed) => self.wait(needed),
            Next::Look => {
                self.step(network, clock, given, rows, point);
                let is_own = own < self.own.len();
                if self.stack.len() < depth && rows.are_others_due(network, point, is_own) {
                    self.close_others(network, point);
                }
            }
            Next::LookInRow => {
                self.step(network, clock, given, rows, point);
                if self.stack.len() < depth {
                    self.close_others(network, point);
                }
            }
        }
    }

    // One look for the last point that waits.
    fn step(&mut self, network: &Network, clock: Clock, given: &[Tern], rows: &mut Rows, point: u32)
        requires fit { AreFit network.now.trees.items network.now.drives.items }
        requires points { length network.now.drives.items ≡ length self.old.leads.items }
        requires given { length given.now ≡ length self.old.leads.items }
        requires searching { IsSearching network.now clock (kept_tern given.now) self.old }
        requires waits { slice_get self.old.stack.items (length self.old.stack.items - 1) ≡ Some point }
        ensures searching { IsSearching network.now clock (kept_tern given.now) self.new }
        ensures more { AsksMore (asked_of self.old) (asked_of self.new) }
        ensures falls { left_of self.new < left_of self.old }
    {
        let view = View {
            terns: &self.terns,
            leads: &self.leads,
        };
        match look(
            network,
            clock,
            given,
            point as usize,
            &view,
            &self.marks,
            &mut self.gates,
        ) {
            Lead::Unmarked(needed) => {
                let waits = self.is_waiting(needed.saturating_sub(1));
                let depth = self.stack.len();
                rows.add(network, point, needed, depth, waits, &self.marks);
                self.wait(needed);
            }
            Lead::Known(bit) => self.know(point, bit),
            Lead::Point(other) => self.follow(point, other),
            Lead::Own => self.keep(point),
        }
    }

    /// Leads a point to another, or lets it stand for itself in a ring.
    pub(crate) fn follow(&mut self, point: u32, other: u32)
        requires room { HasRoom self.old }
        requires done { slice_get self.old.done.items point ≡ Some false }
        requires within { point < length self.old.leads.items }
        requires other { other < length self.old.leads.items }
        ensures done { IsMarked self.old.done.items other →
            Closes self.old self.new point (record (asked_of self.old) { leads = slice_set self.old.leads.items point other }) }
        ensures waits { slice_get self.old.done.items other ≡ Some false →
            Closes self.old self.new point (record (asked_of self.old) { own = self.old.own.items ++ point ∷ [] }) }
    {
        if self.done[other as usize] {
            self.lead(point, other);
        } else {
            self.keep(point);
        }
    }

    /// Asks for a point, and for all that it needs.
    pub(crate) fn ask(
        &mut self,
        network: &Network,
        clock: Clock,
        given: &[Tern],
        rows: &mut Rows,
        point: u32,
    )
        requires fit { AreFit network.now.trees.items network.now.drives.items }
        requires points { length network.now.drives.items ≡ length self.old.leads.items }
        requires given { length given.now ≡ length self.old.leads.items }
        requires searching { IsSearching network.now clock (kept_tern given.now) self.old }
        requires resting { IsResting self.old }
        requires within { point < length self.old.leads.items }
        ensures searching { IsSearching network.now clock (kept_tern given.now) self.new }
        ensures resting { IsResting self.new }
        ensures more { AsksMore (asked_of self.old) (asked_of self.new) }
        ensures marked { IsMarked self.new.marks.items point }
    {
        if self.marks[point as usize] {
            return;
        }
        self.wait(point);
        self.go_on(network, clock, given, rows);
    }

    // Goes on until no point waits.
    fn go_on(&mut self, network: &Network, clock: Clock, given: &[Tern], rows: &mut Rows)
        requires fit { AreFit network.now.trees.items network.now.drives.items }
        requires points { length network.now.drives.items ≡ length self.old.leads.items }
        requires given { length given.now ≡ length self.old.leads.items }
        requires searching { IsSearching network.now clock (kept_tern given.now) self.old }
        ensures searching { IsSearching network.now clock (kept_tern given.now) self.new }
        ensures resting { IsResting self.new }
        ensures more { AsksMore (asked_of self.old) (asked_of self.new) }
    {
        rows.end();
        'waiting: while let Some(top) = self.waiting() {
            self.go_by(network, clock, given, rows, top);
        }
    }

    /// Asks for all that the bit of an expression needs.
    pub(crate) fn ask_source(
        &mut self,
        network: &Network,
        clock: Clock,
        given: &[Tern],
        rows: &mut Rows,
        source: Source,
    )
        requires fit { AreFit network.now.trees.items network.now.drives.items }
        requires points { length network.now.drives.items ≡ length self.old.leads.items }
        requires given { length given.now ≡ length self.old.leads.items }
        requires source { IsFitSource network.now.trees.items (length self.old.leads.items) source }
        requires searching { IsSearching network.now clock (kept_tern given.now) self.old }
        requires resting { IsResting self.old }
        ensures searching { IsSearching network.now clock (kept_tern given.now) self.new }
        ensures resting { IsResting self.new }
        ensures more { AsksMore (asked_of self.old) (asked_of self.new) }
        ensures asked { IsSourceAsked network.now.trees.items (asked_of self.new) source }
    {
        'needs: while let Some(point) = self.need(network, source) {
            self.ask(network, clock, given, rows, point);
            self.ask_rest(network, clock, given, rows, source, point);
        }
    }

    // Asks for the rest of the name that a point stands in which the bit of an expression needs, up to many points that have been asked for. Else each bit of a
    // shift register that is shown in its middle would go over all behind it.
    fn ask_rest(
        &mut self,
        network: &Network,
        clock: Clock,
        given: &[Tern],
        rows: &mut Rows,
        source: Source,
        point: u32,
    )
        requires fit { AreFit network.now.trees.items network.now.drives.items }
        requires points { length network.now.drives.items ≡ length self.old.leads.items }
        requires given { length given.now ≡ length self.old.leads.items }
        requires searching { IsSearching network.now clock (kept_tern given.now) self.old }
        requires resting { IsResting self.old }
        ensures searching { IsSearching network.now clock (kept_tern given.now) self.new }
        ensures resting { IsResting self.new }
        ensures more { AsksMore (asked_of self.old) (asked_of self.new) }
    {
        let mut passed: u32 = 0;
        for next in point.saturating_add(1)..end_of_rest(network, source, point) {
            passed = if is_unmarked(next, &self.marks) {
                0
            } else {
                passed.saturating_add(1)
            };
            if passed == MANY {
                return;
            }
            self.ask_number(network, clock, given, rows, next);
        }
    }

    // Asks for the point of a number, if there is one.
    fn ask_number(
        &mut self,
        network: &Network,
        clock: Clock,
        given: &[Tern],
        rows: &mut Rows,
        point: u32,
    )
        requires fit { AreFit network.now.trees.items network.now.drives.items }
        requires points { length network.now.drives.items ≡ length self.old.leads.items }
        requires given { length given.now ≡ length self.old.leads.items }
        requires searching { IsSearching network.now clock (kept_tern given.now) self.old }
        requires resting { IsResting self.old }
        ensures searching { IsSearching network.now clock (kept_tern given.now) self.new }
        ensures resting { IsResting self.new }
        ensures more { AsksMore (asked_of self.old) (asked_of self.new) }
    {
        if (point as usize) < self.leads.len() {
            self.ask(network, clock, given, rows, point);
        }
    }

    // A point that the bit of an expression needs and that has not been asked for, if there is one.
    fn need(&self, network: &Network, source: Source) -> Option<u32>
        requires source { IsFitSource network.now.trees.items (length self.now.leads.items) source }
        requires whole { IsWhole (asked_of self.now) }
        ensures { MatchOption result (IsSourceAsked network.now.trees.items (asked_of self.now) source)
            (λ point. slice_get self.now.marks.items point ≡ Some false) }
    {
        let view = View {
            terns: &self.terns,
            leads: &self.leads,
        };
        match lead_of_source(&network.trees, source, &view, &self.marks) {
            Lead::Unmarked(point) => Some(point),
            Lead::Known(_) | Lead::Point(_) | Lead::Own => None,
        }
    }
}

// One more point, where there is room.
fn add(points: &mut Vec<u32>, point: u32)
    requires room { length points.old.items < vec_capacity points.old }
    ensures items { points.new.items ≡ points.old.items ++ point ∷ [] }
    ensures room { vec_capacity points.old ≤ vec_capacity points.new }
{
    let _ = points.push(point);
}

// Leads each point to itself.
fn number(leads: &mut [u32])
    requires few { length leads.old ≤ 2 ^ 32 }
    ensures { leads.new ≡ range_with_len 0 (length leads.old) }
{
    for point in 0..leads.len() {
        leads[point] = point as u32;
    }
}
