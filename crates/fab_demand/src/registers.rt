//! The next values of flip-flops that stand for themselves.

ghost use Rattle.std.specs.Prelude.{◌≡◌, ◌≤◌, ◌^◌, true, length, slice_get, IfSome, MatchOption, Some};
ghost use Rattle.fab_network.specs.declared.network.Drive.TheVariants.{Flop};
ghost use Rattle.fab_network.specs.Network.{AreFit, IsFitSource};
ghost use Rattle.fab_network.specs.Passes.{kept_tern};
ghost use Rattle.fab_demand.specs.Asked.{AsksMore, IsWhole};
ghost use Rattle.fab_demand.specs.Demand.{AreRegistersAsked, IsRegisterAsked};
ghost use Rattle.fab_demand.specs.Search.{asked_of, IsResting, IsSearching};
ghost use Rattle.fab_demand.specs.inner.Beside.{IsInSpan, IsSpanAsked, IsSpanOf};

use crate::search::Search;
use fab_ahead::Rows;
use fab_compiled::Part;
use fab_network::{Clock, Drive, Network, Source};
use fab_ternary::Tern;

/// Bits of an expression that follow one another, where all that they need has been asked for.
#[derive(Clone, Copy, Debug)]
pub struct Span {
    pub tree: u32,
    pub first: u32,
    /// The first of them.
    pub low: u64,
    /// How many they are.
    pub count: u64,
}

impl Search {
    /// Asks for the next values of flip-flops of this clock that stand for themselves. The list of them grows while it is gone along.
    pub(crate) fn ask_registers(
        &mut self,
        network: &Network,
        clock: Clock,
        given: &[Tern],
        rows: &mut Rows,
    )
        requires fit { AreFit network.now.trees.items network.now.drives.items }
        requires points { length network.now.drives.items ≡ length self.old.leads.items }
        requires given { length given.now ≡ length self.old.leads.items }
        requires searching { IsSearching network.now clock (kept_tern given.now) self.old }
        requires resting { IsResting self.old }
        ensures searching { IsSearching network.now clock (kept_tern given.now) self.new }
        ensures resting { IsResting self.new }
        ensures more { AsksMore (asked_of self.old) (asked_of self.new) }
        ensures registers { AreRegistersAsked network.now clock (asked_of self.new) }
    {
        let mut place = 0;
        let mut asked = None;
        'registers: while place < self.own.len() {
            let point = self.own[place];
            asked = self.ask_register(network, clock, given, rows, point, asked);
            place += 1;
        }
    }

    // Asks for the next value of a point, if it is a flip-flop of this clock, unless all has been asked for that its bit needs. For which bits that holds is
    // told for the next point, since the bits of a register follow one another.
    fn ask_register(
        &mut self,
        network: &Network,
        clock: Clock,
        given: &[Tern],
        rows: &mut Rows,
        point: u32,
        asked: Option<Span>,
    ) -> Option<Span>
        requires fit { AreFit network.now.trees.items network.now.drives.items }
        requires points { length network.now.drives.items ≡ length self.old.leads.items }
        requires given { length given.now ≡ length self.old.leads.items }
        requires searching { IsSearching network.now clock (kept_tern given.now) self.old }
        requires resting { IsResting self.old }
        requires asked { IfSome asked (IsSpanAsked network.now.trees.items (asked_of self.old)) }
        ensures searching { IsSearching network.now clock (kept_tern given.now) self.new }
        ensures resting { IsResting self.new }
        ensures more { AsksMore (asked_of self.old) (asked_of self.new) }
        ensures register { IsRegisterAsked network.now clock (asked_of self.new) point }
        ensures asked { IfSome result (IsSpanAsked network.now.trees.items (asked_of self.new)) }
    {
        let Some(next) = next_of(network, clock, point as usize) else {
            return asked;
        };
        if is_in(asked, next) {
            return asked;
        }
        self.ask_source(network, clock, given, rows, next);
        self.span_of(network, next, point)
    }

    // The bits beside that of a source in its expression, if all has been asked for that they need.
    fn span_of(&self, network: &Network, source: Source, point: u32) -> Option<Span>
        requires source { IsFitSource network.now.trees.items (length self.now.leads.items) source }
        requires whole { IsWhole (asked_of self.now) }
        ensures { IfSome result (IsSpanAsked network.now.trees.items (asked_of self.now)) }
    {
        if !takes_bit_beside(network, source, point) {
            return None;
        }
        let Some(part) = self.part_at(network, source) else {
            return None;
        };
        if part.marked {
            Some(all_of(source, &part))
        } else {
            None
        }
    }
}

// All bits of a part of an expression.
fn all_of(source: Source, part: &Part) -> Span
    ensures { IsSpanOf source part.now result }
{
    Span {
        tree: source.tree,
        first: source.first,
        low: part.low,
        count: part.bits.len() as u64,
    }
}

// What a flip-flop of this clock takes next.
fn next_of(network: &Network, clock: Clock, point: usize) -> Option<Source>
    ensures { MatchOption result ((next : Source) → slice_get network.now.drives.items point ≡ Some (Flop clock next) → ⊥)
        (λ next. slice_get network.now.drives.items point ≡ Some (Flop clock next)) }
{
    match network.drives.get(point) {
        Some(Drive::Flop(own, next)) if *own == clock => Some(*next),
        _ => None,
    }
}

// Whether the bit of a source is one of these, if there are any.
fn is_in(asked: Option<Span>, source: Source) -> bool
    ensures { result ≡ true → (span : Span) × (asked ≡ Some span) × IsInSpan span source }
{
    match asked {
        Some(span) => is_in_span(span, source),
        None => false,
    }
}

fn is_in_span(span: Span, source: Source) -> bool
    ensures { result ≡ true → IsInSpan span source }
{
    source.tree == span.tree
        && source.first == span.first
        && u64::from(source.bit)
            .checked_sub(span.low)
            .is_some_and(|place| place < span.count)
}

// Whether a flip-flop beside a point takes another bit of the same expression.
fn takes_bit_beside(network: &Network, source: Source, point: u32) -> bool {
    takes_bit(network, source, point.saturating_add(1))
        || takes_bit(network, source, point.saturating_sub(1))
}

fn takes_bit(network: &Network, source: Source, point: u32) -> bool {
    match network.drives.get(point as usize) {
        Some(Drive::Flop(_, next)) => next.bit != source.bit && next.is_beside(source),
        _ => false,
    }
}
