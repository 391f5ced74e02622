//! One direction of a placement: the columns of the items or their rows.
ghost use Rattle.std.specs.Prelude.{◌≡◌, ◌≢◌, ◌⊎◌, ℕ, ◌+◌, ◌-◌, ◌*◌, ◌≤◌, ◌<◌, ◌^◌, ◌++◌, length, sum_by, slice_index, slice_index_or, slice_set, IfSome, OnOk, IfOk, List, All, Contains, [], ◌∷◌};
ghost use Rattle.fab_annealing.specs.Spans.{span_of};
ghost use Rattle.fab_annealing.specs.Measured.{IsNets, HasMoved, IsMeasured, IsShaped, IsRight, IsStretched, AreNoted, AreRenewed, item_count, net_count, items_of, no_span, width, undone};
ghost use Rattle.fab_annealing.specs.inner.Tied.{AreDistinct, IsLeastWidth, IsForecast};

use crate::nets::Nets;
use crate::ties::Change;
use std::alloc::{AllocError, Global};

/// The least and the greatest of some places.
#[derive(Clone, Copy, Debug, PartialEq, Eq)]
pub struct Span {
    pub low: u32,
    pub high: u32,
}

impl Span {
    /// How far it goes.
    pub fn width(self) -> u32
        ensures { result ≡ width self }
    {
        self.high.saturating_sub(self.low)
    }

    /// What it becomes where one of the places changes; none where that depends on the others.
    fn moved(self, from: u32, to: u32) -> Option<Span>
        ensures { IfSome result (IsStretched self from to) }
    {
        if from == self.low && to > self.low || from == self.high && to < self.high {
            return None;
        }
        Some(Span {
            low: self.low.min(to),
            high: self.high.max(to),
        })
    }

    /// Its width at the least where one of the places changes and another one does not: how far the new place lies from both ends. It is
    /// as if no other place were at an end that is left.
    fn least_width(self, from: u32, to: u32) -> u32
        ensures { IsLeastWidth self from to result }
    {
        let low = end_after(self.low, self.high, from);
        let high = end_after(self.high, self.low, from);
        to.saturating_sub(low)
            .saturating_add(high.saturating_sub(to))
    }
}

/// An end of a span after a place is left, at the least: the other end, if it was the place.
fn end_after(end: u32, other: u32, from: u32) -> u32
    ensures { (result ≡ other) ⊎ ((from ≢ end) × (result ≡ end)) }
{
    if from == end { other } else { end }
}

/// The span of the places of some items.
fn span_of(places: &[u32], items: &[u32]) -> Span
    requires items { All (λ item. item < length places.now) items.now }
    requires near { All (λ place. place ≤ 31) places.now }
    ensures value { result ≡ span_of (slice_index places.now) items.now }
    ensures low { result.high ≤ 31 }
{
    let Some(first) = items.first() else {
        return Span { low: 0, high: 0 };
    };
    let mut low = places[*first as usize];
    let mut high = low;
    for item in items {
        let place = places[*item as usize];
        low = low.min(place);
        high = high.max(place);
    }
    Span { low, high }
}

/// The places of the items in one direction, with the spans of the nets and the sum of their widths.
#[derive(Drop)]
pub struct Axis {
    places: Vec<u32>,
    spans: Vec<Span>,
    total: u32,
    // the spans that changed since the last settling, each with the net whose it was
    changed: Vec<(u32, Span)>,
}

impl Axis {
    /// The axis of items at these places.
    pub fn new(alloc: Global, nets: &Nets, places: Vec<u32>) -> Result<Axis, AllocError>
        requires nets { IsNets nets.now }
        requires items { length places.items ≡ item_count nets.now }
        requires near { All (λ place. place ≤ 31) places.items }
        ensures places { IfOk result (λ axis. axis.places.items ≡ places.items) }
        ensures measured { IfOk result (λ axis. IsMeasured nets.now axis.places.items axis.spans.items axis.total) }
        ensures settled { IfOk result (λ axis. axis.changed.items ≡ []) }
    {
        let spans = spans_of(alloc, nets, &places)?;
        let total = total_of(&spans);
        Ok(Axis {
            places,
            spans,
            total,
            changed: Vec::new(alloc),
        })
    }

    /// The sum of the widths.
    pub fn total(&self) -> u32
        ensures { result ≡ self.now.total }
    {
        self.total
    }

    /// The widths of nets that tie an item, and what they are at the least after it comes from a place to another.
    pub fn forecast(&self, nets: &[u32], from: u32, to: u32) -> Change
        requires inside { All (λ net. net < length self.now.spans.items) nets.now }
        requires distinct { AreDistinct nets.now }
        requires few { sum_by width self.now.spans.items ≤ 31 * 2 ^ 16 }
        ensures { IsForecast self.now.spans.items nets.now from to result }
    {
        if from == to {
            return Change::NONE;
        }
        let mut change = Change::NONE;
        for net in nets {
            let span = self.spans[*net as usize];
            change = change.and(Change {
                before: span.width(),
                after: span.least_width(from, to),
            });
        }
        change
    }

    /// Writes the place of an item, and leaves the spans as they are.
    pub fn put(&mut self, item: u32, place: u32)
        requires { item < length self.old.places.items }
        ensures places { self.new.places.items ≡ slice_set self.old.places.items item place }
        ensures spans { self.new.spans.items ≡ self.old.spans.items }
        ensures total { self.new.total ≡ self.old.total }
        ensures changed { self.new.changed.items ≡ self.old.changed.items }
    {
        self.places[item as usize] = place;
    }

    /// The span of a net one of whose items came from a place to another, and has been put there.
    fn span_after(&self, nets: &Nets, net: u32, from: u32, to: u32) -> Span
        requires nets { IsNets nets.now }
        requires shaped { IsShaped nets.now self.now.places.items self.now.spans.items self.now.total }
        requires net { net < net_count nets.now }
        requires to { to ≤ 31 }
        ensures next { IsStretched (slice_index_or self.now.spans.items net no_span) from to result
            ⊎ (result ≡ span_of (slice_index self.now.places.items) (items_of nets.now net)) }
        ensures low { result.high ≤ 31 }
    {
        match self.spans[net as usize].moved(from, to) {
            Some(span) => span,
            None => span_of(&self.places, &nets.items[net as usize]),
        }
    }

    /// Keeps the span of a net, and notes what it was.
    fn renew(&mut self, net: u32, span: Span) -> Result<(), AllocError>
        requires net { net < length self.old.spans.items }
        requires summed { self.old.total ≡ sum_by width self.old.spans.items }
        requires low { All (λ span. span.high ≤ 31) self.old.spans.items }
        requires few { length self.old.spans.items ≤ 2 ^ 16 }
        requires high { span.high ≤ 31 }
        ensures places { self.new.places.items ≡ self.old.places.items }
        ensures spans { OnOk result (self.new.spans.items ≡ slice_set self.old.spans.items net span) }
        ensures summed { OnOk result (self.new.total ≡ sum_by width self.new.spans.items) }
        ensures changed { OnOk result (self.new.changed.items ≡ self.old.changed.items ++ (net, slice_index_or self.old.spans.items net no_span) ∷ []) }
    {
        let old = self.spans[net as usize];
        self.changed.push((net, old))?;
        self.total = self.total - old.width() + span.width();
        self.spans[net as usize] = span;
        Ok(())
    }

    /// Measures nets again, of which an item came from a place to another, and has been put there.
    fn refresh_nets(
        &mut self,
        nets: &Nets,
        touching: &[u32],
        from: u32,
        to: u32,
    ) -> Result<(), AllocError>
        requires nets { IsNets nets.now }
        requires touching { All (λ net. net < net_count nets.now) touching.now }
        requires shaped { IsShaped nets.now self.old.places.items self.old.spans.items self.old.total }
        requires noted { AreNoted nets.now self.old.changed.items }
        requires to { to ≤ 31 }
        ensures places { self.new.places.items ≡ self.old.places.items }
        ensures shaped { OnOk result (IsShaped nets.now self.new.places.items self.new.spans.items self.new.total) }
        ensures noted { OnOk result (AreNoted nets.now self.new.changed.items) }
        ensures undone { OnOk result (undone self.new.changed.items self.new.spans.items ≡ undone self.old.changed.items self.old.spans.items) }
        ensures right { OnOk result ((before : List ℕ) (item : ℕ) → HasMoved nets.now before self.old.places.items item from to
            → ((net : ℕ) → Contains touching.now net → Contains (items_of nets.now net) item)
            → ((net : ℕ) → net < net_count nets.now → IsRight nets.now before self.old.spans.items net)
            → AreRenewed nets.now before self.new.places.items self.new.spans.items touching.now (length touching.now)) }
    {
        for net in touching {
            let span = self.span_after(nets, *net, from, to);
            self.renew(*net, span)?;
        }
        Ok(())
    }

    /// Measures the nets of an item again, which came from a place to another, and has been put there.
    pub fn refresh(&mut self, nets: &Nets, item: u32, from: u32, to: u32) -> Result<(), AllocError>
        requires nets { IsNets nets.now }
        requires item { item < item_count nets.now }
        requires moved { (before : List ℕ) × HasMoved nets.now before self.old.places.items item from to × IsMeasured nets.now before self.old.spans.items self.old.total }
        requires noted { AreNoted nets.now self.old.changed.items }
        requires to { to ≤ 31 }
        ensures places { self.new.places.items ≡ self.old.places.items }
        ensures measured { OnOk result (IsMeasured nets.now self.new.places.items self.new.spans.items self.new.total) }
        ensures noted { OnOk result (AreNoted nets.now self.new.changed.items) }
        ensures undone { OnOk result (undone self.new.changed.items self.new.spans.items ≡ undone self.old.changed.items self.old.spans.items) }
    {
        if from == to {
            return Ok(());
        }
        self.refresh_nets(nets, &nets.touching[item as usize], from, to)?;
        Ok(())
    }

    /// Puts back the spans that changed since the last settling, whose widths had this sum.
    pub fn put_back(&mut self, total: u32)
        requires { All (λ entry. entry.0 < length self.old.spans.items) self.old.changed.items }
        ensures places { self.new.places.items ≡ self.old.places.items }
        ensures spans { self.new.spans.items ≡ undone self.old.changed.items self.old.spans.items }
        ensures changed { self.new.changed.items ≡ [] }
        ensures total { self.new.total ≡ total }
    {
        while let Some((net, span)) = self.changed.pop() {
            self.spans[net as usize] = span;
        }
        self.total = total;
    }

    /// Takes the spans as they are.
    pub fn settle(&mut self)
        ensures places { self.new.places.items ≡ self.old.places.items }
        ensures spans { self.new.spans.items ≡ self.old.spans.items }
        ensures changed { self.new.changed.items ≡ [] }
        ensures total { self.new.total ≡ self.old.total }
    {
        self.changed.clear();
    }
}

/// The spans of the nets.
fn spans_of(alloc: Global, nets: &Nets, places: &[u32]) -> Result<Vec<Span>, AllocError>
    requires nets { IsNets nets.now }
    requires items { length places.now ≡ item_count nets.now }
    requires near { All (λ place. place ≤ 31) places.now }
    ensures len { IfOk result (λ spans. length spans.items ≡ net_count nets.now) }
    ensures right { IfOk result (λ spans. (net : ℕ) → net < net_count nets.now → IsRight nets.now places.now spans.items net) }
    ensures low { IfOk result (λ spans. All (λ span. span.high ≤ 31) spans.items) }
{
    let mut spans = Vec::with_capacity(alloc, nets.items.len())?;
    for items in &nets.items {
        spans.push(span_of(places, items))?;
    }
    Ok(spans)
}

/// The sum of some widths.
fn total_of(spans: &[Span]) -> u32
    requires few { length spans.now ≤ 2 ^ 16 }
    requires low { All (λ span. span.high ≤ 31) spans.now }
    ensures { result ≡ sum_by width spans.now }
{
    let mut total = 0;
    for span in spans {
        total += span.width();
    }
    total
}
