//! Groups of points that are looked at together.

ghost use Rattle.std.specs.Prelude.{◌≡◌, ◌+◌, ◌<◌, ◌≤◌, ℕ, true, length, slice_get, IfSome, OnSome, Some};
ghost use Rattle.fab_network.specs.Network.{AreFit};
ghost use Rattle.fab_network.specs.Passes.{IsListed};
ghost use Rattle.fab_changes.specs.declared.groups.Group.{Group};
ghost use Rattle.fab_changes.specs.Changes.{takes_given};
ghost use Rattle.fab_changes.specs.Fanout.{ArePlaces, IsOnce};
ghost use Rattle.fab_changes.specs.inner.Grouping.{AreBitGroups, ArePlacedBy, AreTaken, AreWatched, BeginBehind, HasBit, IsFanoutOf, IsNext, IsOrderedAt};

use crate::fanout::Fanout;
use crate::places::Places;
use fab_network::{Drive, Network, Source};
use std::alloc::Global;

/// How many points of expressions there is room to look at, for each point of a text: most expressions are read as a whole.
const LOOKS_OF_A_POINT: usize = 16;

/// Neighbours among the points that stand for themselves, which are bits of one expression.
#[derive(Clone, Copy, Debug)]
pub struct Group {
    /// The place of the first.
    pub begin: u32,
    /// The place behind the last.
    pub end: u32,
    /// The first bit.
    pub source: Source,
}

// ---- the points

// The places of inputs and flip-flops.
pub(crate) fn taken_of(alloc: Global, network: &Network, own: &[u32]) -> Option<Vec<u32>>
    ensures { IfSome result (λ taken. AreTaken network.now own.now (length own.now) taken.items) }
{
    let mut taken = Vec::new(alloc);
    for place in 0..own.len() {
        if is_taken(network, own[place] as usize) {
            taken.push(u32::try_from(place).ok()?).ok()?;
        }
    }
    Some(taken)
}

// By the number of a point: one more than its place if it is one of these, and 0 if it is not.
pub(crate) fn places_of(alloc: Global, places: &Places, taken: &[u32]) -> Option<Vec<u32>>
    requires places { ArePlaces places.now }
    requires once { IsOnce places.now.own.now }
    requires within { (place : ℕ) → IsListed taken.now place → place < length places.now.own.now }
    ensures { IfSome result (λ by_point. ArePlacedBy places.now.own.now taken.now (length taken.now) by_point.items) }
{
    let mut by_point = vec![in alloc; 0; places.leads.len()].ok()?;
    for place in taken {
        let point = places.own[*place as usize] as usize;
        let behind = place.checked_add(1)?;
        by_point[point] = behind;
    }
    Some(by_point)
}

// Whether a point takes what is given to it.
fn is_taken(network: &Network, point: usize) -> bool
    ensures { result ≡ takes_given (slice_get network.now.drives.items point) }
{
    matches!(
        network.drives.get(point),
        Some(Drive::Given | Drive::Flop(_, _))
    )
}

// The groups of the other points. `None` where one of them is a latch or a copy of a point.
pub(crate) fn groups_of(alloc: Global, network: &Network, own: &[u32]) -> Option<Vec<Group>>
    ensures { IfSome result (λ groups. AreBitGroups network.now own.now (length own.now) groups.items) }
{
    let mut groups = Vec::new(alloc);
    for place in 0..own.len() {
        add_point(network, own, place, &mut groups)?;
    }
    Some(groups)
}

// One more point.
fn add_point(network: &Network, own: &[u32], place: usize, groups: &mut Vec<Group>) -> Option<()>
    requires within { place < length own.now }
    requires groups { AreBitGroups network.now own.now place groups.old.items }
    ensures { OnSome result (AreBitGroups network.now own.now (place + 1) groups.new.items) }
{
    let point = own[place] as usize;
    if is_taken(network, point) {
        return Some(());
    }
    match network.drives.get(point) {
        Some(Drive::Value(source)) => add_bit(u32::try_from(place).ok()?, *source, groups),
        Some(Drive::Given | Drive::Flop(_, _) | Drive::Same(_) | Drive::Hold(_, _)) | None => None,
    }
}

// One more bit of an expression: it ends the group before it, or begins one.
fn add_bit(place: u32, source: Source, groups: &mut Vec<Group>) -> Option<()>
    ensures { OnSome result (HasBit place source groups.old.items groups.new.items) }
{
    let end = place.checked_add(1)?;
    let count = groups.len();
    if count > 0 && is_next(groups[count - 1], place, source) {
        groups[count - 1].end = end;
        return Some(());
    }
    let group = Group {
        begin: place,
        end,
        source,
    };
    groups.push(group).ok()
}

// Whether a bit belongs to the group before it.
fn is_next(group: Group, place: u32, source: Source) -> bool
    ensures { result ≡ true → IsNext group place source }
{
    group.end == place && group.source.is_beside(source)
}

// How many points the longest group has.
pub(crate) fn longest(groups: &[Group]) -> usize
    ensures { (number : ℕ) (group : Group) → slice_get groups.now number ≡ Some group → group.end ≤ group.begin + result }
{
    let mut most = 0;
    for group in groups {
        most = most.max(group.end.saturating_sub(group.begin) as usize);
    }
    most
}

// ---- what they read

// Each group watches all points of its expression, and is stale.
pub(crate) fn fanout_of(
    alloc: Global,
    network: &Network,
    places: &Places,
    groups: &[Group],
) -> Option<Fanout>
    requires fit { AreFit network.now.trees.items network.now.drives.items }
    requires points { length network.now.drives.items ≡ length places.now.leads.now }
    requires places { ArePlaces places.now }
    requires groups { AreBitGroups network.now places.now.own.now (length places.now.own.now) groups.now }
    ensures { IfSome result (IsFanoutOf network.now places.now.own.now places.now.leads.now groups.now) }
{
    let room = places.leads.len().saturating_mul(LOOKS_OF_A_POINT);
    let mut fanout = Fanout::new(alloc, places.own.len(), groups.len(), room)?;
    note_groups(network, places, groups, &mut fanout)?;
    Some(fanout)
}

// Each group watches all points of its expression.
fn note_groups(
    network: &Network,
    places: &Places,
    groups: &[Group],
    fanout: &mut Fanout,
) -> Option<()>
    requires fit { AreFit network.now.trees.items network.now.drives.items }
    requires points { length network.now.drives.items ≡ length places.now.leads.now }
    requires places { ArePlaces places.now }
    requires groups { AreBitGroups network.now places.now.own.now (length places.now.own.now) groups.now }
    ensures watched { OnSome result (AreWatched network.now places.now.own.now places.now.leads.now fanout.new.readers.items (length groups.now) groups.now) }
    ensures stale { fanout.new.stale ≡ fanout.old.stale }
{
    for number in 0..groups.len() {
        let group = groups[number];
        let tree = network.trees.get(group.source.tree as usize)?;
        let reader = u32::try_from(number).ok()?;
        fanout.note_tree(places, tree, group.source.first as usize, reader)?;
    }
    Some(())
}

// Whether each group reads inputs, flip-flops and groups before it alone.
pub(crate) fn are_ordered(network: &Network, own: &[u32], groups: &[Group], fanout: &Fanout) -> bool
    ensures { result ≡ true → (place : ℕ) → place < length own.now → IsOrderedAt network.now own.now fanout.now.readers.items groups.now place }
{
    for place in 0..own.len() {
        if !is_ordered_at(network, own, groups, fanout, place) {
            return false;
        }
    }
    true
}

// The same of groups that read the point at a place.
fn is_ordered_at(
    network: &Network,
    own: &[u32],
    groups: &[Group],
    fanout: &Fanout,
    place: usize,
) -> bool
    requires { place < length own.now }
    ensures { result ≡ true → IsOrderedAt network.now own.now fanout.now.readers.items groups.now place }
{
    if is_taken(network, own[place] as usize) {
        return true;
    }
    match fanout.readers.get(place) {
        Some(readers) => begin_behind(place, readers, groups),
        None => true,
    }
}

// Whether each of these groups begins behind a place.
fn begin_behind(place: usize, readers: &[u32], groups: &[Group]) -> bool
    ensures { result ≡ true → BeginBehind place readers.now groups.now }
{
    for reader in readers {
        if let Some(group) = groups.get(*reader as usize) {
            if group.begin as usize <= place {
                return false;
            }
        }
    }
    true
}
