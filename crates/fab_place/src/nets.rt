//! Nets by the pins that they have.
ghost use Rattle.std.specs.Prelude.{◌≡◌, ◌≢◌, ℕ, ◌<◌, ◌≤◌, ◌++◌, IfOk, OnOk, All, [], ◌∷◌, length, slice_get};
ghost use Rattle.fab_annealing.specs.Measured.{IsNets, item_count, net_count, numbers_of};
ghost use Rattle.fab_place.specs.Pins.{HavePins};

use fab_annealing::Nets;
use fab_base::Memory;
use std::alloc::Global;

/// An item that a net has.
#[derive(Clone, Copy, Debug)]
pub struct Pin {
    pub net: u32,
    pub item: u32,
}

/// The nets that pins make, of so many nets and items.
pub fn nets_of(alloc: Global, pins: &[Pin], nets: u32, items: u32) -> Result<Nets, Memory>
    requires nets { All (λ pin. pin.net < nets) pins.now }
    requires items { All (λ pin. pin.item < items) pins.now }
    requires few { nets ≤ 65536 }
    requires few_items { items ≤ 65536 }
    ensures made { IfOk result (λ made. IsNets made) }
    ensures nets { IfOk result (λ made. net_count made ≡ nets) }
    ensures items { IfOk result (λ made. item_count made ≡ items) }
    ensures pins { IfOk result (λ made. HavePins made pins.now) }
{
    let mut by_net = no_lists(alloc, nets)?;
    let mut by_item = no_lists(alloc, items)?;
    for pin in pins {
        put(&mut by_net, pin.net, pin.item)?;
        put(&mut by_item, pin.item, pin.net)?;
    }
    Ok(Nets {
        items: by_net,
        touching: by_item,
    })
}

/// So many empty lists.
fn no_lists(alloc: Global, count: u32) -> Result<Vec<Vec<u32>>, Memory>
    ensures count { IfOk result (λ lists. length lists.items ≡ count) }
    ensures empty { IfOk result (λ lists. (number : ℕ) → numbers_of (slice_get lists.items number) ≡ []) }
{
    let mut lists = Vec::new(alloc);
    for _list in 0..count {
        lists.push(Vec::new(alloc))?;
    }
    Ok(lists)
}

/// Puts a number at the end of a list.
fn put(lists: &mut Vec<Vec<u32>>, at: u32, number: u32) -> Result<(), Memory>
    requires { at < length lists.old.items }
    ensures count { OnOk result (length lists.new.items ≡ length lists.old.items) }
    ensures here { OnOk result (numbers_of (slice_get lists.new.items at) ≡ numbers_of (slice_get lists.old.items at) ++ number ∷ []) }
    ensures others { OnOk result ((other : ℕ) → other ≢ at → numbers_of (slice_get lists.new.items other) ≡ numbers_of (slice_get lists.old.items other)) }
{
    lists[at as usize].push(number)?;
    Ok(())
}
