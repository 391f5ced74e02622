//! Where the items of a design stand before anything is exchanged.
ghost use Rattle.std.specs.Prelude.{◌≡◌, ℕ, ◌+◌, ◌<◌, ◌≤◌, ◌++◌, ◌∷◌, ◌||◌, false, List, Option, All, IfOk, OnOk, IfSome, None, [], map, length, get_or};
ghost use Rattle.fab_model.specs.Tiles.{counted};
ghost use Rattle.fab_place.specs.inner.Starts.{is_number, is_taken, free_numbers, loose, numbers_in_order, start_numbers};

use fab_base::Memory;
use std::alloc::Global;

/// The sites of the items: cell k on site k, each constrained port on its pad, and each other port on the next pad that
/// no constraint names. The sites of cells come first, and then the pads.
#[tactic(auto, using(crate::proofs::Orders::enough, crate::proofs::Orders::free_low))]
pub fn start_of(
    alloc: Global,
    cells: u32,
    luts: u32,
    pads: u32,
    constrained: &[Option<u32>],
) -> Result<Vec<u32>, Memory>
    requires few { luts ≤ 65536 }
    requires few_pads { pads ≤ 65536 }
    requires enough { length constrained.now ≤ pads }
    requires inside { All (λ pad. IfSome pad (λ number. number < pads)) constrained.now }
    ensures { IfOk result (λ start. start.items ≡ start_numbers cells luts pads constrained.now) }
{
    let free = free_pads(alloc, constrained, pads)?;
    let mut sites = Vec::new(alloc);
    put_cells(&mut sites, cells)?;
    put_ports(&mut sites, luts, constrained, &free)?;
    Ok(sites)
}

/// Adds the sites of cells.
fn put_cells(sites: &mut Vec<u32>, cells: u32) -> Result<(), Memory>
    ensures { OnOk result (sites.new.items ≡ sites.old.items ++ counted cells (λ cell. cell)) }
{
    for cell in 0..cells {
        sites.push(cell)?;
    }
    Ok(())
}

/// Adds the sites of ports, where these are the free pads.
fn put_ports(
    sites: &mut Vec<u32>,
    luts: u32,
    constrained: &[Option<u32>],
    free: &[u32],
) -> Result<(), Memory>
    requires few { luts ≤ 65536 }
    requires enough { loose constrained.now ≤ length free.now }
    requires inside { All (λ pad. IfSome pad (λ number. number < 65536)) constrained.now }
    requires free { All (λ number. number < 65536) free.now }
    ensures { OnOk result (sites.new.items ≡ sites.old.items ++ map (λ pad. luts + pad) (numbers_in_order free.now constrained.now)) }
{
    let mut left = free;
    for pad in constrained {
        let (number, rest) = next_pad(*pad, left);
        sites.push(luts + number)?;
        left = rest;
    }
    Ok(())
}

/// The pad of a port, and the free pads that are left.
fn next_pad<'a>(pad: Option<u32>, free: &'a [u32]) -> (u32, &'a [u32])
    requires enough { loose (pad ∷ []) ≤ length free.now }
    requires inside { IfSome pad (λ number. number < 65536) }
    requires free { All (λ number. number < 65536) free.now }
    ensures in_order { (later : List (Option ℕ)) → numbers_in_order free.now (pad ∷ later) ≡ result.0 ∷ numbers_in_order result.1.now later }
    ensures enough { (later : List (Option ℕ)) → loose (pad ∷ later) ≤ length free.now → loose later ≤ length result.1.now }
    ensures inside { result.0 < 65536 }
    ensures free { All (λ number. number < 65536) result.1.now }
{
    match pad {
        Some(number) => (number, free),
        None => (free[0], &free[1..]),
    }
}

/// The numbers of the pads that no constraint names.
fn free_pads(alloc: Global, constrained: &[Option<u32>], pads: u32) -> Result<Vec<u32>, Memory>
    requires { All (λ pad. IfSome pad (λ number. number < pads)) constrained.now }
    ensures { IfOk result (λ free. free.items ≡ free_numbers constrained.now pads) }
{
    let taken = taken_pads(alloc, constrained, pads)?;
    let mut free = Vec::new(alloc);
    for pad in 0..pads {
        if taken[pad as usize] {
            continue;
        }
        free.push(pad)?;
    }
    Ok(free)
}

/// Which pads constraints name.
fn taken_pads(alloc: Global, constrained: &[Option<u32>], pads: u32) -> Result<Vec<bool>, Memory>
    requires { All (λ pad. IfSome pad (λ number. number < pads)) constrained.now }
    ensures count { IfOk result (λ taken. length taken.items ≡ pads) }
    ensures taken { IfOk result (λ taken. (pad : ℕ) → pad < pads → get_or taken.items pad false ≡ is_taken constrained.now pad) }
{
    let mut taken = vec![in alloc; false; pads as usize]?;
    for pad in constrained {
        mark(&mut taken, *pad);
    }
    Ok(taken)
}

/// Notes that a constraint names a pad.
fn mark(taken: &mut Vec<bool>, pad: Option<u32>)
    requires { IfSome pad (λ number. number < length taken.old.items) }
    ensures count { length taken.new.items ≡ length taken.old.items }
    ensures marks { (other : ℕ) → other < length taken.old.items → get_or taken.new.items other false ≡ (get_or taken.old.items other false || is_number other pad) }
{
    if let Some(number) = pad {
        taken[number as usize] = true;
    }
}
