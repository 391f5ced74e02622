//! The instances of a text in their order, each with its module, its first point and the instance in which it stands.

ghost use Rattle.std.specs.Prelude.{◌≡◌, ◌⊎◌, ℕ, ◌+◌, ◌^◌, ◌<◌, ◌≤◌, IfOk, Some, length, take, slice_get};
ghost use Rattle.fab_syntax.specs.Plain.{plain_text};
ghost use Rattle.fab_syntax.specs.Sound.{IsSound};
ghost use Rattle.fab_equations.specs.Instances.{instances, most_points, whole_count};
ghost use Rattle.fab_equations.specs.Tables.{AreTables};
ghost use Rattle.fab_equations.specs.inner.Placed.{bits_together, ArePlaced, IsNoted};
ghost use Rattle.fab_equations.specs.declared.placed.PlacedInstance.{PlacedInstance};
ghost use Rattle.fab_equations.specs.declared.tables.ChildTable.{ChildTable};

use crate::tables::{ChildTable, Table};
use fab_base::Memory;
use fab_syntax::Text;
use std::alloc::Global;

/// An instance of a text.
#[derive(Clone, Copy, Debug)]
pub struct PlacedInstance {
    /// The number of its module.
    pub module: u32,
    /// Its first point.
    pub first: u32,
    /// The instance in which it stands; of the top 0.
    pub parent: u32,
    /// Which of the instances in that one's module it is; of the top 0.
    pub child: u32,
}

/// The instances of a sound text, of which it is known how many there are. Want of memory is also the answer where the number
/// of a module is too great for 32 bits.
pub fn placed_instances(
    alloc: Global,
    text: &Text,
    tables: &[Table],
    count: usize,
) -> Result<Vec<PlacedInstance>, Memory>
    requires sound { IsSound (plain_text text.now) }
    requires tables { AreTables (plain_text text.now) tables.now }
    requires count { count ≡ length (instances (plain_text text.now)) }
    requires small { whole_count (plain_text text.now) ≤ most_points }
    ensures { IfOk result (λ placed. ArePlaced (plain_text text.now) placed.items) }
{
    let Ok(module) = u32::try_from(tables.len().saturating_sub(1)) else {
        return Err(Memory);
    };
    let top = PlacedInstance {
        module,
        first: 0,
        parent: 0,
        child: 0,
    };
    let mut placed = vec![in alloc; top; count]?;
    for number in 0..count {
        let table = &tables[placed[number].module as usize];
        place_children(&mut placed, number, &table.children);
    }
    place_points(&mut placed, tables);
    Ok(placed)
}

// Notes the instances in an instance, which stand behind it.
fn place_children(placed: &mut [PlacedInstance], parent: usize, children: &[ChildTable])
    requires parent { parent < 2 ^ 32 }
    requires within { (number : ℕ) (child : ChildTable) → slice_get children.now number ≡ Some child → (number < 2 ^ 32) × (parent + child.offset < length placed.old) }
    ensures kept { (number : ℕ) (p : PlacedInstance) → slice_get placed.new number ≡ Some p → (slice_get placed.old number ≡ Some p) ⊎ IsNoted children.now parent number p }
    ensures all { (number : ℕ) (child : ChildTable) → slice_get children.now number ≡ Some child → (p : PlacedInstance) →
        slice_get placed.new (parent + child.offset) ≡ Some p → IsNoted children.now parent (parent + child.offset) p }
{
    for (number, child) in children.iter().enumerate() {
        placed[parent + child.offset as usize] = PlacedInstance {
            module: child.module,
            first: 0,
            parent: parent as u32,
            child: number as u32,
        };
    }
}

// Notes where the points of each instance begin.
fn place_points(placed: &mut [PlacedInstance], tables: &[Table])
    requires modules { (number : ℕ) (p : PlacedInstance) → slice_get placed.old number ≡ Some p → p.«module» < length tables.now }
    requires small { bits_together tables.now placed.old < 2 ^ 32 }
    ensures { (number : ℕ) (p : PlacedInstance) → slice_get placed.old number ≡ Some p →
        slice_get placed.new number ≡ Some (record p { first = bits_together tables.now (take number placed.old) }) }
{
    let mut first: u32 = 0;
    for here in placed.iter_mut() {
        here.first = first;
        first += tables[here.module as usize].names.bits();
    }
}
