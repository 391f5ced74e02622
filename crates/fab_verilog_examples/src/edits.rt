//! Trees that no text gives.

use fab_base::Memory;
use fab_syntax::{Expr, Item, Text};
use std::alloc::Global;

/// How many complements stand around one another in a value that is too deep for a text.
const LEVELS: u32 = 10_000;

/// What becomes of a value.
#[derive(Clone, Copy)]
pub enum Edit {
    /// Complements stand around it.
    Deep,
    /// A concatenation of nothing stands in its place.
    Empty,
}

// Complements around one another, and a value in the innermost.
fn nested(alloc: Global, value: Expr) -> Result<Expr, Memory> {
    let mut value = value;
    for _ in 0..LEVELS {
        value = Expr::Not(Box::new(alloc, value)?);
    }
    Ok(value)
}

fn edited_value(alloc: Global, value: Expr, edit: Edit) -> Result<Expr, Memory> {
    match edit {
        Edit::Deep => nested(alloc, value),
        Edit::Empty => Ok(Expr::Cat(Vec::new(alloc))),
    }
}

// An item; where it is an assignment or a flip-flop, with another value.
fn edited(alloc: Global, item: Item, edit: Edit) -> Result<Item, Memory> {
    match item {
        Item::Assign(target, value) => Ok(Item::Assign(target, edited_value(alloc, value, edit)?)),
        Item::Clocked(clock, target, value) => {
            let value = edited_value(alloc, value, edit)?;
            Ok(Item::Clocked(clock, target, value))
        }
        other => Ok(other),
    }
}

/// Edits the value of the last item of a text.
pub fn edit_last(alloc: Global, text: &mut Text, edit: Edit) -> Result<(), Memory> {
    if let Some(top) = text.modules.last_mut() {
        if let Some(item) = top.items.pop() {
            top.items.push(edited(alloc, item, edit)?)?;
        }
    }
    Ok(())
}
