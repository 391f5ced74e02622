//! What drives a point, and where a name is declared, by numbers.

use fab_syntax::Shape;
use fab_values::Role;

/// A bit of an expression over the names of an instance.
#[derive(Clone, Copy, Debug, PartialEq, Eq)]
pub struct Source {
    pub instance: u32,
    pub expr: u32,
    pub bit: u32,
}

/// What drives a point.
#[derive(Clone, Copy, Debug, PartialEq, Eq)]
pub enum Driver {
    /// The world: an input of the top.
    Outside,
    /// Another point, through an output port of an instance.
    Same(u32),
    /// The expression of an assignment or of an input port of an instance.
    Value(Source),
    /// A flip-flop: the point of its clock among the inputs of the top, and its next value.
    Flop(u32, Source),
    /// A latch: its gate and its data.
    Hold(Source, Source),
}

/// Where a name is declared: the point of its bit 0, and how.
#[derive(Clone, Copy, Debug, PartialEq, Eq)]
pub struct Declared {
    pub instance: u32,
    pub first: u32,
    pub shape: Shape,
    pub role: Role,
}

/// Where a look-up ended: the instance of its point, and the number of its declaration there. A look-up of a point near it begins there.
/// What is found does not depend on it.
#[derive(Clone, Copy, Debug, PartialEq, Eq)]
pub struct Cursor {
    pub(crate) instance: u32,
    pub(crate) declared: usize,
}

impl Cursor {
    /// At the first point.
    pub fn new() -> Cursor {
        Cursor {
            instance: 0,
            declared: 0,
        }
    }
}
