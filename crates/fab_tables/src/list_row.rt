//! The rows of a switch list.

use fab_base::Name;
use std::marker::Model;

/// What a row of a switch list says.
#[derive(Debug, Drop)]
pub enum ListBody {
    /// The pairs of its two cells, an output and an input each, in order. A pair may come more than once.
    Pairs(Vec<(Name, Name)>),
    /// The rows of the file of this path, as it is written, stand in its place.
    Include(Name),
}

/// A row of a switch list, and the number of its line.
#[derive(Debug, Drop)]
pub struct ListRow {
    pub line: u32,
    pub body: ListBody,
}

impl Model for ListRow {
    ghost use Rattle.fab_tables.specs.Lists.{PlainListRow};
    ghost use Rattle.fab_tables.specs.Bodies.{plain_body};

    ghost Value = { PlainListRow };

    ghost view = { λ row. record { line = row.line; body = plain_body row.body } };
}
