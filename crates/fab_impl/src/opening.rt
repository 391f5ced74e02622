//! How the text of an implementation begins.

ghost use Rattle.std.specs.Prelude.{◌≡◌, Ok};
ghost use Rattle.fab_base.specs.Reading.{Answers};
ghost use Rattle.fab_impl.specs.Openings.{is_due, is_reset, may_come, opening_of, port_of, where_due};

use crate::kind::Kind;
use fab_base::{Name, Problem, Reason};

/// How a text begins, as far as its lines have come.
#[derive(Drop)]
pub enum Opening {
    /// In version 1, which has no reset port. A text whose first line has not come is seen as one.
    Plain,
    /// In version 2, and the next line has to name the reset port.
    ResetDue,
    /// In version 2, with this reset port.
    Reset(Name),
}

/// How a text begins whose first line has this version. `number` is the answer where there is no such version.
pub fn opening_of(version: &[u8]) -> Result<Opening, Problem>
    ensures { Answers (λ opening. opening) result (opening_of version.now) }
{
    if version == b"1".as_slice() {
        return Ok(Opening::Plain);
    }
    if version == b"2".as_slice() {
        return Ok(Opening::ResetDue);
    }
    Err(Problem::Malformed(Reason::Number))
}

fn is_reset(kind: Kind) -> bool
    ensures { result ≡ is_reset kind }
{
    matches!(kind, Kind::Reset)
}

impl Opening {
    fn is_due(&self) -> bool
        ensures { result ≡ is_due self.now }
    {
        matches!(self, Opening::ResetDue)
    }

    fn may_come(&self, kind: Kind) -> bool
        ensures { result ≡ may_come self.now kind }
    {
        self.is_due() == is_reset(kind)
    }

    /// Refuses, with `row`, a line that names a reset port where none is due, and any other line where one is.
    pub fn check_due(&self, kind: Kind) -> Result<(), Problem>
        ensures { Answers (λ unit. unit) result (where_due self.now kind (Ok tt)) }
    {
        if !self.may_come(kind) {
            return Err(Problem::Malformed(Reason::Row));
        }
        Ok(())
    }

    /// The reset port that is named, if one is.
    pub fn into_port(self) -> Option<Name>
        ensures { result ≡ port_of self }
    {
        match self {
            Opening::Plain | Opening::ResetDue => None,
            Opening::Reset(port) => Some(port),
        }
    }
}
