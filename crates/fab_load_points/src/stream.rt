//! The inputs of the top that carry words, and where names of instances begin.

ghost use Rattle.std.specs.Prelude.{◌≡◌, ◌⊎◌, ◌↔◌, ◌+◌, ◌<◌, ◌≤◌, [], Some, length, IsTrue};
ghost use Rattle.fab_syntax.specs.Declarations.{width};
ghost use Rattle.fab_syntax.specs.Plain.{plain_text};
ghost use Rattle.fab_syntax.specs.Sound.{IsSound};
ghost use Rattle.fab_meaning.specs.Loading.{write_data_name, write_strobe_name};
ghost use Rattle.fab_meaning.specs.Runs.{clock_name};
ghost use Rattle.fab_equations.specs.Instances.{Instance, instances};
ghost use Rattle.fab_equations.specs.Numbering.{IsInstanceOfNumber};
ghost use Rattle.fab_load_points.specs.inner.Causes.{IsFirstOf, IsStreamOf, IsTopBit};

use fab_equations::{Declared, Equations};
use fab_values::bits_of_shape;

/// The first points of the inputs of the top that carry words, as far as the top has names like them.
#[derive(Clone, Copy, Debug)]
pub struct Stream {
    pub clock: Option<u32>,
    pub strobe: Option<u32>,
    pub data: Option<u32>,
}

impl Stream {
    /// The names of the stream in the top of a text.
    pub fn of(equations: &Equations) -> Stream
        requires { IsSound (plain_text equations.now) }
        ensures { IsStreamOf (plain_text equations.now) result }
    {
        Stream {
            clock: top_point(equations, b"CLK"),
            strobe: top_point(equations, b"WriteStrobe"),
            data: top_point(equations, b"WriteData"),
        }
    }

    /// Whether a point is one of them.
    pub fn has(self, point: u32) -> bool
        ensures { IsTrue result ↔ ((self.clock ≡ Some point) ⊎ ((self.strobe ≡ Some point) ⊎ (self.«data» ≡ Some point))) }
    {
        let point = Some(point);
        self.clock == point || self.strobe == point || self.data == point
    }
}

/// Whether a point is a bit of one of them.
pub fn carries_words(equations: &Equations, number: u32) -> bool
    requires { IsSound (plain_text equations.now) }
    ensures { IsTrue result ↔ (IsTopBit (plain_text equations.now) clock_name number ⊎ (IsTopBit (plain_text equations.now) write_strobe_name number
        ⊎ IsTopBit (plain_text equations.now) write_data_name number)) }
{
    is_top_bit(equations, b"CLK", number)
        || is_top_bit(equations, b"WriteStrobe", number)
        || is_top_bit(equations, b"WriteData", number)
}

// Whether a point is a bit of a name of the top.
fn is_top_bit(equations: &Equations, name: &[u8], number: u32) -> bool
    requires { IsSound (plain_text equations.now) }
    ensures { IsTrue result ↔ IsTopBit (plain_text equations.now) name.now number }
{
    if equations.instances() == 0 {
        return false;
    }
    match equations.local(0, name) {
        Some(declared) => is_bit(declared, number),
        None => false,
    }
}

// Whether a point is a bit of a declared name.
fn is_bit(declared: Declared, number: u32) -> bool
    ensures { IsTrue result ↔ ((declared.first ≤ number) × (number < declared.first + width declared.shape)) }
{
    declared.first <= number && number - declared.first < bits_of_shape(declared.shape)
}

// The first point of a name of the top; none where the top has no bit of such a name.
fn top_point(equations: &Equations, name: &[u8]) -> Option<u32>
    requires { IsSound (plain_text equations.now) }
    ensures { IsFirstOf (plain_text equations.now) [] name.now result }
{
    if equations.instances() == 0 {
        return None;
    }
    first_point(equations, 0, name)
}

/// The first point of a name of an instance; none where the instance has no bit of such a name.
pub fn first_point(equations: &Equations, instance: u32, name: &[u8]) -> Option<u32>
    requires sound { IsSound (plain_text equations.now) }
    requires instance { instance < length (instances (plain_text equations.now)) }
    ensures { (i : Instance) → IsInstanceOfNumber (plain_text equations.now) instance i → IsFirstOf (plain_text equations.now) i.path name.now result }
{
    let declared = equations.local(instance, name)?;
    if bits_of_shape(declared.shape) == 0 {
        return None;
    }
    Some(declared.first)
}
