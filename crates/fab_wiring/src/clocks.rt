//! Which input of the top ticks a flip-flop.

ghost use Rattle.std.specs.Prelude.{◌≡◌, ℕ, List, [], Some};
ghost use Rattle.fab_syntax.specs.Plain.{plain_text};
ghost use Rattle.fab_meaning.specs.Points.{point};
ghost use Rattle.fab_equations.specs.Equations.{HasNoDot, IsPoint};
ghost use Rattle.fab_wiring.specs.Wiring.{clock_called};
ghost use Rattle.fab_wiring.specs.Clocks.{AreClocks, IsClockAt};

use fab_equations::Equations;
use fab_network::Clock;

/// The points of the two clocks, where the top has them.
#[derive(Clone, Copy)]
pub struct Clocks {
    loader: Option<u32>,
    user: Option<u32>,
}

/// The points of the two clocks.
pub fn clocks_of(equations: &Equations) -> Clocks
    ensures { AreClocks (plain_text equations.now) result }
{
    Clocks {
        loader: clock_at(equations, b"CLK"),
        user: clock_at(equations, b"UserCLK"),
    }
}

// The point of an input of the top.
fn clock_at(equations: &Equations, name: &[u8]) -> Option<u32>
    requires { HasNoDot name.now }
    ensures { IsClockAt (plain_text equations.now) name.now result }
{
    equations.place_of(name, 0)
}

impl Clocks {
    /// Which of the two clocks an input of the top is.
    pub fn clock(self, equations: &Equations, input: u32) -> Clock
        requires { AreClocks (plain_text equations.now) self }
        ensures { (name : List ℕ) → IsPoint (plain_text equations.now) input (point [] name 0) → result ≡ clock_called (Some name) }
    {
        equations.text_is_sound();
        if self.loader == Some(input) {
            return Clock::Loader;
        }
        if self.user == Some(input) {
            return Clock::User;
        }
        Clock::Other
    }
}
