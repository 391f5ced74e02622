//! What the points of a text have.

ghost use Rattle.std.specs.Prelude.{◌≡◌, ◌<◌, length};
ghost use Rattle.fab_ternary.specs.Terns.{plain_tern};
ghost use Rattle.fab_compiled.specs.Terns.{seen, IsView};

use fab_ternary::Tern;

/// What the points of a text have, by their numbers. A point that is led to another has what is kept for that one.
#[derive(Clone, Copy)]
pub struct View<'v> {
    pub terns: &'v [Tern],
    pub leads: &'v [u32],
}

impl<'v> View<'v> {
    /// What a point has.
    pub fn at(&self, point: usize) -> Tern
        requires leads { IsView self.now.terns.now self.now.leads.now }
        requires within { point < length self.now.leads.now }
        ensures { plain_tern result ≡ seen self.now.terns.now self.now.leads.now point }
    {
        self.terns[self.leads[point] as usize]
    }
}
