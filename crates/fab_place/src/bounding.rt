//! Boxes around sites.
ghost use Rattle.std.specs.Prelude.{◌≡◌, ◌<◌};
ghost use Rattle.fab_place.specs.inner.Boxes.{around, included, half};

use fab_fabric::Site;

/// The least box around the tiles of some sites, by its columns and rows.
#[derive(Clone, Copy, Debug)]
pub struct BoundingBox {
    pub left: u32,
    pub right: u32,
    pub top: u32,
    pub bottom: u32,
}

impl BoundingBox {
    /// The box of one site.
    pub fn around(site: Site) -> BoundingBox
        ensures { result ≡ around site }
    {
        BoundingBox {
            left: site.x,
            right: site.x,
            top: site.y,
            bottom: site.y,
        }
    }

    /// Makes the box so large that it has a site too.
    pub fn include(&mut self, site: Site)
        ensures { self.new ≡ included self.old site }
    {
        self.left = self.left.min(site.x);
        self.right = self.right.max(site.x);
        self.top = self.top.min(site.y);
        self.bottom = self.bottom.max(site.y);
    }

    /// Its width plus its height.
    pub fn half(&self) -> u64
        ensures value { result ≡ half self.now }
        ensures small { result < 8589934592 }
    {
        let width = self.right.saturating_sub(self.left);
        let height = self.bottom.saturating_sub(self.top);
        width as u64 + height as u64
    }
}
