//! What is placed, and where.

use crate::nets::Nets;

/// The sites of a board, and the items that stand on them.
#[derive(Debug, Drop)]
pub struct Board {
    /// The column of each site.
    pub columns: Vec<u32>,
    /// The row of each site.
    pub rows: Vec<u32>,
    /// The first site of the second kind: those before are of the first, and those from it on of the second.
    pub second: u32,
    /// The nets of the items.
    pub nets: Nets,
    /// Whether an item stays where it is.
    pub locked: Vec<bool>,
}

impl Board {
    ghost use Rattle.std.specs.Prelude.{◌≡◌, ◌↔◌, ◌<◌, ◌≤◌, IsTrue};
    ghost use Rattle.fab_annealing.specs.Boards.{IsBoard, site_count, column, row, is_second};

    /// How many sites it has.
    pub fn sites(&self) -> u32
        requires { IsBoard self.now }
        ensures { result ≡ site_count self.now }
    {
        self.columns.len() as u32
    }

    /// The column of a site.
    pub fn column(&self, site: u32) -> u32
        requires board { IsBoard self.now }
        requires site { site < site_count self.now }
        ensures value { result ≡ column self.now site }
        ensures near { result ≤ 31 }
    {
        self.columns[site as usize]
    }

    /// The row of a site.
    pub fn row(&self, site: u32) -> u32
        requires board { IsBoard self.now }
        requires site { site < site_count self.now }
        ensures value { result ≡ row self.now site }
        ensures near { result ≤ 31 }
    {
        self.rows[site as usize]
    }

    /// Whether a site is of the second kind.
    pub fn is_second(&self, site: u32) -> bool
        ensures { result ≡ is_second self.now site }
    {
        self.second <= site
    }

    /// Whether a site is of a kind.
    pub fn is_of(&self, site: u32, second: bool) -> bool
        ensures { IsTrue result ↔ (is_second self.now site ≡ second) }
    {
        self.is_second(site) == second
    }
}
