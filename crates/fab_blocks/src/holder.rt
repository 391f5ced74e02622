//! Where a row stands, as its reader knows.

use fab_base::Name;
use std::marker::Model;

/// Where a row stands.
#[derive(Debug, Drop)]
pub struct Holder<'a> {
    /// Its file.
    pub file: &'a Name,
    /// Whether that is a fabric file, or is included in one. Any other file holds tiles alone.
    pub is_fabric: bool,
    /// Whether the block that is open, if one is, was begun in this file.
    pub is_own: bool,
    /// How many INCLUDE rows may still be opened.
    pub left: u32,
}

impl<'a> Model for Holder<'a> {
    ghost use Rattle.fab_blocks.specs.Reading.{PlainHolder};

    ghost Value = { PlainHolder };

    ghost view = { λ h. record { file = h.file.now; is_fabric = h.is_fabric; is_own = h.is_own; left = h.left } };
}
