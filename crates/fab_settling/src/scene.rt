//! What points are looked at by.

use fab_network::{Form, Network};
use fab_ternary::Tern;

/// All that stays the same while points that stand for themselves come to be known.
#[derive(Clone, Copy)]
pub struct Scene<'s> {
    pub network: &'s Network,
    /// The points that stand for themselves.
    pub order: &'s [u32],
    /// By the number of a point: what a latch holds.
    pub held: &'s [Tern],
    /// By the number of a point: the point to which it is led.
    pub leads: &'s [u32],
    /// By the place in the order: the forms of points, of the first of them at least.
    pub forms: &'s [Form],
}
