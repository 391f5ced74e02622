//! Nets of items.

/// Which items the nets hold, both ways: by net and by item.
#[derive(Debug, Drop)]
pub struct Nets {
    /// The items of each net.
    pub items: Vec<Vec<u32>>,
    /// The nets of each item.
    pub touching: Vec<Vec<u32>>,
}
