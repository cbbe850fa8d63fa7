//! Entries and the order between them.

use twe_base::List;

/// Entries in an order in which what leads to another comes before it.
#[derive(Debug, Drop)]
pub struct Graph {
    /// The weight of each entry.
    pub weights: List<u64>,
    /// For each entry, those that it leads to.
    pub leads: List<List<u32>>,
}
