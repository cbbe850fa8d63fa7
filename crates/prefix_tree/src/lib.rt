//! A tree of paths: it has one node for each prefix of the paths that were added to it.
//!
//! A path is made of names, by their numbers, and of indexes. Nodes are numbered in the order in which they are added,
//! from 0, which is the root. What the numbers of names stand for is left to the crates above.
#![tactic(auto)]

mod growth;
mod part;
mod step;
mod tree;

pub use part::Part;
pub use tree::PrefixTree;
