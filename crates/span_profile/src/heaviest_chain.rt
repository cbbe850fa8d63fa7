//! The heaviest chain of the entries of a run.
//!
//! Nodes come one after another, each with a weight, the keys that it asks for and the keys that it gives. A node leads to a
//! later one that asks for a key which it gives. A chain is a list of nodes, each of which leads to the next. `Chains` finds
//! the heaviest chain, by its code in time near linear in the number of nodes and keys. What the nodes and keys stand for is
//! left to the other modules of the crate.

mod chains;
pub(crate) mod fronts;
pub(crate) mod key;
pub(crate) mod top;

pub use chains::{Chains, Heaviest};
pub use key::Key;
