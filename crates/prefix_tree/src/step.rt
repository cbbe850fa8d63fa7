//! The steps that lead from a node to the nodes right below it.

use crate::part::Part;

/// A step from a node to one right below it.
#[derive(Clone, Copy, Debug, PartialEq, Eq, Hash)]
pub(crate) struct Step {
    /// The node from which the step leads down.
    pub from: u32,
    /// The element by which the path grows.
    pub part: Part,
}
