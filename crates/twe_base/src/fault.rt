//! The faults that can stop a task.

/// A fault: it stops the task for good.
#[derive(Clone, Copy, Debug, PartialEq, Eq)]
pub enum FaultKind {
    /// A division by zero, or a remainder of one.
    DivZero,
    /// An index outside its array.
    Index,
    /// The task has used up its fuel.
    Fuel,
    /// Too many method calls are active at once.
    Depth,
    /// The task makes one task more than the limits allow.
    TaskLimit,
}
