//! What is in the way of an admission.

/// A record that was in the way of an admission.
#[derive(Clone, Copy, Debug, PartialEq, Eq)]
pub struct Bar {
    /// The node at which it stood.
    pub node: u32,
    /// Its task.
    pub by: u32,
    /// The task at which the waits from there ended. It is not the one that is held, and its phase was found to be no wait.
    pub end: u32,
}

/// How a try to place a record ended.
#[derive(Clone, Copy, Debug, PartialEq, Eq)]
pub enum Attempt {
    /// The record was placed.
    Placed,
    /// The record stood already.
    Stood,
    /// A record was in the way.
    Barred(Bar),
}
