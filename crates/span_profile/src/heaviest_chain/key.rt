//! What a node gives to later nodes, and what a later node asks for.

/// A key. A node leads to a later one if it gives a key that the later one asks for. Tasks and places are known by their
/// numbers.
#[derive(Clone, Copy, Debug, PartialEq, Eq)]
pub enum Key {
    /// What a task has done, and the making of it.
    Task(u32),
    /// The value of a task that is done.
    Value(u32),
    /// What a place was last given.
    Write(u32),
    /// Any access to a place.
    Access(u32),
}
