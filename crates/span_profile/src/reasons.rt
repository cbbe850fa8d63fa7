//! Why the entries of a chain follow one another.

/// Why an entry of a chain comes after the one before it. The first reason that holds counts.
#[derive(Clone, Copy, Debug, PartialEq, Eq)]
pub enum LinkReason {
    /// It is the first of the chain.
    First,
    /// It is of the same task.
    GoesOn,
    /// Its task was made by the one before.
    Made,
    /// It begins by taking the value of the task that was done by the one before.
    Took,
    /// It reads the path of a cell, which the one before wrote.
    Read {
        /// The number of the cell.
        cell: u32,
    },
    /// It writes `Console`, as a print does, after an access.
    Printed {
        /// Whether the one before wrote it, too.
        wrote: bool,
    },
    /// It writes the path of a cell after an access.
    Wrote {
        /// The number of the cell.
        cell: u32,
        /// Whether the one before wrote it, too.
        wrote: bool,
    },
    /// Nothing that the one before did leads to it.
    Unlinked,
}

/// What is told of an entry of a chain.
#[derive(Clone, Copy, Debug, PartialEq, Eq)]
pub struct ChainStep {
    /// The number of the entry, counted from 0.
    pub entry: u64,
    /// Its task.
    pub task: u32,
    /// Why it comes after the one before it.
    pub reason: LinkReason,
}
