//! What a worker has done with a task.

use seg_journal::End;

/// What a worker has done with a task.
#[derive(Clone, Copy, Debug, PartialEq, Eq)]
pub enum Served {
    /// It has run a segment of the task, whose entry ends so.
    Ran {
        /// The end.
        end: End,
    },
    /// Nothing: the task waits for another, which was not found done.
    Waits {
        /// That task.
        on: u32,
    },
    /// Nothing: the task waits for its admission.
    Made,
    /// Nothing: the task has ended.
    Ended,
    /// Nothing: the turn of the task was not free.
    Busy {
        /// The worker that had it; `None` if the task was not made yet, or its maker had its first turn.
        holder: Option<u64>,
    },
}
