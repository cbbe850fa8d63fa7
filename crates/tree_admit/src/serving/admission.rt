//! What a worker has done for the admission of a task.

/// What a worker has done for the admission of a task.
#[derive(Clone, Copy, Debug, PartialEq, Eq)]
pub enum Admission {
    /// It has admitted the task.
    Admitted,
    /// Nothing: a record of this task was met that bars it.
    Held {
        /// That task.
        by: u32,
    },
    /// Nothing: the task was admitted before, or has ended.
    Over,
    /// Nothing: the turn of the task was not free.
    Busy {
        /// The worker that had it; `None` if the task was not made yet, or its maker had its first turn.
        holder: Option<u64>,
    },
}
