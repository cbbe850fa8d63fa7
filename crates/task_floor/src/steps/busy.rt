//! What stops a worker from taking a turn.

/// The turn of a task was not free.
#[derive(Clone, Copy, Debug, PartialEq, Eq)]
pub struct Busy {
    /// The worker that had it; `None` if the task was not made yet, or its maker had its first turn.
    pub holder: Option<u64>,
}
