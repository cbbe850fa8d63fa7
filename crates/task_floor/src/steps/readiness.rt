//! Whether a task in hand goes on.

/// Whether the next segment of a task may run.
#[derive(Clone, Copy, Debug, PartialEq, Eq)]
pub enum Readiness {
    /// It may run.
    Runs,
    /// The task waits for another, which was not found done.
    Waits {
        /// That task.
        on: u32,
    },
    /// The task waits for its admission.
    Made,
    /// The task has ended.
    Ended,
}
