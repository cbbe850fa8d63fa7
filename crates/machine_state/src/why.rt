//! Why a move is not legal.

/// Why a move is not legal.
#[derive(Clone, Copy, Debug, PartialEq, Eq)]
pub enum Why {
    /// There is no such task.
    NoTask,
    /// It is to be admitted, and does not wait for its admission.
    NotMade,
    /// It is to be admitted, and this task is the lowest bar to it.
    HeldBy(u32),
    /// It is to run, and is not enabled.
    NotEnabled,
    /// It is to run, and waits for this task.
    WaitsFor(u32),
}
