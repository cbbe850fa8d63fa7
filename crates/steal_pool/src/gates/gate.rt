//! What a worker tells of the segments that it runs. Tests watch workers there; the program does not.

/// A place that workers pass. Nothing is promised of it.
pub trait Gate {
    /// A worker is about to run a segment of this task. It holds no lock.
    fn pass(&self, task: u32);

    /// A worker is about to read or write a cell in a segment of this task. It holds no lock. A worker that runs its segments
    /// under a lock never calls it.
    fn touch(&self, task: u32);
}

/// The gate of the program, at which nothing happens.
#[derive(Clone, Copy, Debug, Drop)]
pub struct FreeGate;

impl Gate for FreeGate {
    fn pass(&self, _task: u32) {}

    fn touch(&self, _task: u32) {}
}
