//! What a worker has ended, from which a crew tells whether tasks are worth workers.

/// How many tasks a worker has ended, with a value or a fault, and how much fuel these took. No clause says that these numbers
/// are right.
#[derive(Clone, Copy, Debug, Default, PartialEq, Eq)]
pub struct Tally {
    /// How many tasks.
    pub tasks: u64,
    /// How much fuel they took in all their segments, in units.
    pub fuel: u64,
}

impl Tally {
    /// Counts a task that took so much fuel.
    pub(crate) fn count(&mut self, fuel: u64) {
        self.tasks = self.tasks.saturating_add(1);
        self.fuel = self.fuel.saturating_add(fuel);
    }
}
