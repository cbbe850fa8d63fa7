//! Which task waits for which, so that a worker that ends a task can go on with the one that waited for it at once.

use std::alloc::Global;
use std::sync::atomic::{AtomicU32, Ordering};
use twe_base::Memory;

/// The tasks that were found to wait in a round, beside those that they wait for. What is read here only says where to look:
/// whether a task may run is found on the floor.
#[derive(Drop)]
pub(crate) struct Waiters {
    // By the number of a task one more than that of the task that waits for it, or 0 if none was found.
    waiters: Vec<AtomicU32>,
}

impl Waiters {
    /// None was found yet of so many tasks.
    pub(crate) fn new(alloc: Global, tasks: u32) -> Result<Self, Memory> {
        let mut waiters = Vec::with_capacity(alloc, tasks as usize)?;
        for _ in 0..tasks {
            waiters.push(AtomicU32::new(0))?;
        }
        Ok(Waiters { waiters })
    }

    /// A task was found to wait for `on`.
    pub(crate) fn note(&self, task: u32, on: u32) {
        if let Some(waiter) = self.waiters.get(on as usize) {
            waiter.store(task.saturating_add(1), Ordering::SeqCst);
        }
    }

    /// The task that was found to wait for this one, if one was.
    pub(crate) fn of(&self, task: u32) -> Option<u32> {
        let waiter = self.waiters.get(task as usize)?.load(Ordering::SeqCst);
        waiter.checked_sub(1)
    }
}
