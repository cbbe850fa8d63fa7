//! What a worker knows of tasks that have ended, for the tasks of its list that wait for them or are held back by them.

use std::alloc::Global;
use std::collections::BTreeMap;
use twe_base::Memory;
use twe_rounds::Waiting;

/// Tasks that were found done, and those that are awaited: others wait for them, or are held back by them.
#[derive(Drop)]
pub(crate) struct EndedTasks {
    // The tasks that were found done since the worker's list was told last, each with a task that waited for it, if one is known
    // that perhaps is not on that list.
    done: Vec<(u32, Option<u32>)>,
    // Tasks that were held, whose bar this worker has ended.
    freed: Vec<u32>,
    // The awaited tasks that were not found done yet, each once.
    awaited: Vec<u32>,
    // The same tasks.
    listed: BTreeMap<u32, ()>,
    // The place of the one that is looked at.
    at: usize,
    // How far the way through all of them has come, from the latest to the earliest.
    way: usize,
}

impl EndedTasks {
    /// Nothing is known.
    pub(crate) fn new(alloc: Global) -> Self {
        EndedTasks {
            done: Vec::new(alloc),
            freed: Vec::new(alloc),
            awaited: Vec::new(alloc),
            listed: BTreeMap::new(alloc),
            at: 0,
            way: 0,
        }
    }

    /// A task has ended with a value. If it is known which one waited for it, this worker goes on with that one, whoever has it
    /// on his list.
    pub(crate) fn end(&mut self, task: u32, waiter: Option<u32>) -> Result<(), Memory> {
        self.done.push((task, waiter))?;
        Ok(())
    }

    /// A bar of the task has ended.
    pub(crate) fn free(&mut self, task: u32) -> Result<(), Memory> {
        self.freed.push(task)?;
        Ok(())
    }

    /// Some task waits for this one, or is held back by it.
    pub(crate) fn await_end(&mut self, task: u32) -> Result<(), Memory> {
        if self.listed.insert(task, ())?.is_none() {
            self.awaited.push(task)?;
        }
        Ok(())
    }

    /// The awaited task that came to be awaited so many tasks before the latest one.
    pub(crate) fn latest_awaited(&mut self, back: usize) -> Option<u32> {
        let count = self.awaited.len();
        if back >= count {
            return None;
        }
        self.at = count - 1 - back;
        self.awaited.get(self.at).copied()
    }

    /// The awaited task that comes next on the way through all of them.
    pub(crate) fn next_awaited(&mut self) -> Option<u32> {
        if self.awaited.is_empty() {
            return None;
        }
        if self.way == 0 || self.way > self.awaited.len() {
            self.way = self.awaited.len();
        }
        self.way -= 1;
        self.at = self.way;
        self.awaited.get(self.at).copied()
    }

    /// Notes what was found of the awaited task that was looked at last.
    pub(crate) fn note(&mut self, task: u32, done: bool) -> Result<(), Memory> {
        if !done {
            return Ok(());
        }
        if self.at < self.awaited.len() {
            self.awaited.swap_remove(self.at);
        }
        self.listed.remove(&task);
        self.end(task, None)
    }

    /// Tells a worker's list which tasks were found done since it was told last.
    pub(crate) fn tell(&mut self, waiting: &mut Waiting) -> Result<(), Memory> {
        for (task, waiter) in self.done.iter() {
            if let Some(waiter) = waiter {
                waiting.wait(*waiter, *task, None)?;
            }
            waiting.end(*task)?;
        }
        self.done.clear();
        waiting.free(&mut self.freed)
    }
}
