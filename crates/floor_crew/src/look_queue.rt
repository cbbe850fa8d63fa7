//! The tasks of a run at rest that are to be looked at, in their order.
//!
//! What an entry has changed comes first. Tasks that one bar held, which has ended, come after that, group by group. A group may
//! be large, as a thousand tasks that all wait for one region, of which only one can be admitted. So once a few of a group were
//! found held again, the others go with the last of them, and wait for its bar unseen.

use std::alloc::Global;
use std::collections::VecDeque;
use std::mem;
use twe_base::Memory;

/// How many tasks that one bar held are found held again before the others of them wait for the next bar unseen.
const MOST_MISSES: u32 = 8;

/// Tasks to be looked at.
#[derive(Drop)]
pub(crate) struct LookQueue {
    // Tasks to be looked at one by one. What has changed is at the front.
    ready: VecDeque<u32>,
    // Tasks that one bar held, which has ended. They are looked at after those.
    group: VecDeque<u32>,
    // How many tasks of that group were found held again.
    misses: u32,
    // Whether the task that is looked at is of that group.
    grouped: bool,
    // Further groups.
    freed: Vec<VecDeque<u32>>,
}

impl LookQueue {
    /// No task is to be looked at.
    pub(crate) fn new(alloc: Global) -> Self {
        LookQueue {
            ready: VecDeque::new(alloc),
            group: VecDeque::new(alloc),
            misses: 0,
            grouped: false,
            freed: Vec::new(alloc),
        }
    }

    /// A task is to be looked at before all others.
    pub(crate) fn add_first(&mut self, task: u32) -> Result<(), Memory> {
        self.ready.push_front(task)?;
        Ok(())
    }

    /// A task is to be looked at after those that are looked at one by one.
    pub(crate) fn add_last(&mut self, task: u32) -> Result<(), Memory> {
        self.ready.push_back(task)?;
        Ok(())
    }

    /// All tasks of a group are to be looked at one by one.
    pub(crate) fn add_each(&mut self, group: &VecDeque<u32>) -> Result<(), Memory> {
        for task in group.iter() {
            self.add_last(*task)?;
        }
        Ok(())
    }

    /// The tasks of a group are to be looked at after all those that are looked at one by one.
    pub(crate) fn add_group(&mut self, group: VecDeque<u32>) -> Result<(), Memory> {
        self.freed.push(group)?;
        Ok(())
    }

    /// The next task to be looked at, if there is one.
    pub(crate) fn next(&mut self) -> Option<u32> {
        self.grouped = false;
        if let Some(task) = self.ready.pop_front() {
            return Some(task);
        }
        if self.group.is_empty() {
            self.group = self.freed.pop()?;
            self.misses = 0;
        }
        self.grouped = true;
        self.group.pop_front()
    }

    /// The task that was looked at last was found held, and this list keeps the tasks that its bar holds. If it is of a group of
    /// which many were found held again, the others of the group come into that list, before the task.
    pub(crate) fn note_held(&mut self, kept: &mut VecDeque<u32>) -> Result<(), Memory> {
        if self.grouped {
            self.misses = self.misses.saturating_add(1);
            if self.misses > MOST_MISSES {
                put_before(kept, &mut self.group)?;
            }
        }
        Ok(())
    }

    /// No task is to be looked at any more.
    pub(crate) fn clear(&mut self) {
        self.ready.clear();
        self.group.clear();
        self.misses = 0;
        self.grouped = false;
        self.freed.clear();
    }
}

/// Puts the tasks of a short list before those of another one. Afterwards the first list has all of them, and the other has none.
fn put_before(few: &mut VecDeque<u32>, others: &mut VecDeque<u32>) -> Result<(), Memory> {
    for _ in 0..few.len() {
        if let Some(task) = few.pop_back() {
            others.push_front(task)?;
        }
    }
    mem::swap(few, others);
    Ok(())
}
