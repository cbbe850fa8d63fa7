//! A worker's list of the tasks that wait, and of those that are held back.
//!
//! A task that waits is kept beside the task that it waits for, and a task that is held back beside a bar to it. The worker
//! says which tasks have ended, or reads it in the journal, and tries again what was kept beside them. What others keep beside a task
//! that this worker ends is handed to it, too.

use seg_journal::{End, Entry};
use std::alloc::Global;
use std::collections::BTreeMap;
use twe_base::Memory;

/// The tasks that a worker has to try again.
#[derive(Drop)]
pub struct Waiting {
    alloc: Global,
    // Beside each task the one that waits for it. Only the task that made it does.
    waiters: BTreeMap<u32, u32>,
    // Beside each task those that were found held back by it.
    held: BTreeMap<u32, Vec<u32>>,
    // Tasks to be tried one after another.
    ready: Vec<u32>,
    // Tasks whose bar has ended. If one of them meets a bar again, the rest waits for the end of that bar.
    freed: Vec<u32>,
    // Tasks whose bar this worker has ended, and which any worker may try.
    shared: Vec<u32>,
    // Whether the last task that was tried was one of those that were freed together.
    was_freed: bool,
    // How many entries of the journal were read.
    read: usize,
}

impl Waiting {
    /// A list of no tasks, for a round that begins with this many entries.
    pub fn new(alloc: Global, read: usize) -> Self {
        Waiting {
            alloc,
            waiters: BTreeMap::new(alloc),
            held: BTreeMap::new(alloc),
            ready: Vec::new(alloc),
            freed: Vec::new(alloc),
            shared: Vec::new(alloc),
            was_freed: false,
            read,
        }
    }

    /// Keeps a task until `on` has ended. `next` is a task to be tried before, if there is one.
    pub fn wait(&mut self, task: u32, on: u32, next: Option<u32>) -> Result<(), Memory> {
        self.waiters.insert(on, task)?;
        if let Some(next) = next {
            self.ready.push(next)?;
        }
        Ok(())
    }

    /// Makes tasks ready whose bar this worker has ended, and which any worker may try.
    pub fn free(&mut self, tasks: &mut Vec<u32>) -> Result<(), Memory> {
        self.shared.append(tasks)?;
        Ok(())
    }

    /// Takes a task that any worker may try, if there is one.
    pub(crate) fn take_shared(&mut self) -> Option<u32> {
        self.shared.pop()
    }

    /// Keeps a task until its bar has ended.
    pub fn hold(&mut self, task: u32, by: u32) -> Result<(), Memory> {
        let alloc = self.alloc;
        let group = self.held.entry(by)?.or_insert_with(|| Vec::new(alloc));
        if self.was_freed {
            group.append(&mut self.freed)?;
        }
        group.push(task)?;
        Ok(())
    }

    /// Reads the entries of the journal that are new, and makes ready what waited for a task that has ended.
    pub fn read(&mut self, journal: &[Entry]) -> Result<(), Memory> {
        for at in self.read..journal.len() {
            if let Some(entry) = journal.get(at)
                && matches!(entry.end, End::Done { .. })
            {
                self.end(entry.mv.task)?;
            }
        }
        self.read = journal.len();
        Ok(())
    }

    /// Makes ready what waited for a task that has ended.
    pub fn end(&mut self, task: u32) -> Result<(), Memory> {
        if let Some(waiter) = self.waiters.remove(&task) {
            self.ready.push(waiter)?;
        }
        if let Some(mut group) = self.held.remove(&task) {
            self.freed.append(&mut group)?;
        }
        Ok(())
    }

    /// Whether some task is to be tried.
    pub fn is_ready(&self) -> bool {
        !self.ready.is_empty() || !self.freed.is_empty() || !self.shared.is_empty()
    }

    /// The next task to be tried.
    pub fn next(&mut self) -> Option<u32> {
        self.was_freed = false;
        if let Some(task) = self.ready.pop() {
            return Some(task);
        }
        if let Some(task) = self.freed.pop() {
            self.was_freed = true;
            return Some(task);
        }
        self.shared.pop()
    }

    /// Makes every task of the list ready.
    pub fn ready_all(&mut self) -> Result<(), Memory> {
        for task in self.waiters.values() {
            self.ready.push(*task)?;
        }
        for group in self.held.values() {
            for task in group.iter() {
                self.ready.push(*task)?;
            }
        }
        self.waiters.clear();
        self.held.clear();
        Ok(())
    }
}
