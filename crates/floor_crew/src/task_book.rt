//! The book of a run that lies still: which of its tasks are to be looked at, and which may run.
//!
//! The book says only where to look. Whether a move is legal is found in the state. A task that waits is kept beside the task
//! that it waits for, and one that is held back beside a bar to it. The entries of the journal say what has changed.
//!
//! For example `main`, task 0, makes tasks 1 and 2, which write one region and may be long:
//!
//! - The entry of its admission is read, so `main` is to be looked at. It is found to be able to run. It is the only one, so its
//!   next segment is run alone, and makes task 1.
//! - That entry is read. Task 1 is to be looked at, and then its maker. Task 1 may be admitted, and is; it is looked at again, and
//!   may run. So may `main`: two tasks may run beside each other, and if a floor is worth its cost, a round begins.
//! - If it is not, `main`, which was found last, runs alone and makes task 2. A look at 2 finds that 1 holds it back: 2 is kept
//!   beside 1.
//! - Once an entry says that 1 has ended, the tasks that were kept beside 1 are to be looked at, as a group, and 2 may be admitted.

use crate::account::Account;
use crate::look_queue::LookQueue;
use crate::runnable::Runnable;
use machine_state::State;
use seg_journal::{End, Entry};
use std::alloc::Global;
use std::collections::{BTreeMap, VecDeque};
use std::mem;
use twe_base::Memory;
use twe_rounds::has_ended;

/// Which tasks are to be looked at, and which were found to wait, to be held back, or to be able to run.
#[derive(Drop)]
pub(crate) struct TaskBook {
    alloc: Global,
    // Tasks to be looked at.
    queue: LookQueue,
    // Beside each task the one that waits for it. Only the task that made it does.
    waiters: BTreeMap<u32, u32>,
    // Beside each task those that were found held by it.
    held: BTreeMap<u32, VecDeque<u32>>,
    // Tasks that may run.
    runnable: Runnable,
    // How many entries of the journal were read.
    read: usize,
    // Whether an entry was read since all tasks that were held back were looked at.
    moved: bool,
    /// Whether another floor is worth what it costs.
    pub account: Account,
}

impl TaskBook {
    /// The book of a run that has not begun.
    pub(crate) fn new(alloc: Global) -> Self {
        TaskBook {
            alloc,
            queue: LookQueue::new(alloc),
            waiters: BTreeMap::new(alloc),
            held: BTreeMap::new(alloc),
            runnable: Runnable::new(alloc),
            read: 0,
            moved: false,
            account: Account::new(),
        }
    }

    /// Reads the entries of the journal that are new.
    pub(crate) fn read(&mut self, journal: &[Entry]) -> Result<(), Memory> {
        for at in self.read..journal.len() {
            if let Some(entry) = journal.get(at) {
                self.note(*entry)?;
                self.moved = true;
            }
        }
        self.read = journal.len();
        Ok(())
    }

    /// Notes an entry. Its task is to be looked at again, and so is one that it has made. If its task has ended, so is the one
    /// that waited for it, and so are those that it held. All these are looked at before others, so that tasks that have begun
    /// end before others begin, and no more tasks are admitted than are found to run. A task that was made comes before its
    /// maker: if it is short, it runs before the maker makes another.
    fn note(&mut self, entry: Entry) -> Result<(), Memory> {
        match entry.end {
            End::Done { .. } => self.end(entry.mv.task),
            End::Fault { .. } => self.end(entry.mv.task),
            End::Made { child } => {
                self.queue.add_first(entry.mv.task)?;
                self.queue.add_first(child)
            }
            _ => self.queue.add_first(entry.mv.task),
        }
    }

    // A task has ended.
    fn end(&mut self, task: u32) -> Result<(), Memory> {
        if let Some(waiter) = self.waiters.remove(&task) {
            self.queue.add_first(waiter)?;
        }
        if let Some(group) = self.held.remove(&task) {
            self.queue.add_group(group)?;
        }
        Ok(())
    }

    /// The next task to be looked at. `None` if there is none, if a task is to be run first, or if so many tasks may run that a
    /// round can begin.
    pub(crate) fn next(&mut self) -> Option<u32> {
        if self.runnable.are_enough() {
            return None;
        }
        self.queue.next()
    }

    /// Keeps a task that waits until `on` has ended. `next` is a task to be looked at now, if there is one.
    pub(crate) fn wait(&mut self, task: u32, on: u32, next: Option<u32>) -> Result<(), Memory> {
        self.waiters.insert(on, task)?;
        if let Some(next) = next {
            self.queue.add_last(next)?;
        }
        Ok(())
    }

    /// Keeps a task that is held back until its bar has ended. If it is one of many that a bar held before, the others wait with
    /// it.
    pub(crate) fn hold(&mut self, task: u32, by: u32) -> Result<(), Memory> {
        let alloc = self.alloc;
        let kept = self.held.entry(by)?.or_insert_with(|| VecDeque::new(alloc));
        kept.push_back(task)?;
        self.queue.note_held(kept)
    }

    /// Keeps a task that may run. `brief` says that its next segment is short, or taken to be.
    pub(crate) fn add_running(&mut self, task: u32, brief: bool) -> Result<(), Memory> {
        self.runnable.add(task, brief)
    }

    /// The task whose next segment is run while the others lie still: one whose segment is short, or else one that may run, if it
    /// is the only one or no floor is worth its cost.
    pub(crate) fn next_alone(&mut self) -> Option<u32> {
        let is_floor_worth = self.account.is_worth_a_floor();
        self.runnable.take_alone(is_floor_worth)
    }

    /// Whether two tasks may run beside each other, and a floor for them is worth its cost.
    pub(crate) fn has_two(&self) -> bool {
        self.runnable.has_two() && self.account.is_worth_a_floor()
    }

    /// Whether all tasks that are held back are to be looked at once more, since nothing else is left to do. So they are if an
    /// entry was read since the last time.
    pub(crate) fn look_again(&mut self) -> Result<bool, Memory> {
        if !self.moved || !self.runnable.is_empty() {
            return Ok(false);
        }
        self.moved = false;
        let held = mem::replace(&mut self.held, BTreeMap::new(self.alloc));
        for group in held.values() {
            self.queue.add_each(group)?;
        }
        Ok(true)
    }

    /// For a run of which only the state is looked at: all tasks that have not ended are to be looked at, in the order of their
    /// numbers but for `main`, which comes last, and nothing else is known. The journal has so many entries.
    pub(crate) fn begin_anew(&mut self, state: &State, entries: usize) -> Result<(), Memory> {
        self.forget();
        self.read = entries;
        for task in 1..state.links.task_count() {
            self.look_at_unended(state, task)?;
        }
        self.look_at_unended(state, 0)
    }

    // A task is to be looked at after the others, if it has not ended.
    fn look_at_unended(&mut self, state: &State, task: u32) -> Result<(), Memory> {
        if let Some(row) = state.tasks.get(task as usize)
            && !has_ended(row.status)
        {
            self.queue.add_last(task)?;
        }
        Ok(())
    }

    // Nothing is known of any task.
    fn forget(&mut self) {
        let alloc = self.alloc;
        self.queue.clear();
        self.waiters = BTreeMap::new(alloc);
        self.held = BTreeMap::new(alloc);
        self.runnable.clear();
        self.moved = false;
    }
}
