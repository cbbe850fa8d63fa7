//! The tasks whose drafts are being run, so that of two that would change what the other reads only one is begun.

use effect_sets::summaries_interfere;
use machine_state::{State, TaskRow, TaskStatus};
use std::alloc::Global;
use std::collections::BTreeMap;
use twe_base::Memory;

/// A task of which some worker runs a draft.
#[derive(Clone, Copy, Debug)]
struct Work {
    task: u32,
    // Whether a rival of it was at work when the draft was begun.
    beside: bool,
}

/// The tasks of which some worker runs a draft.
#[derive(Drop)]
pub(crate) struct AtWork {
    tasks: BTreeMap<u32, Work>,
}

impl AtWork {
    /// No tasks.
    pub(crate) fn new(alloc: Global) -> Self {
        AtWork {
            tasks: BTreeMap::new(alloc),
        }
    }

    /// Whether there are none.
    pub(crate) fn is_empty(&self) -> bool {
        self.tasks.is_empty()
    }

    /// Notes that a draft of a task is begun, and whether a rival of the task is at work.
    pub(crate) fn begin(&mut self, task: u32, beside: bool) -> Result<(), Memory> {
        self.tasks.insert(task, Work { task, beside })?;
        Ok(())
    }

    /// Notes that a draft of a task has been run. Returns whether a rival of the task was at work when it was begun.
    pub(crate) fn end(&mut self, task: u32) -> bool {
        match self.tasks.remove(&task) {
            Some(work) => work.beside,
            None => false,
        }
    }

    /// A rival of a task at work: another one, if both wait for their admission and their effects interfere.
    pub(crate) fn rival(&self, state: &State, task: u32) -> Option<u32> {
        for work in self.tasks.values() {
            if work.task != task && are_rivals(state, work.task, task) {
                return Some(work.task);
            }
        }
        None
    }
}

/// Whether two tasks both wait for their admission, and their effects interfere.
fn are_rivals(state: &State, s: u32, t: u32) -> bool {
    match (state.tasks.get(s as usize), state.tasks.get(t as usize)) {
        (Some(a), Some(b)) => {
            is_made(a) && is_made(b) && summaries_interfere(&a.effects, &b.effects)
        }
        _ => false,
    }
}

/// Whether a task waits for its admission.
fn is_made(row: &TaskRow) -> bool {
    matches!(row.status, TaskStatus::Made)
}
