//! What was seen of a run.

use crate::learned::Learned;
use crate::makers::Makers;
use crate::outlooks::decl_of;
use crate::pace::RunPace;
use machine_state::State;
use std::alloc::Global;
use std::mem;

/// What was seen of a run, by whoever had it. No clause rests on it.
#[derive(Drop)]
pub(crate) struct SeenOfRun {
    /// What was learned of the tasks of each declaration.
    pub learned: Learned,
    /// The tasks that have just made one that may be long.
    pub makers: Makers,
    /// How the run has gone so far.
    pub pace: RunPace,
}

impl SeenOfRun {
    /// Nothing was seen.
    pub(crate) fn new(alloc: Global) -> Self {
        SeenOfRun {
            learned: Learned::new(alloc),
            makers: Makers::new(alloc),
            pace: RunPace::new(),
        }
    }

    /// What was seen, of which nothing stays here.
    pub(crate) fn take(&mut self, alloc: Global) -> Self {
        mem::replace(self, SeenOfRun::new(alloc))
    }

    /// Whether the next segment of a task is known to be brief.
    pub(crate) fn is_brief(&self, state: &State, task: u32) -> bool {
        match decl_of(state, task) {
            Some(decl) => !self.makers.has(task) && self.learned.is_brief(decl),
            None => false,
        }
    }

    /// Whether it pays to draft a task while it is held back.
    pub(crate) fn pays_ahead(&self, state: &State, task: u32) -> bool {
        match decl_of(state, task) {
            Some(decl) => self.learned.pays_ahead(decl),
            None => false,
        }
    }

    /// Whether drafts of a task's declaration often read what changes.
    pub(crate) fn changes_often(&self, state: &State, task: u32) -> bool {
        match decl_of(state, task) {
            Some(decl) => self.learned.changes_often(decl),
            None => false,
        }
    }
}
