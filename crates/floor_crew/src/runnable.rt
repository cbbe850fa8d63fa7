//! The tasks of a run at rest that were found to be able to run.
//!
//! One whose next segment is short is run at once. The others wait, until there are so many that a round is worth its cost, or one
//! of them is run alone. So that short segments do not keep the others waiting for ever, more of the others are looked for while
//! short ones are run, and once many wait or have waited for long, the next short one waits with them.

use std::alloc::Global;
use twe_base::Memory;

/// How many tasks are found that may run before a round begins. The others are looked at in it.
const FEW: usize = 2;

/// How many are found before a round begins while tasks run at rest whose segments are short. If so many tasks wait, or some have
/// waited while so many short segments were run, the next short one waits for the round with them.
const MANY: usize = 256;

/// Tasks that may run.
#[derive(Drop)]
pub(crate) struct Runnable {
    // A task whose next segment is short, or taken to be. It is run before another task is looked at.
    brief: Option<u32>,
    // The other ones.
    running: Vec<u32>,
    // How many of these are found before a round begins.
    enough: usize,
    // How many short segments were run while one of these waited, since another one ran.
    passed: usize,
}

impl Runnable {
    /// No task may run.
    pub(crate) fn new(alloc: Global) -> Self {
        Runnable {
            brief: None,
            running: Vec::new(alloc),
            enough: FEW,
            passed: 0,
        }
    }

    /// Adds a task. `brief` says that its next segment is short, or taken to be.
    pub(crate) fn add(&mut self, task: u32, brief: bool) -> Result<(), Memory> {
        if brief && !self.are_many_waiting() {
            self.brief = Some(task);
        } else {
            self.running.push(task)?;
        }
        Ok(())
    }

    /// Whether many tasks wait, or some have waited for long.
    fn are_many_waiting(&self) -> bool {
        self.running.len() >= MANY || self.passed >= MANY
    }

    /// Whether no further task is to be looked at before one of these runs.
    pub(crate) fn are_enough(&self) -> bool {
        self.brief.is_some() || self.running.len() >= self.enough
    }

    /// Whether none is left but one whose segment is short.
    pub(crate) fn is_empty(&self) -> bool {
        self.running.is_empty()
    }

    /// Whether there are two or more, without one whose segment is short.
    pub(crate) fn has_two(&self) -> bool {
        self.running.len() >= 2
    }

    /// Takes the task that is run while the others lie still: the one whose segment is short, or else the last one that was
    /// found, if it is the only one or a floor is not worth its cost.
    pub(crate) fn take_alone(&mut self, is_floor_worth: bool) -> Option<u32> {
        if let Some(task) = self.brief.take() {
            self.pass_over_running();
            return Some(task);
        }
        self.enough = FEW;
        if self.running.len() != 1 && is_floor_worth {
            return None;
        }
        self.passed = 0;
        self.running.pop()
    }

    // A short segment is run. More tasks that may run can be found meanwhile.
    fn pass_over_running(&mut self) {
        self.enough = MANY;
        if !self.running.is_empty() {
            self.passed = self.passed.saturating_add(1);
        }
    }

    /// No task may run any more.
    pub(crate) fn clear(&mut self) {
        self.brief = None;
        self.running.clear();
        self.enough = FEW;
        self.passed = 0;
    }
}
