//! How a worker comes to the run of a round.

use crate::outlook::Outlook;
use crate::waiting::Waiting;
use seg_journal::End;
use std::alloc::AllocError;
use twe_base::Memory;

/// Where a held task is kept.
#[derive(Clone, Copy, Debug, PartialEq, Eq)]
pub enum HeldAt {
    /// Beside its bar, where the worker that ends the bar finds it.
    Bar,
    /// Nowhere, since its bar has ended.
    EndedBar,
    /// Nowhere: the worker has to keep it on its own list.
    Nowhere,
}

/// A worker's way to the run. Other workers may come between any two calls.
pub trait RoundAccess {
    /// What may be done next for a task.
    fn outlook(&mut self, task: u32) -> Result<Outlook, Memory>;

    /// Runs a segment of a task, if it is legal now, and returns its end.
    fn run(&mut self, task: u32) -> Result<Option<End>, Memory>;

    /// Keeps a task that is held beside its bar, if the run has a place for that.
    fn keep(&mut self, task: u32, by: u32) -> Result<HeldAt, Memory>;

    /// Tells a worker's list which tasks have ended since it was told last.
    fn tell(&mut self, waiting: &mut Waiting) -> Result<(), Memory>;
}

/// The answer of each call on a run that is lost: memory ran out in an earlier call, which answered `Memory` too.
pub fn lost() -> Memory {
    Memory::from(AllocError)
}
