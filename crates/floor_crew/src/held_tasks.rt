//! Which tasks were found held in a round, each beside a bar to it, so that the worker that ends the bar finds them at once.

use std::alloc::Global;
use std::sync::atomic::{AtomicU32, Ordering};
use twe_base::Memory;
use twe_rounds::HeldAt;

/// A bar that has ended.
const ENDED: u32 = u32::MAX;

/// The end of a list, at the last task of it.
const LAST: u32 = u32::MAX - 1;

/// The tasks that were found held in a round, in a list for each bar. What is read here only says where to look: whether a task may be
/// admitted is found on the floor.
#[derive(Drop)]
pub(crate) struct HeldTasks {
    // By the number of a task: 0 if it bars nobody, one more than the number of the first task that it bars, or `ENDED`.
    first: Vec<AtomicU32>,
    // By the number of a task: 0 if it is on no list, one more than the number of the next one on its list, or `LAST`.
    next: Vec<AtomicU32>,
}

impl HeldTasks {
    /// Of so many tasks none was found held yet.
    pub(crate) fn new(alloc: Global, tasks: u32) -> Result<Self, Memory> {
        Ok(HeldTasks {
            first: zeros(alloc, tasks)?,
            next: zeros(alloc, tasks)?,
        })
    }

    /// Keeps a task beside its bar, if the bar has not ended and the task is on no other list.
    pub(crate) fn keep(&self, task: u32, by: u32) -> HeldAt {
        let (Some(first), Some(next)) = (self.first.get(by as usize), self.next.get(task as usize))
        else {
            return HeldAt::Nowhere;
        };
        if next
            .compare_exchange(0, LAST, Ordering::SeqCst, Ordering::SeqCst)
            .is_err()
        {
            return HeldAt::Nowhere;
        }
        if put_first(first, next, task) {
            return HeldAt::Bar;
        }
        next.store(0, Ordering::SeqCst);
        HeldAt::EndedBar
    }

    /// A bar has ended: the first task that it held, if there is one.
    pub(crate) fn end(&self, bar: u32) -> Option<u32> {
        let first = self.first.get(bar as usize)?.swap(ENDED, Ordering::SeqCst);
        numbered(first)
    }

    /// Takes a task off the list of a bar that has ended, and returns the one after it.
    pub(crate) fn take(&self, task: u32) -> Option<u32> {
        let next = self.next.get(task as usize)?.swap(0, Ordering::SeqCst);
        numbered(next)
    }
}

/// The task that a word of a list names, if it names one.
fn numbered(word: u32) -> Option<u32> {
    if word >= LAST {
        return None;
    }
    word.checked_sub(1)
}

/// Puts a task before the others of a list, and returns whether it did: it does not if the bar has ended.
fn put_first(first: &AtomicU32, next: &AtomicU32, task: u32) -> bool {
    let mut seen = first.load(Ordering::SeqCst);
    'exchanging: for _ in 0..u64::MAX {
        if seen == ENDED {
            return false;
        }
        next.store(if seen == 0 { LAST } else { seen }, Ordering::SeqCst);
        match first.compare_exchange(
            seen,
            task.saturating_add(1),
            Ordering::SeqCst,
            Ordering::SeqCst,
        ) {
            Ok(_) => return true,
            Err(other) => seen = other,
        }
    }
    false
}

/// So many words that are 0.
fn zeros(alloc: Global, count: u32) -> Result<Vec<AtomicU32>, Memory> {
    let mut words = Vec::with_capacity(alloc, count as usize)?;
    for _ in 0..count {
        words.push(AtomicU32::new(0))?;
    }
    Ok(words)
}
