//! What a worker finds of a task.

use machine_state::{State, TaskStatus};

/// How many waits are followed from one task. A number that a worker takes from a deck may be of a task that waits since long, in
/// the middle of a chain of thousands. Whoever made the last move of the chain has looked at its end already.
pub const MOST_WAITS: u32 = 64;

/// What a worker may do next for a task.
#[derive(Clone, Copy, Debug, PartialEq, Eq)]
pub enum Outlook {
    /// It may run a segment of the task.
    Runs,
    /// The task waits for another one, `on`. If the chain of waits from there is short and ends at a task that is still to
    /// be admitted, that is `next`.
    Waits { on: u32, next: Option<u32> },
    /// The task may not be admitted yet. This is a bar to it.
    Held { by: u32 },
    /// Nothing is left to do for the task, or some task of the run has met a fault.
    Over,
}

impl Outlook {
    /// What may be done next for a task that waits for the task `on` in this state.
    pub fn waits(state: &State, on: u32) -> Self {
        Outlook::Waits {
            on,
            next: next_to_admit(state, on),
        }
    }
}

/// The task at which the chain of waits from a task ends, if it is still to be admitted and no more than `MOST_WAITS` tasks
/// wait on the way to it.
pub fn next_to_admit(state: &State, task: u32) -> Option<u32> {
    let mut at = task;
    for _ in 0..MOST_WAITS {
        if at >= state.links.task_count() {
            return None;
        }
        match state.links.awaited(at) {
            Some(on) => at = on,
            None => return to_admit(state, at),
        }
    }
    None
}

/// The task, if it is still to be admitted.
fn to_admit(state: &State, task: u32) -> Option<u32> {
    let row = state.tasks.get(task as usize)?;
    match row.status {
        TaskStatus::Made => Some(task),
        _ => None,
    }
}
