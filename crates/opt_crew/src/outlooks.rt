//! What may be done next for a task, by a look at the state that costs the same however many tasks there are.

use crate::trail::Glance;
use machine_state::{State, TaskStatus};
use twe_rounds::Outlook;

/// What may be done next for a task in this state, if nothing holds it back.
pub(crate) fn outlook_of(state: &State, task: u32, glance: Glance) -> Outlook {
    match state.tasks.get(task as usize) {
        None => Outlook::Over,
        Some(row) => match row.status {
            TaskStatus::Made => Outlook::Runs,
            TaskStatus::Enabled => outlook_of_enabled(state, task, glance),
            TaskStatus::Done => Outlook::Over,
            TaskStatus::Faulted => Outlook::Over,
        },
    }
}

/// What may be done next for an enabled task.
fn outlook_of_enabled(state: &State, task: u32, glance: Glance) -> Outlook {
    if task >= state.links.task_count() {
        return Outlook::Over;
    }
    match state.links.awaited(task) {
        None => Outlook::Runs,
        Some(on) => outlook_of_waiting(state, on, glance),
    }
}

/// The wait for a task. Whoever finds that the wait has begun goes along the chain of waits; at a later look the task at its end
/// has been looked at. A task that lies on no deck is to be tried at once.
fn outlook_of_waiting(state: &State, on: u32, glance: Glance) -> Outlook {
    if !glance.begins_wait {
        return Outlook::Waits { on, next: None };
    }
    if is_unpushed(glance, on) && is_going(state, on) {
        return Outlook::Waits { on, next: Some(on) };
    }
    Outlook::waits(state, on)
}

/// Whether a task may lie on no deck.
fn is_unpushed(glance: Glance, task: u32) -> bool {
    match glance.unpushed {
        Some(first) => task >= first,
        None => false,
    }
}

/// Whether a task is enabled and waits for nobody.
fn is_going(state: &State, task: u32) -> bool {
    if task >= state.links.task_count() || state.links.awaited(task).is_some() {
        return false;
    }
    match state.tasks.get(task as usize) {
        None => false,
        Some(row) => matches!(row.status, TaskStatus::Enabled),
    }
}

/// The declaration of a task, if there is such a task.
pub(crate) fn decl_of(state: &State, task: u32) -> Option<u32> {
    let row = state.tasks.get(task as usize)?;
    Some(row.decl)
}
