//! What the state of a run says of one task.

use machine_state::{State, TaskStatus};

/// The fuel that a task has left, in units; 0 if there is no such task.
pub fn fuel_left(state: &State, task: u32) -> u64 {
    match state.tasks.get(task as usize) {
        Some(row) => row.frame.fuel,
        None => 0,
    }
}

/// Whether a task with this status has ended, with a value or by a fault.
pub fn has_ended(status: TaskStatus) -> bool {
    match status {
        TaskStatus::Done => true,
        TaskStatus::Faulted => true,
        _ => false,
    }
}
