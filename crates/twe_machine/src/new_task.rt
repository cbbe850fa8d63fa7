//! The row of a new task.
ghost use Rattle.std.specs.Prelude.{◌≡◌};
ghost use Rattle.machine_state.specs.Moves.{new_row, parent_of, status_at_start};

use effect_sets::Summary;
use machine_state::{TaskRow, TaskStatus};
use seg_journal::Limits;
use seg_meaning::Frame;
use std::alloc::Global;
use twe_base::{Ints, List};

/// The parts of a new task.
#[derive(Drop)]
pub(crate) struct NewTask {
    /// Its frame before its first segment, without its number and its fuel.
    pub frame: Frame,
    /// Its arguments.
    pub args: Ints,
    /// Its effects.
    pub effects: Summary,
}

/// The spawn parent of a task that `t` makes.
pub fn parent_of(t: u32, spawned: bool) -> Option<u32>
    ensures { result ≡ parent_of t spawned }
{
    if spawned { Some(t) } else { None }
}

/// The status of a new task: a task with a parent is enabled at once, and another one waits for its admission.
fn status_at_start(parent: Option<u32>) -> TaskStatus
    ensures { result ≡ status_at_start parent }
{
    match parent {
        None => TaskStatus::Made,
        Some(_) => TaskStatus::Enabled,
    }
}

/// The row of a new task of this number: its frame gets the number, and all of the fuel.
pub(crate) fn new_row(
    alloc: Global,
    lim: Limits,
    number: u32,
    parent: Option<u32>,
    task: NewTask,
) -> TaskRow
    ensures { result ≡ new_row lim number parent task.frame task.args task.effects }
{
    let NewTask {
        mut frame,
        args,
        effects,
    } = task;
    frame.task = number;
    frame.fuel = lim.fuel;
    TaskRow {
        decl: frame.decl,
        args,
        effects,
        frame,
        parent,
        joined: false,
        out: List::new(alloc),
        status: status_at_start(parent),
        value: 0,
    }
}
