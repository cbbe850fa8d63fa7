//! The state of a run.

use effect_sets::Summary;
use seg_journal::FaultKind;
use seg_meaning::Frame;
use twe_base::{Ints, List, Place};
use wait_graph::Links;

/// The status of a task.
#[derive(Clone, Copy, Debug, PartialEq, Eq)]
pub enum TaskStatus {
    /// It was made and waits for its admission.
    Made,
    /// It may run.
    Enabled,
    /// It has ended with a value.
    Done,
    /// It has ended with a fault.
    Faulted,
}

/// A task.
#[derive(Debug, Drop)]
pub struct TaskRow {
    /// The number of its declaration.
    pub decl: u32,
    /// Its arguments.
    pub args: Ints,
    /// Its effects.
    pub effects: Summary,
    /// Its frame, which it keeps between its segments.
    pub frame: Frame,
    /// The task that spawned it, if it was spawned.
    pub parent: Option<u32>,
    /// Whether it was joined.
    pub joined: bool,
    /// The children that it has spawned and not joined yet, in the order in which they were spawned.
    pub out: List<u32>,
    /// Its status.
    pub status: TaskStatus,
    /// Its value, once it is done.
    pub value: i32,
}

/// The first fault of a run.
#[derive(Clone, Copy, Debug, PartialEq, Eq)]
pub struct FirstFault {
    /// The task that met it.
    pub task: u32,
    /// Its kind.
    pub kind: FaultKind,
    /// Where in the text it was met.
    pub place: Place,
}

/// The state of a run. The tasks are numbered from 0 in the order in which they were made.
#[derive(Debug, Drop)]
pub struct State {
    /// The values of the cells.
    pub cells: Ints,
    /// The tasks, by number.
    pub tasks: List<TaskRow>,
    /// The links between the tasks: what each waits for, its spawn parent, and whether it is joined or done. They
    /// agree with the rows.
    pub links: Links,
    /// The printed numbers, the first one first.
    pub prints: Ints,
    /// How many makes were asked for. Task 0 does not count.
    pub asked: u32,
    /// The first fault.
    pub first_fault: Option<FirstFault>,
}
