//! What the words and the slots of the floor say of a task, and what a worker knows.

use effect_sets::Summary;
use machine_state::TaskRow;
use seg_meaning::Frame;
use twe_base::{Ints, List};

/// What the phase word of a task says of it.
#[derive(Clone, Copy, Debug, PartialEq, Eq)]
pub enum Phase {
    /// Nothing: the task may not be made yet.
    Absent,
    /// It was made, and waits for its admission.
    Made,
    /// It may run.
    Running,
    /// It waits for the end of another task.
    Waits {
        /// That task.
        on: u32,
    },
    /// It has ended with a value.
    Done,
    /// It has ended with a fault.
    Faulted,
}

/// What lies in the slot of a task while no worker has its turn.
#[derive(Debug, Drop)]
pub struct TaskSlot {
    /// Its frame.
    pub frame: Frame,
    /// The number of its declaration.
    pub decl: u32,
    /// Its arguments.
    pub args: Ints,
    /// Its effects.
    pub effects: Summary,
    /// The task that spawned it, if it was spawned.
    pub parent: Option<u32>,
}

/// The turn of a task, which a worker has, with what the worker knows of the task.
#[derive(Debug, Drop)]
pub struct HeldTurn {
    /// Whether it is the first turn of a task that this worker made and has not given yet. Otherwise the worker took it.
    pub first: bool,
    /// The row of the task after all entries so far, without the mark that it was joined.
    pub row: TaskRow,
    /// What the phase word of the task says now. Only the worker that has the turn stores to it.
    pub phase: Phase,
}

/// A read or a write of a cell.
#[derive(Clone, Copy, Debug, PartialEq, Eq)]
pub enum Touch {
    /// The cell was read, and had this value.
    Read {
        /// The number of the cell.
        cell: u32,
        /// Its value.
        value: i32,
    },
    /// The cell was given this value.
    Write {
        /// The number of the cell.
        cell: u32,
        /// Its new value.
        value: i32,
    },
}

/// A segment that a worker has begun and not ended by an entry yet.
#[derive(Debug, Drop)]
pub struct OpenSegment {
    /// The number of its task.
    pub task: u32,
    /// What it has loaded from the words of cells and stored there so far, the latest first. It stands for its accesses.
    pub touches: List<Touch>,
}

/// A worker knows that this task is done, and with which value.
#[derive(Clone, Copy, Debug, PartialEq, Eq)]
pub struct DoneFact {
    /// The number of the task.
    pub task: u32,
    /// Its value.
    pub value: i32,
}
