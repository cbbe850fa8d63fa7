//! How a segment stops.

use crate::frame::Frame;
use effect_sets::Summary;
use twe_base::{FaultKind, Ints, Place};

/// How a segment stops.
#[derive(Debug, Drop)]
pub enum Stop {
    /// It makes a task.
    Make {
        /// The frame of the new task before its first segment. Its number and its fuel are 0; whoever makes the task sets
        /// them.
        child: Frame,
        /// The arguments of the new task.
        args: Ints,
        /// The effects of the new task: the summary of its declaration, filled with the arguments.
        effects: Summary,
        /// Whether it is made by `spawn` rather than by `executeLater`.
        spawned: bool,
        /// The number of the future that is to stand for it.
        future: u32,
        /// The place of its name.
        place: Place,
    },
    /// It waits for the value of a task.
    Waits {
        /// The task.
        on: u32,
    },
    /// It waits to join a child, at a `join` or at the end of its body.
    Joins {
        /// The child.
        on: u32,
    },
    /// It is done: its body has ended, and no child is unjoined.
    Done {
        /// The value that the task returns; 0 if it returns none.
        value: i32,
    },
    /// It met a fault.
    Fault {
        /// The kind of fault.
        kind: FaultKind,
        /// Its place in the text.
        place: Place,
    },
}
