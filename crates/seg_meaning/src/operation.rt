//! The task operations, at which a segment stops.

use twe_base::{Ints, Place};

/// A task operation, once its arguments are evaluated and its unit of fuel is taken.
#[derive(Debug, Drop)]
pub enum Operation {
    /// A task is made.
    Make {
        /// The number of the future that is to stand for it.
        future: u32,
        /// The number of the task's declaration.
        task: u32,
        /// The arguments.
        args: Ints,
        /// Whether it is made by `spawn` rather than by `executeLater`.
        spawned: bool,
        /// The place of the task's name.
        place: Place,
    },
    /// The task waits for another.
    Wait {
        /// The number of the future that stands for the awaited task.
        future: u32,
        /// Whether it is a `join` rather than a `getValue`.
        join: bool,
        /// The variable that takes the value, if one does.
        into: Option<u32>,
    },
}
