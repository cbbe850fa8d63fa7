//! The frame of a task: what it keeps between its segments.

use crate::children::Children;
use crate::short_list::ShortList;
use twe_base::{Ints, List};

/// How far a block of a body has been executed.
#[derive(Clone, Copy, Debug, Default, PartialEq, Eq)]
pub struct Position {
    /// The number of the block among those of its statement, in the order of the text, counted from 0. It is 0 for the
    /// body itself.
    pub block: usize,
    /// How many of its statements have begun.
    pub after: usize,
}

/// The body of a task whose execution has begun and not ended. It takes memory of its own only if it has more than four
/// variables, or more than one block is open.
#[derive(Debug, Drop)]
pub struct OpenBody {
    /// The values of the variables.
    pub vars: ShortList<i32, 4>,
    /// The open blocks, the outermost first. Each further block stands in the last statement that has begun in the block
    /// before it.
    pub open_blocks: ShortList<Position, 1>,
}

/// What a task does next.
#[derive(Clone, Copy, Debug, PartialEq, Eq)]
pub enum Next {
    /// It runs its next segment.
    Go,
    /// It waits for the value of a task that it made.
    Get {
        /// The task that it waits for.
        on: u32,
        /// The variable that takes the value, if one does.
        into: Option<u32>,
    },
    /// It waits to join a child that it spawned.
    Join {
        /// The child.
        on: u32,
        /// The variable that takes the value, if one does.
        into: Option<u32>,
    },
    /// Its body has ended, and it waits to join a child that it spawned.
    Closing {
        /// The child.
        on: u32,
    },
    /// It has ended.
    Ended,
}

/// The frame of a task: what it keeps between its segments.
#[derive(Debug, Drop)]
pub struct Frame {
    /// The number of the task.
    pub task: u32,
    /// The number of its declaration.
    pub decl: u32,
    /// What remains of the task's body; none if the body has ended. Between two segments no method is active.
    pub body: Option<OpenBody>,
    /// The fuel that is left, in units.
    pub fuel: u64,
    /// For each future of the body, the task that it stands for; none before that task is made.
    pub futures: List<Option<u32>>,
    /// The children that are not yet joined, in the order in which they were spawned.
    pub out: Children,
    /// What the task does next.
    pub next: Next,
    /// The value that the body returned.
    pub value: i32,
    /// The numbers that the current segment has printed, in order.
    pub prints: Ints,
}
