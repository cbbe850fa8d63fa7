//! The moves of a run.

use twe_base::List;

/// What a move does with its task.
#[derive(Clone, Copy, Debug, PartialEq, Eq)]
pub enum Kind {
    /// It admits the task, which may run from then on.
    Admit,
    /// It runs one segment of the task.
    Run,
}

/// A move of a run.
#[derive(Clone, Copy, Debug, PartialEq, Eq)]
pub struct Move {
    /// What it does with the task.
    pub kind: Kind,
    /// The number of the task.
    pub task: u32,
}

/// Moves in the order in which they are made.
pub type Moves = List<Move>;
