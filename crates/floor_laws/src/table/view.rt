//! What a worker knows of the floor. Views exist in proofs alone.

use crate::rule::{DoneFact, HeldTurn, OpenSegment};
use seg_journal::JournalPart;
use twe_base::List;

/// A turn that a worker took, or the first turn of a task that it made; or that it gave the turn of this task.
#[derive(Debug, Drop)]
pub struct TurnChange {
    /// The number of the task.
    pub task: u32,
    /// The turn; `None` if it was given.
    pub turn: Option<HeldTurn>,
}

/// What a seat is for.
#[derive(Clone, Copy, Debug, PartialEq, Eq)]
pub enum SeatKind {
    /// The seat that the others are split off from and joined to.
    Main,
    /// A seat that was split off.
    Other,
    /// A seat that was joined to the main one.
    Spent,
}

/// What a worker knows.
#[derive(Debug, Drop)]
pub struct View {
    /// The number of the worker.
    pub worker: u32,
    /// What its seat is for.
    pub kind: SeatKind,
    /// How many seats were split off from its seat. They have the next numbers.
    pub split: u32,
    /// How many of them have not been joined again.
    pub out: u32,
    /// The entries that it has drawn.
    pub part: JournalPart,
    /// The turns that it has had and given, the latest first.
    pub turns: List<TurnChange>,
    /// The segment that it has open, if it has one.
    pub segment: Option<OpenSegment>,
    /// The tasks that it knows to be done.
    pub done: List<DoneFact>,
}
