//! The entries of a journal: moves and how they ended.
ghost use Rattle.std.specs.Prelude.{◌≡◌, map, IfOk};
ghost use Rattle.seg_journal.specs.Spelling.{move_of};

use crate::{Move, Moves};
use std::alloc::Global;
use twe_base::{FaultKind, List, Memory, Place};

/// How a move ended. An admission ends in `Admitted`, and a segment in one of the others.
#[derive(Clone, Copy, Debug, PartialEq, Eq)]
pub enum End {
    /// The task was admitted.
    Admitted,
    /// The segment made a task.
    Made {
        /// The number of the new task.
        child: u32,
    },
    /// The task waits for the value of another task.
    Waits {
        /// The task that it waits for.
        on: u32,
    },
    /// The task waits to join a child that it spawned.
    Joins {
        /// The child.
        on: u32,
    },
    /// The task is done.
    Done {
        /// The value that the task returned.
        value: i32,
    },
    /// The task met a fault.
    Fault {
        /// The kind of fault.
        kind: FaultKind,
        /// Its place in the text.
        place: Place,
    },
}

/// An entry of a journal: a move and how it ended.
#[derive(Clone, Copy, Debug, PartialEq, Eq)]
pub struct Entry {
    /// The move.
    pub mv: Move,
    /// How it ended.
    pub end: End,
}

/// The entries of a run, in the order in which they happened.
pub type Journal = List<Entry>;

/// The moves of the entries, in order.
pub fn moves_of(alloc: Global, entries: &[Entry]) -> Result<Moves, Memory>
    ensures { IfOk result (λ moves. moves ≡ map move_of entries.now) }
{
    let mut moves = Moves::new(alloc);
    for entry in entries {
        moves.push(entry.mv)?;
    }
    Ok(moves)
}
