//! What a core answers to a draft.

use crate::drafts::Drafted;

/// What a core answers to a draft that was run.
#[derive(Debug, Drop)]
pub enum Verdict {
    /// The draft fits and its moves were legal. They were taken.
    Committed {
        /// The number of the last of their entries, counted from 0.
        number: u64,
    },
    /// The task is not ready, or its next segment begins with another frame.
    Passed,
    /// The task may not be admitted yet.
    Held {
        /// The lowest bar to it.
        by: u32,
        /// The draft, which may be tried again.
        draft: Drafted,
    },
    /// A cell that the draft has read has another value now.
    Changed {
        /// The cell of the first such read.
        cell: u32,
        /// The value that was read.
        read: i32,
        /// The value that the cell has now.
        now: i32,
    },
}
