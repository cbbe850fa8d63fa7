//! Running ahead of admission: the next segment of a task is run on a copy of the cells, also while the task is held back,
//! and enters the run later if what it has read still stands.
//!
//! A draft has copies of a task's frame and of the cells. Running it records which cells it read and what it wrote, and
//! needs nothing that other threads share. A core is a run to which such drafts are committed. A start is a draft without the
//! cells: each cell is read from a word that threads share, at its first access, and a worker keeps the room for that.
#![tactic(auto)]

mod answering;
mod committing;
mod core_run;
mod draft_core;
mod drafts;
mod hinted;
mod hints;
mod judging;
mod mirrored;
mod named;
mod next_moves;
mod notes;
mod readiness;
mod scratch;
mod starts;
mod touch;
mod touching;
mod verdict;

pub use core_run::CoreRun;
pub use draft_core::Core;
pub use drafts::{Draft, Drafted, run_draft};
pub use hints::Hints;
pub use named::RoundName;
pub use scratch::Scratch;
pub use starts::{Start, run_start};
pub use touch::{CellValue, Touched};
pub use verdict::Verdict;
