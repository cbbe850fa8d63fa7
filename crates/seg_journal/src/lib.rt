//! The journal of a run, and journals as text.
//!
//! A journal lists the moves that a scheduler made and how each ended. Its text has the limits of the run and the moves,
//! so that the run can be replayed. If several workers drew the entries of a run, each keeps a part, and the parts are merged
//! by the numbers of their entries. The crate does not say what a move does to the state of a run.
#![tactic(auto)]

mod journal;
mod laws;
mod line;
mod merging;
mod moves;
mod number;
mod numbered;
mod text;

pub use journal::{End, Entry, Journal, moves_of};
pub use laws::{journal_or_bad_line, one_spelling};
pub use line::word_of;
pub use merging::merge;
pub use moves::{Kind, Move, Moves};
pub use numbered::{JournalPart, NumberedEntry};
pub use text::{JournalFail, JournalText, print_journal, read_journal};
pub use twe_base::{FaultKind, Limits};
