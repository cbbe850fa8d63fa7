//! The runs that an exploration goes on from.

use machine_state::State;
use seg_journal::Journal;

/// A run that was found and can go on: its journal, and the state that it has come to.
#[derive(Debug, Drop)]
pub struct FoundRun {
    /// The entries so far.
    pub journal: Journal,
    /// The state that they lead to.
    pub state: State,
}
