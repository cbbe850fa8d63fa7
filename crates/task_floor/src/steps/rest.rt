//! A run between rounds.

use machine_state::State;
use seg_journal::Journal;

/// A run at a quiet point, when no worker has a stand.
#[derive(Debug, Drop)]
pub struct Rest {
    /// The state that the journal leads to.
    pub state: State,
    /// The entries so far.
    pub journal: Journal,
}
