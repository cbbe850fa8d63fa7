//! The outcome of a run.

use seg_journal::FaultKind;
use twe_base::Place;

/// The outcome of a run in its present state.
#[derive(Clone, Copy, Debug, PartialEq, Eq)]
pub enum Outcome {
    /// Every task is done.
    AllDone,
    /// Some task met a fault; this is the first fault.
    Fault {
        /// The task that met it.
        task: u32,
        /// Its kind.
        kind: FaultKind,
        /// Where in the text it was met.
        place: Place,
    },
    /// Some task is not done, and no move is legal.
    Stuck,
    /// Some task is not done, and some move is legal.
    Unfinished,
}
