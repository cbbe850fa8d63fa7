//! What one step of the evaluator requests from whoever runs it, and how a run ends.

use crate::steps::held::Held;
use seg_meaning::FaultCause;
use twe_base::Place;

/// How a run of the evaluator ends.
#[derive(Debug, Drop)]
pub(crate) enum Ending {
    /// The body returns this value.
    Returned(i32),
    /// A fault ended it.
    Faulted {
        /// What led to it.
        cause: FaultCause,
        /// Its place in the text.
        place: Place,
    },
    /// A task operation suspended it.
    Suspended(Held),
}

/// What a step requests.
#[derive(Debug, Drop)]
pub(crate) enum Request {
    /// Nothing: the next step can follow.
    Nothing,
    /// The value of this cell, to be pushed onto the operand stack.
    Read(u32),
    /// That this cell takes this value.
    Write(u32, i32),
    /// That this number is printed.
    Print(i32),
    /// The end of the run.
    End(Ending),
}
