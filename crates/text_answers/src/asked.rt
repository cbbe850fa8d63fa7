//! The run that a command asks for.

use twe_base::Limits;

/// The run that a command asks for.
#[derive(Clone, Copy, Debug, PartialEq, Eq)]
pub struct AskedRun {
    /// How many workers run the program, from 0 to 64. With 0 or 1 the run is the lowest-first one.
    pub workers: u32,
    /// The limits of the run.
    pub limits: Limits,
    /// What is written of it.
    pub report: Report,
}

/// What is written of a run.
#[derive(Clone, Copy, Debug, PartialEq, Eq)]
pub enum Report {
    /// Its result, and after it its journal if this is true.
    OfRun {
        /// Whether the journal is written.
        journal: bool,
    },
    /// The result of a load.
    OfLoad {
        /// How many pairs of tasks the load has.
        n: u32,
    },
}
