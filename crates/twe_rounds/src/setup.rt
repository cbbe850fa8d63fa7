//! What the moves of a run stand on.

use std::alloc::Global;
use twe_base::Limits;
use twe_program::Prog;

/// What each move of a run needs: where memory comes from, the program that is run and its limits.
#[derive(Drop)]
pub struct Setup<'a> {
    /// Where memory comes from.
    pub alloc: Global,
    /// The program that is run.
    pub p: &'a Prog,
    /// Its limits.
    pub lim: Limits,
}
