//! How far a lowest-first run goes.

use machine_state::State;
use seg_journal::Move;
use twe_program::Prog;

/// Says before each move of a lowest-first run whether the run goes on. Nothing is promised of it.
pub trait Lookout {
    /// Whether the run goes on from this state with this move.
    fn goes_on(&mut self, p: &Prog, st: &State, mv: Move) -> bool;
}
