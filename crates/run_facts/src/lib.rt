//! Why a run goes no further, as data: where its tasks stand, who made them, which effects of two tasks interfere, and which
//! moves are legal next, and what was there when a fault was met.
//!
//! What is found here is true of the state that a journal leads to. How it is written for people is left to the crate above.
#![tactic(auto)]

mod clashes;
mod fault_snapshots;
mod last_begun;
mod legal_moves;
mod making;

pub use clashes::{effects_of_task, first_clashing};
pub use fault_snapshots::snapshot_of_fault;
pub use last_begun::stands_at;
pub use legal_moves::next_moves;
pub use making::{TaskMaking, making_of, makings_of, place_of};
