//! All runs of a program under given limits: how they can end.
//!
//! Enough moves of each state that is found are taken, so that no way to end is lost. No scheduler takes part, so what is found holds of
//! each of them. How an end is written is left to the crates above.
#![tactic(auto)]

mod ends;
mod exploring;
mod extent;
mod found;
mod index;
mod laws;
mod successor;
mod ways_to_end;

pub use ends::{FoundEnds, find_ends};
pub use extent::Extent;
pub use found::FoundRun;
pub use laws::closed_explorations_show_all_runs;
