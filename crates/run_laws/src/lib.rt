//! Runs and replays of accepted programs, with all that the laws say of them in one place.
//!
//! `run_lowest` and `replay_journal` promise that a journal is legal. The laws of `isolation_laws` and `determinism_laws` say
//! what each legal journal of an accepted program keeps to. The calls here do both, so that their clauses stand side by side.
//! `orders` has laws of the order in which tasks wait, are enabled and yield.
#![tactic(auto)]

mod calls;
mod laws;
pub mod orders;
mod text;

pub use calls::{replay_accepted, run_accepted};
pub use laws::accepted_runs_are_safe;
pub use text::{RanText, run_text};
