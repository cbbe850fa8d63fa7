//! Work and span of a journal: how much the entries of a run did, and how much of it had to be one after another.
//!
//! `specs/` says what each entry did and when one entry leads to a later one. The code replays the moves over cells that
//! record what each segment reads and writes, and gives what every entry asks for and gives to `heaviest_chain`.
//!
//! Beside it stand what a run could gain from more processors, by its journal, and bounds on the time of every schedule of its
//! entries on several workers.
#![tactic(auto)]

mod advising;
mod cell_set;
mod counting;
mod deed;
pub mod heaviest_chain;
mod keys;
mod laws;
mod pace_laws;
mod places;
mod profiling;
mod reasons;
mod recording;
mod running;
mod totals;
mod trail;
mod watched;

pub use crate::heaviest_chain::Heaviest as Profile;
pub use advising::{Advice, advise, parallelism_of};
pub use counting::{counted_run, is_fault};
pub use laws::{each_link_has_a_reason, one_advice, one_profile, works_add_up};
pub use machine_state::ReplayFail as ProfileFail;
pub use pace_laws::{greedy_workers_are_fast, no_workers_are_faster, paced_workers_are_fast};
pub use profiling::{explain_chain, profile};
pub use reasons::{ChainStep, LinkReason};
pub use recording::{EntryKeys, Recorder};
pub use totals::{TaskTotal, TaskWork, total_of};
