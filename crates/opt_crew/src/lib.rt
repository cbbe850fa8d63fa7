//! Runs by workers that run ahead of admission. A worker runs the next segment of a task on copies, also while the task is held
//! back, and its draft enters the run later if what it has read still stands.
//!
//! The drafts and the core to which they are committed are those of `opt_engine`; the workers and their decks are those of
//! `twe_rounds`. A worker starts a draft under the lock of the core, runs it without the lock, on values that it reads from words
//! which all share, and commits it under the lock. A brief segment is run under the lock, without a draft.
#![tactic(auto)]

mod access;
mod at_work;
mod crew;
mod game;
mod kept;
mod learned;
mod learning;
mod makers;
mod named_drafted;
mod named_start;
mod outlooks;
mod pace;
mod round_core;
mod rounds;
mod seen;
mod sharing;
mod taking;
mod trail;

pub use crew::OptCrew;
pub use rounds::run_ahead;
