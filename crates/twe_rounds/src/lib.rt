//! The parts of a round of workers: decks of task numbers, from which each worker takes its own and then steals, its list of the
//! tasks that wait, and the loop in which it makes the moves of those tasks.
//!
//! How a worker comes to the run, and what is proved of the run, is left to the crews above (`RoundAccess`). The decks are those
//! of `steal_pool`.
#![tactic(auto)]

mod access;
mod dealing;
mod outlook;
mod own_deck;
mod progress;
mod rows;
mod setup;
mod waiting;
mod worker;

pub use access::{HeldAt, RoundAccess, lost};
pub use dealing::{Team, deal};
pub use outlook::{MOST_WAITS, Outlook, next_to_admit};
pub use progress::RoundProgress;
pub use rows::{fuel_left, has_ended};
pub use setup::Setup;
pub use waiting::Waiting;
pub use worker::{Site, Worker};
