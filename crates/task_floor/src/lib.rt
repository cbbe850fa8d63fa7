//! The floor with the nodes of the tree, on which workers run segments and admit tasks at the same time: calls on one table of
//! atomic words and slots, each with one atomic step or a few. No call blocks.
#![tactic(auto)]

mod cells;
mod clock;
mod closing;
mod contents;
mod emptying;
mod entries;
mod entry_log;
mod floor;
mod in_hand;
mod laying;
mod leaving;
mod linking;
mod locking;
mod marking;
mod numbering;
mod opening;
mod phases;
mod planting;
mod reading;
mod recording;
mod resting;
mod resuming;
mod row_phase;
mod segments;
mod settling;
mod sorting;
mod stands;
pub mod steps;
mod tally;
mod turning;
mod turns;
mod unjoined;
mod unlocking;
mod waking;
mod words;

pub use entries::Committed;
pub use entry_log::EntryLog;
pub use floor::{Floor, Stand};
pub use tally::Tally;
