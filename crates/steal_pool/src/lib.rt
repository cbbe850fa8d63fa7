//! Decks for work stealing: each worker owns a deck of numbers, and can steal from the others' if its own is empty.
//!
//! A deck is first in, first out. Its owner pushes at the back. The owner and every other worker take at the front,
//! each in one atomic step. The crates above decide what a number stands for, start the workers, and know when they are
//! done.
#![tactic(auto)]

mod deck;
mod decks;
pub mod gates;
mod law;
mod laws;
mod other;
mod own;

pub use deck::Deck;
pub use decks::{Decks, make_decks};
pub use law::Hand;
pub use laws::lone_worker_takes_in_order;
pub use own::FIRST_ROOM;

#[cfg(test)]
mod tests;
