//! The program text of the load generator: many small tasks, whose effects meet at one cell.
//!
//! The crate makes the text. It does not say what the text means, nor that it is accepted.
#![tactic(auto)]

pub mod accepted;
mod lines;
mod text;

pub use text::load_text;
