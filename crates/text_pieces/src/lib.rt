//! The pieces of a text: its tokens and its comments in their order, and where each begins.
//!
//! Blanks are dropped. Of them it is kept whether a piece stands on the line of the one before it, on the next line, or after
//! an empty line.
#![tactic(auto)]

mod cut;
mod piece;

pub use cut::cut_text;
pub use piece::{Class, Piece, PieceStart};
