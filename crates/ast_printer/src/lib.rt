//! Prints the tree of a program: its tokens in order, with one space or the end of a line between two of them.
//!
//! It is proved that the printed text is a program again, and that its tree is the same except for places
//! (`specs/ParsesAgain.antt`). What a tree means is left to the crates above.
#![tactic(auto)]

mod expr;
mod item;
mod laws;
mod list;
mod operator;
mod path;
mod print;
mod simple;
mod stmt;
mod token;

pub use laws::parentheses_are_needed;
pub use print::print_ast;
