//! The lexer: it splits a text into lexemes, always the longest one, and drops blanks and comments.
//!
//! Every text can be split into lexemes. Whether the tokens are those of a program is left to the parser.
#![tactic(auto)]

mod bytes;
mod extent;
mod fixed;
mod lexeme;
mod literal;
mod places;
mod token;

pub use fixed::Fixed;
pub use lexeme::{Lexeme, LexemeFail, first_lexeme};
pub use places::{first_place, place_past};
pub use token::{Token, TokenKind};
