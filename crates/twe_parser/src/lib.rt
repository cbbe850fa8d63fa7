//! The parser: from the text of a program to its tree, or to the first failure of a rule of the text.
//!
//! The grammar is a relation between trees and tokens (`specs/Writes.antt` and the files beside it). The code is a
//! table-driven LL(1) parser: the nonterminal on top of its stack and the next token determine the production. It is
//! proved that the table accepts exactly the grammar, and that no program goes on with a token that the table refuses.
#![tactic(auto)]

mod expression_productions;
mod fail;
mod header_productions;
mod item_productions;
mod laws;
mod limits;
mod machine;
mod operator;
mod parser;
mod production;
mod reading;
mod statement_productions;
mod statement_starts;
mod symbol;
mod symbols;
mod text;
mod value_stacks;
mod wait_productions;

pub use fail::{ParseFail, SRule};
pub use laws::{no_program, one_tree};
pub use limits::{Sofar, opens};
pub use text::parse;
