//! Summaries as clauses of a text: what is only read and what is written, the paths of each in one order.
//!
//! A text can be given these summaries in the place of those of its methods, each where a text can have it, and is read again.
//! Which bytes are the summary of a method is known of the lexemes alone, and every other byte stays as it is, comments and
//! layout too. That the text keeps its meaning is not proved of these bytes: the program reads what it has written, and compares
//! the tree with that of the text with the new clauses. What follows then is the laws.
#![tactic(auto)]

mod clauses;
mod fail;
mod items;
mod laws;
mod lexemes;
mod news;
mod order;
mod paste;
pub mod paste_laws;
mod pasted_laws;
mod text;
mod words;
mod writable;
mod writer;
mod writing_laws;
mod written_text;

pub use fail::PasteFail;
pub use laws::{lines_can_be_pasted, paths_have_one_order, written_paths_ascend};
pub use order::paths_of;
pub use paste::paste_summaries;
pub use pasted_laws::{pasted_texts_do_not_change, pasted_texts_stay_accepted};
pub use text::{push_clauses, push_summary};
pub use writable::can_be_written;
pub use writing_laws::{one_written_text, parts_are_the_text};
pub use written_text::write_summaries;
