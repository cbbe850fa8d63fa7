//! The front of the checker: from a text to its program, or to the one refusal of the text: the first failure of a rule of
//! the text, or else of one of names, or else of one on effects. `meaning` has the tree and the program of a text, whatever
//! the rules on effects say, and texts of paths and effects. `lines` has the lines of a text.
#![tactic(auto)]

mod from_text;
mod laws;
mod lines;
mod meaning;
mod read;
mod refusal;

pub use from_text::parsed_trees_are_from_texts;
pub use laws::{one_program, one_refusal, refused_or_accepted};
pub use lines::{after_bytes, after_lines, first_bytes, line_at};
pub use meaning::{
    Meaning, push_effect, push_effects, push_parameter, push_path, push_starred_path, read_meaning,
};
pub use read::{FrontFail, read_program, read_tree};
pub use refusal::{Refusal, RuleName};
