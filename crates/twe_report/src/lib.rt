//! The texts that the programs write: the result of a run, its journal, and the one line of each other answer; and the reading of
//! an input, with the answer to a read that fails.
//!
//! Programs that read one text and answer it have the way from their words to the status here, which is the same for all of them.
#![tactic(auto)]

mod journal;
mod lines;
mod load;
mod program;
mod reading;
mod result;
mod run;
mod stuck;
mod unfinished;

pub use journal::journal_part;
pub use lines::{
    accepted_text, fault_text, not_a_move_text, not_legal_text, push_place, refusal_text,
    usage_text,
};
pub use load::load_result_text;
pub use program::{TextProgram, by_word, without_words};
pub use reading::{Input, read_input};
pub use result::{prints_text, result_text};
pub use run::run_text_program;
pub use stuck::stuck_text;
pub use unfinished::{undone, unfinished_text};
