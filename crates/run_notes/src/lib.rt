//! What is said of a run: why it goes no further, or what may come next; and why a move of a journal is not legal.
#![tactic(auto)]

mod body_variables;
mod calls_shown;
mod cells_shown;
mod cycles;
mod faulted;
mod journals;
mod laws;
mod next_shown;
mod not_legal;
mod task_texts;
mod trees;
mod variables_shown;
mod waits;

pub use journals::{answer_journal, tell_run};
pub use laws::{names_are_found_by_places, shown_names_are_those_of_the_variables};
