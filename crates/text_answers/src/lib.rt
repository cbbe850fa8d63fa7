//! From a command to its answer: what the commands write of a program text, and with which status. Nothing is written here, and
//! all of it happens on the calling thread. Programs run what `start_command` says is to be run, by workers if they want, and
//! `answer_run` makes the reply to the run.
//!
//! Programs that read a text and a journal have the way from an input to their answer here, which is the same for all of them.
#![tactic(auto)]

mod answering;
mod asked;
mod book;
mod counting;
mod ended;
mod input;
mod journal_answers;
mod laws;
mod program;
mod reading;
mod replaying;
mod running;
mod starting;

pub use answering::{answer_text, run_alone};
pub use asked::{AskedRun, Report};
pub use book::{Book, Reply};
pub use counting::line_of;
pub use ended::{answer_done, answer_ended};
pub use input::{cut_at_mark, cut_input, has_input};
pub use journal_answers::answer_with_journal;
pub use laws::{
    deterministic_mains_have_one_result_text, one_answer_by_one_worker_at_most,
    written_journals_replay,
};
pub use program::JournalProgram;
pub use running::answer_run;
pub use starting::{Started, start_command};
