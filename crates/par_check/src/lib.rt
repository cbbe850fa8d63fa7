//! A batch: programs one after another, with a line `%%` between two. Each is checked or run, in several threads, and what is
//! written is what one thread writes, in the order of the programs.
#![tactic(auto)]

mod answers;
mod cut;
mod job;
mod laws;
mod text;

pub use answers::{Answers, answer_all, answer_one};
pub use cut::{Texts, programs_of};
pub use job::Job;
pub use laws::one_batch;
pub use text::batch_text;
