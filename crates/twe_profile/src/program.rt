//! The program, as its words ask for it.
ghost use Rattle.twe_profile.specs.Answers.{ProfileDue, ProfileGiven, profile_words};
ghost use Rattle.twe_profile.specs.Texts.{profile_usage_text};

use crate::answering::profile_answer;
use crate::text::usage_text;
use machine_state::ReplayFail;
use seg_journal::{Limits, Move};
use std::alloc::Global;
use text_answers::{JournalProgram, answer_with_journal};
use twe_base::{Bytes, Memory, Word};
use twe_io::Answer;
use twe_program::Prog;
use twe_report::{TextProgram, without_words};

/// The profile of a journal: the one thing that the program writes.
#[derive(Clone, Copy, Debug)]
pub struct Profiling;

impl JournalProgram for Profiling {
    ghost gives = { λ _. ProfileGiven };

    fn answer_moves(
        &self,
        alloc: Global,
        p: &Prog,
        lim: Limits,
        moves: &[Move],
    ) -> Result<Answer, ReplayFail> {
        profile_answer(alloc, p, lim, moves)
    }
}

impl TextProgram for Profiling {
    ghost asked = { profile_words };

    ghost usage = { profile_usage_text };

    ghost due = { λ _. ProfileDue };

    fn of_words(_: Global, words: &[Word]) -> Result<Option<Self>, Memory> {
        Ok(without_words(words, Profiling))
    }

    fn usage_text(alloc: Global) -> Result<Bytes, Memory> {
        usage_text(alloc)
    }

    fn answer_text(&self, alloc: Global, text: &[u8]) -> Result<Answer, Memory> {
        answer_with_journal(alloc, self, text)
    }
}
