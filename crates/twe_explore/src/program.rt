//! The program, as its words ask for it.
ghost use Rattle.twe_explore.specs.Answers.{ExploreDue};
ghost use Rattle.twe_explore.specs.Texts.{explore_usage_text};
ghost use Rattle.twe_explore.specs.Words.{question_of};

use crate::answering::answer_text;
use crate::text::usage_text;
use crate::words::{Question, question_in};
use std::alloc::Global;
use twe_base::{Bytes, Memory, Word};
use twe_io::Answer;
use twe_report::TextProgram;

impl TextProgram for Question {
    ghost asked = { question_of };

    ghost usage = { explore_usage_text };

    ghost due = { ExploreDue };

    fn of_words(_: Global, words: &[Word]) -> Result<Option<Self>, Memory> {
        Ok(question_in(words))
    }

    fn usage_text(alloc: Global) -> Result<Bytes, Memory> {
        usage_text(alloc)
    }

    fn answer_text(&self, alloc: Global, text: &[u8]) -> Result<Answer, Memory> {
        answer_text(alloc, self, text)
    }
}
