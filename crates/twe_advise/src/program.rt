//! The program, as its words ask for it.
ghost use Rattle.twe_advise.specs.Answers.{AdviceDue, AdviceGiven};
ghost use Rattle.twe_advise.specs.Words.{advise_usage_text, asked_advice};

use crate::answering::advice_answer;
use crate::request::{AdviceRequest, declarations};
use crate::text::usage_text;
use crate::words::{AdviceWords, asked_advice};
use machine_state::ReplayFail;
use seg_journal::{Limits, Move};
use std::alloc::Global;
use text_answers::{JournalProgram, answer_with_journal, cut_input};
use twe_base::{Bytes, Memory, Word};
use twe_io::Answer;
use twe_program::Prog;
use twe_report::TextProgram;

impl JournalProgram for AdviceRequest {
    ghost gives = { λ request. AdviceGiven request.wanted request.items };

    fn answer_moves(
        &self,
        alloc: Global,
        p: &Prog,
        lim: Limits,
        moves: &[Move],
    ) -> Result<Answer, ReplayFail> {
        advice_answer(alloc, self, p, lim, moves)
    }
}

impl TextProgram for AdviceWords {
    ghost asked = { asked_advice };

    ghost usage = { advise_usage_text };

    ghost due = { AdviceDue };

    fn of_words(_: Global, words: &[Word]) -> Result<Option<Self>, Memory> {
        Ok(asked_advice(words))
    }

    fn usage_text(alloc: Global) -> Result<Bytes, Memory> {
        usage_text(alloc)
    }

    fn answer_text(&self, alloc: Global, text: &[u8]) -> Result<Answer, Memory> {
        let (program, _) = cut_input(text);
        let items = declarations(alloc, program)?;
        let request = AdviceRequest {
            wanted: *self,
            items,
        };
        answer_with_journal(alloc, &request, text)
    }
}
