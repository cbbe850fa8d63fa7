//! The program, as its words ask for it.
ghost use Rattle.twe_draw.specs.Answers.{PictureDue, PictureGiven};
ghost use Rattle.twe_draw.specs.Words.{asked_drawing, draw_usage_text};

use crate::page::drawing_text;
use crate::picture::draw;
use crate::words::{Drawing, asked_drawing, usage_text};
use machine_state::ReplayFail;
use seg_journal::{Limits, Move};
use std::alloc::Global;
use text_answers::{JournalProgram, answer_with_journal};
use twe_base::{Bytes, Memory, Word};
use twe_io::{Answer, Status};
use twe_program::Prog;
use twe_report::TextProgram;

impl TextProgram for Drawing {
    ghost asked = { asked_drawing };

    ghost usage = { draw_usage_text };

    ghost due = { PictureDue };

    fn of_words(_: Global, words: &[Word]) -> Result<Option<Self>, Memory> {
        Ok(asked_drawing(words))
    }

    fn usage_text(alloc: Global) -> Result<Bytes, Memory> {
        usage_text(alloc)
    }

    fn answer_text(&self, alloc: Global, text: &[u8]) -> Result<Answer, Memory> {
        answer_with_journal(alloc, self, text)
    }
}

impl JournalProgram for Drawing {
    ghost gives = { PictureGiven };

    fn answer_moves(
        &self,
        alloc: Global,
        p: &Prog,
        lim: Limits,
        moves: &[Move],
    ) -> Result<Answer, ReplayFail> {
        let picture = draw(alloc, p, lim, moves)?;
        let text = drawing_text(alloc, *self, p, &picture)?;
        Ok(Answer::on_out(alloc, Status::Done, text))
    }
}
