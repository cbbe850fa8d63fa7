//! The program, as its words ask for it.
ghost use Rattle.twe_annotate.specs.Answers.{AnnotateDue};
ghost use Rattle.twe_annotate.specs.Texts.{annotate_usage_text};
ghost use Rattle.twe_annotate.specs.Words.{requested_by};

use crate::answering::answer_text;
use crate::text::usage_text;
use crate::words::{AnnotateRequest, requested_by};
use std::alloc::Global;
use twe_base::{Bytes, Memory, Word};
use twe_io::Answer;
use twe_report::TextProgram;

impl TextProgram for AnnotateRequest {
    ghost asked = { requested_by };

    ghost usage = { annotate_usage_text };

    ghost due = { AnnotateDue };

    fn of_words(alloc: Global, words: &[Word]) -> Result<Option<Self>, Memory> {
        requested_by(alloc, words)
    }

    fn usage_text(alloc: Global) -> Result<Bytes, Memory> {
        usage_text(alloc)
    }

    fn answer_text(&self, alloc: Global, text: &[u8]) -> Result<Answer, Memory> {
        answer_text(alloc, self, text)
    }
}
