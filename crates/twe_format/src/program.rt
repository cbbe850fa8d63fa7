//! The program, as its words ask for it.
ghost use Rattle.twe_format.specs.Answers.{FormatDue};
ghost use Rattle.twe_format.specs.Words.{format_request, format_usage_text};

use crate::answering::answer_text;
use crate::words::{FormatRequest, format_request, usage_text};
use std::alloc::Global;
use twe_base::{Bytes, Memory, Word};
use twe_io::Answer;
use twe_report::TextProgram;

impl TextProgram for FormatRequest {
    ghost asked = { format_request };

    ghost usage = { format_usage_text };

    ghost due = { FormatDue };

    fn of_words(_: Global, words: &[Word]) -> Result<Option<Self>, Memory> {
        Ok(format_request(words))
    }

    fn usage_text(alloc: Global) -> Result<Bytes, Memory> {
        usage_text(alloc)
    }

    fn answer_text(&self, alloc: Global, text: &[u8]) -> Result<Answer, Memory> {
        answer_text(alloc, *self, text)
    }
}
