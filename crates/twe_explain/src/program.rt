//! The program, as its words ask for it.
ghost use Rattle.twe_explain.specs.Alone.{explain_usage_text};
ghost use Rattle.twe_explain.specs.Inputs.{WishDue};
ghost use Rattle.twe_explain.specs.Words.{wish_of};

use crate::alone::usage_text;
use crate::inputs::answer_wish;
use crate::words::{Wish, wish_by};
use std::alloc::Global;
use twe_base::{Bytes, Memory, Word};
use twe_io::Answer;
use twe_report::TextProgram;

impl TextProgram for Wish {
    ghost asked = { wish_of };

    ghost usage = { explain_usage_text };

    ghost due = { WishDue };

    fn of_words(alloc: Global, words: &[Word]) -> Result<Option<Self>, Memory> {
        wish_by(alloc, words)
    }

    fn usage_text(alloc: Global) -> Result<Bytes, Memory> {
        usage_text(alloc)
    }

    fn answer_text(&self, alloc: Global, text: &[u8]) -> Result<Answer, Memory> {
        answer_wish(alloc, self, text)
    }
}
