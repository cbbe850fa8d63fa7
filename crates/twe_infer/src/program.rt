//! The program, as its words ask for it.
ghost use Rattle.twe_infer.specs.Answers.{InferDue, infer_words};
ghost use Rattle.twe_infer.specs.Texts.{infer_usage_text};

use crate::answering::answer_text;
use std::alloc::Global;
use twe_base::{Bytes, Memory, Word};
use twe_io::Answer;
use twe_report::{TextProgram, without_words};

/// The least summaries of a text: the one thing that the program writes.
#[derive(Clone, Copy, Debug)]
pub struct Inferring;

impl TextProgram for Inferring {
    ghost asked = { infer_words };

    ghost usage = { infer_usage_text };

    ghost due = { λ _. InferDue };

    fn of_words(_: Global, words: &[Word]) -> Result<Option<Self>, Memory> {
        Ok(without_words(words, Inferring))
    }

    fn usage_text(alloc: Global) -> Result<Bytes, Memory> {
        Bytes::from_slice(alloc, b"usage: twe_infer\n")
    }

    fn answer_text(&self, alloc: Global, text: &[u8]) -> Result<Answer, Memory> {
        answer_text(alloc, text)
    }
}
