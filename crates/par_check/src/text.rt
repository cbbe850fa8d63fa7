//! What is written for a batch.
ghost use Rattle.std.specs.Prelude.{◌≡◌, ◌++◌, IfOk, OnOk};
ghost use Rattle.par_check.specs.Batch.{answer_text, batch_text};

use itoa::Buffer;
use std::alloc::Global;
use twe_base::{Bytes, Memory};
use twe_io::Answer;

/// What is written for these answers: for each, counted from 1, a line as `program 1: status 0`, and then its bytes for out and
/// those for err.
pub fn batch_text(alloc: Global, answers: &[Answer]) -> Result<Bytes, Memory>
    ensures { IfOk result (λ text. text ≡ batch_text 1 answers.now) }
{
    let mut text = Bytes::new(alloc);
    for (at, answer) in answers.iter().enumerate() {
        push_answer(&mut text, at + 1, answer)?;
    }
    Ok(text)
}

/// Appends what is written for the answer to the program with this number.
fn push_answer(text: &mut Bytes, number: usize, answer: &Answer) -> Result<(), Memory>
    ensures { OnOk result (text.new ≡ text.old ++ answer_text number answer.now) }
{
    text.push_all(b"program ")?;
    text.push_all(Buffer::new().format(number).as_bytes())?;
    text.push_all(b": status ")?;
    text.push_all(Buffer::new().format(answer.status.code()).as_bytes())?;
    text.push(b'\n')?;
    text.push_all(answer.out.as_slice())?;
    text.push_all(answer.err.as_slice())
}
