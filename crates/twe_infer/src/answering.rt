//! The answer to a text.
ghost use Rattle.std.specs.Prelude.{IfOk};
ghost use Rattle.twe_infer.specs.Answers.{InferDue};
ghost use Rattle.twe_frontend.specs.meaning.Meaning.{TextMeans};

use crate::text::{lines_of, too_many_text};
use effect_infer::{InferFail, infer};
use std::alloc::Global;
use twe_base::Memory;
use twe_frontend::{FrontFail, Meaning, read_meaning};
use twe_io::{Answer, Status};
use twe_report::refusal_text;

/// The answer to a text.
pub(crate) fn answer_text(alloc: Global, text: &[u8]) -> Result<Answer, Memory>
    ensures { IfOk result (InferDue text.now) }
{
    match read_meaning(alloc, text) {
        Ok(meaning) => answer_meaning(alloc, text, &meaning),
        Err(FrontFail::Refused(refusal)) => Ok(Answer::on_err(
            alloc,
            Status::Refused,
            refusal_text(alloc, refusal)?,
        )),
        Err(FrontFail::OutOfMemory(memory)) => Err(memory),
    }
}

/// The answer to a text with this meaning.
fn answer_meaning(alloc: Global, text: &[u8], meaning: &Meaning) -> Result<Answer, Memory>
    requires { TextMeans text.now meaning.now.tree meaning.now.program }
    ensures { IfOk result (InferDue text.now) }
{
    let _ = text;
    let p = &meaning.program;
    match infer(alloc, p) {
        Ok(summaries) => {
            let items = meaning.tree.items.as_slice();
            let lines = lines_of(alloc, p.regions.as_slice(), summaries.as_slice(), items)?;
            Ok(Answer::on_out(alloc, Status::Done, lines))
        }
        Err(InferFail::TooMany { method }) => {
            let decl = &p.methods.as_slice()[method as usize];
            let line = too_many_text(alloc, &decl.name)?;
            Ok(Answer::on_err(alloc, Status::TooMany, line))
        }
        Err(InferFail::OutOfMemory(memory)) => Err(memory),
    }
}
