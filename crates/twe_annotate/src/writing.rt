//! The text with the least summaries of its methods.
ghost use Rattle.std.specs.Prelude.{IfOk};
ghost use Rattle.twe_annotate.specs.Answers.{AnnotateDue};
ghost use Rattle.twe_annotate.specs.declared.words.AnnotateRequest.TheVariants.{Write};
ghost use Rattle.twe_frontend.specs.meaning.Meaning.{TextMeans};

use crate::kept::{kept_lines, long_text, otherwise_text, write_status};
use effect_infer::infer_each;
use std::alloc::Global;
use summary_texts::{PasteFail, paste_summaries};
use twe_base::Memory;
use twe_frontend::Meaning;
use twe_io::{Answer, Status};

/// The answer to a text with this meaning: the text with the least summaries, and a line for each method that keeps its clause.
pub(crate) fn answer_write(alloc: Global, text: &[u8], meaning: Meaning) -> Result<Answer, Memory>
    requires { TextMeans text.now meaning.tree meaning.program }
    ensures { IfOk result (AnnotateDue Write text.now) }
{
    let each = infer_each(alloc, &meaning.program)?;
    let summaries = each.as_slice();
    let err = kept_lines(alloc, summaries, meaning.tree.items.as_slice())?;
    let status = write_status(summaries);
    match paste_summaries(alloc, text, meaning, summaries) {
        Ok(out) => Ok(Answer { status, out, err }),
        Err(PasteFail::TooLong) => Ok(Answer::on_err(alloc, Status::TooLong, long_text(alloc)?)),
        Err(PasteFail::Differs) => Ok(Answer::on_err(
            alloc,
            Status::Refused,
            otherwise_text(alloc)?,
        )),
        Err(PasteFail::OutOfMemory(memory)) => Err(memory),
    }
}
