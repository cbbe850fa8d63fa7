//! The answer if the declared summaries are compared with what is needed.
ghost use Rattle.std.specs.Prelude.{◌≡◌, IfOk};
ghost use Rattle.twe_frontend.specs.meaning.Meaning.{TextMeans};
ghost use Rattle.twe_annotate.specs.Answers.{AnnotateDue};
ghost use Rattle.twe_annotate.specs.Compared.{compare_answer, compare_status};
ghost use Rattle.twe_annotate.specs.declared.words.AnnotateRequest.TheVariants.{Compare};

use std::alloc::Global;
use summary_comparing::{CompareLines, compare_lines};
use twe_base::Memory;
use twe_frontend::Meaning;
use twe_io::{Answer, Status};

/// The status, if these are the lines of declarations that need too many effects.
fn compare_status(many: &[u8]) -> Status
    ensures { result ≡ compare_status many.now }
{
    match many {
        [] => Status::Done,
        [_, ..] => Status::TooMany,
    }
}

/// The answer that has these lines.
pub(crate) fn answer_lines(lines: CompareLines) -> Answer
    ensures { result ≡ compare_answer lines }
{
    let CompareLines { wider, many } = lines;
    let status = compare_status(many.as_slice());
    Answer {
        status,
        out: wider,
        err: many,
    }
}

/// The answer to a text with this meaning: what is declared beside what is needed.
pub(crate) fn answer_compare(alloc: Global, text: &[u8], meaning: Meaning) -> Result<Answer, Memory>
    requires { TextMeans text.now meaning.tree meaning.program }
    ensures { IfOk result (AnnotateDue Compare text.now) }
{
    let _ = text;
    let lines = compare_lines(alloc, &meaning.tree, &meaning.program)?;
    Ok(answer_lines(lines))
}
