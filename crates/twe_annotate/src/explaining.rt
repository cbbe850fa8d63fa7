//! The answer if it is asked what one declaration needs.
ghost use Rattle.std.specs.Prelude.{◌≡◌, IfOk};
ghost use Rattle.twe_io.specs.Answers.{on_err};
ghost use Rattle.twe_io.specs.declared.status.Status.TheVariants.{Refused};
ghost use Rattle.twe_frontend.specs.meaning.Meaning.{TextMeans};
ghost use Rattle.twe_annotate.specs.Answers.{AnnotateDue};
ghost use Rattle.twe_annotate.specs.Compared.{unknown_text};
ghost use Rattle.twe_annotate.specs.declared.words.AnnotateRequest.TheVariants.{Explain};

use crate::comparing::answer_lines;
use std::alloc::Global;
use summary_comparing::explain_lines;
use twe_base::{Bytes, Memory, Word};
use twe_frontend::Meaning;
use twe_io::{Answer, Status};

/// The line of a name that no method and no task has.
fn unknown_text(alloc: Global, name: &[u8]) -> Result<Bytes, Memory>
    ensures { IfOk result (λ text. text ≡ unknown_text name.now) }
{
    let mut text = Bytes::from_slice(alloc, b"no method or task: ")?;
    text.push_all(name)?;
    text.push(b'\n')?;
    Ok(text)
}

/// The answer if no method and no task has the name.
fn unknown_answer(alloc: Global, name: &[u8]) -> Result<Answer, Memory>
    ensures { IfOk result (λ answer. answer ≡ on_err Refused (unknown_text name.now)) }
{
    let line = unknown_text(alloc, name)?;
    Ok(Answer::on_err(alloc, Status::Refused, line))
}

/// The answer to a text with this meaning: what the method or the task with this name needs.
pub(crate) fn answer_explain(
    alloc: Global,
    text: &[u8],
    meaning: Meaning,
    name: &Word,
) -> Result<Answer, Memory>
    requires { TextMeans text.now meaning.tree meaning.program }
    ensures { IfOk result (AnnotateDue (Explain name.now) text.now) }
{
    let _ = text;
    let name = name.as_bytes();
    let found = explain_lines(alloc, &meaning.tree, &meaning.program, name)?;
    match found {
        None => unknown_answer(alloc, name),
        Some(lines) => Ok(answer_lines(lines)),
    }
}
