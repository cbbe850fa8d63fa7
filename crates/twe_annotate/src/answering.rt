//! The answer to a text.
ghost use Rattle.std.specs.Prelude.{IfOk};
ghost use Rattle.twe_annotate.specs.Answers.{AnnotateDue};
ghost use Rattle.twe_annotate.specs.declared.words.AnnotateRequest.TheVariants.{Matrix};
ghost use Rattle.twe_frontend.specs.meaning.Meaning.{IsRefusedBefore, TextMeans};
ghost use Rattle.twe_frontend.specs.meaning.Reading.{ReadingHasCause};

use crate::comparing::answer_compare;
use crate::explaining::answer_explain;
use crate::lines::matrix_lines;
use crate::words::AnnotateRequest;
use crate::writing::answer_write;
use std::alloc::Global;
use twe_base::Memory;
use twe_frontend::{FrontFail, Meaning, Refusal, read_meaning};
use twe_io::{Answer, Status};
use twe_report::refusal_text;

/// The answer to a text.
pub(crate) fn answer_text(
    alloc: Global,
    request: &AnnotateRequest,
    text: &[u8],
) -> Result<Answer, Memory>
    ensures { IfOk result (AnnotateDue request.now text.now) }
{
    match read_meaning(alloc, text) {
        Ok(meaning) => answer_meaning(alloc, request, text, meaning),
        Err(fail) => answer_fail(alloc, request, text, &fail),
    }
}

/// The answer to a text that could not be read.
fn answer_fail(
    alloc: Global,
    request: &AnnotateRequest,
    text: &[u8],
    fail: &FrontFail,
) -> Result<Answer, Memory>
    requires { ReadingHasCause text.now fail.now }
    ensures { IfOk result (AnnotateDue request.now text.now) }
{
    match fail {
        FrontFail::Refused(refusal) => answer_refusal(alloc, request, text, *refusal),
        FrontFail::OutOfMemory(memory) => Err(*memory),
    }
}

/// The answer to a text that has this refusal.
fn answer_refusal(
    alloc: Global,
    request: &AnnotateRequest,
    text: &[u8],
    refusal: Refusal,
) -> Result<Answer, Memory>
    requires { IsRefusedBefore text.now refusal }
    ensures { IfOk result (AnnotateDue request.now text.now) }
{
    let _ = request;
    let _ = text;
    let line = refusal_text(alloc, refusal)?;
    Ok(Answer::on_err(alloc, Status::Refused, line))
}

/// The answer to a text with this meaning: the matrix of its tasks.
fn answer_matrix(alloc: Global, text: &[u8], meaning: &Meaning) -> Result<Answer, Memory>
    requires { TextMeans text.now meaning.now.tree meaning.now.program }
    ensures { IfOk result (AnnotateDue Matrix text.now) }
{
    let _ = text;
    let p = &meaning.program;
    let items = meaning.tree.items.as_slice();
    let regions = p.regions.as_slice();
    let tasks = p.tasks.as_slice();
    let lines = matrix_lines(alloc, regions, items, tasks)?;
    Ok(Answer::on_out(alloc, Status::Done, lines))
}

/// The answer to a text with this meaning.
fn answer_meaning(
    alloc: Global,
    request: &AnnotateRequest,
    text: &[u8],
    meaning: Meaning,
) -> Result<Answer, Memory>
    requires { TextMeans text.now meaning.tree meaning.program }
    ensures { IfOk result (AnnotateDue request.now text.now) }
{
    match request {
        AnnotateRequest::Matrix => answer_matrix(alloc, text, &meaning),
        AnnotateRequest::Write => answer_write(alloc, text, meaning),
        AnnotateRequest::Compare => answer_compare(alloc, text, meaning),
        AnnotateRequest::Explain(name) => answer_explain(alloc, text, meaning, name),
    }
}
