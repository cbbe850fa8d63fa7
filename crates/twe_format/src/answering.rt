//! The answer to a text.
ghost use Rattle.std.specs.Prelude.{◌≡◌, ◌≤◌, length, IfOk};
ghost use Rattle.twe_base.specs.Language.{max_text_bytes};
ghost use Rattle.twe_base.specs.declared.place.Place.{Place};
ghost use Rattle.text_pieces.specs.Pieces.{StopsCut};
ghost use Rattle.twe_parser.specs.declared.fail.SRule.{SRule};
ghost use Rattle.twe_parser.specs.Fails.{Fails};
ghost use Rattle.twe_frontend.specs.Accepted.{IsTreeOf};
ghost use Rattle.twe_frontend.specs.Reads.{IsTextFailure, TreeHasCause};
ghost use Rattle.twe_format.specs.Answers.{FormatDue, HasLayout, check_answer};

use crate::comparing::differing_lines;
use crate::text::long_layout_text;
use crate::words::FormatRequest;
use std::alloc::Global;
use text_layout::lay_out;
use twe_ast::Ast;
use twe_base::{Bytes, MAX_TEXT_BYTES, Memory};
use twe_frontend::{FrontFail, Refusal, read_tree};
use twe_io::{Answer, Status};
use twe_lexer::LexemeFail;
use twe_report::refusal_text;

/// The answer to a text.
pub(crate) fn answer_text(
    alloc: Global,
    request: FormatRequest,
    text: &[u8],
) -> Result<Answer, Memory>
    requires { length text.now ≤ max_text_bytes }
    ensures { IfOk result (FormatDue request text.now) }
{
    match read_tree(alloc, text) {
        Ok(tree) => answer_tree(alloc, request, text, &tree),
        Err(fail) => answer_fail(alloc, request, text, &fail),
    }
}

/// The answer to a text that has no tree.
fn answer_fail(
    alloc: Global,
    request: FormatRequest,
    text: &[u8],
    fail: &FrontFail,
) -> Result<Answer, Memory>
    requires { TreeHasCause text.now fail.now }
    ensures { IfOk result (FormatDue request text.now) }
{
    match fail {
        FrontFail::Refused(refusal) => answer_refusal(alloc, request, text, *refusal),
        FrontFail::OutOfMemory(memory) => Err(*memory),
    }
}

/// The answer to a text that fails this rule of the text first.
fn answer_refusal(
    alloc: Global,
    request: FormatRequest,
    text: &[u8],
    refusal: Refusal,
) -> Result<Answer, Memory>
    requires { IsTextFailure text.now refusal.rule refusal.place }
    ensures { IfOk result (FormatDue request text.now) }
{
    let _ = request;
    let _ = text;
    let line = refusal_text(alloc, refusal)?;
    Ok(Answer::on_err(alloc, Status::Refused, line))
}

/// Why a text that fails no rule of the text could not be cut into its pieces: memory ran out.
fn memory_of(text: &[u8], fail: LexemeFail) -> Memory
    requires keeps { (rule : SRule) (place : Place) → ¬ Fails text.now rule place }
    requires stops { StopsCut fail text.now }
{
    let _ = text;
    match fail {
        LexemeFail::OutOfMemory(memory) => memory,
        LexemeFail::NotAllowed(_) | LexemeFail::Unclosed => unreachable!(),
    }
}

/// A text with this tree in its layout.
fn layout_of(alloc: Global, text: &[u8], tree: &Ast) -> Result<Bytes, Memory>
    requires { IsTreeOf text.now tree.now }
    ensures { IfOk result (HasLayout text.now tree.now) }
{
    let _ = tree;
    match lay_out(alloc, text) {
        Ok(laid) => Ok(laid),
        Err(fail) => Err(memory_of(text, fail)),
    }
}

/// The answer to a text with this tree.
fn answer_tree(
    alloc: Global,
    request: FormatRequest,
    text: &[u8],
    tree: &Ast,
) -> Result<Answer, Memory>
    requires length { length text.now ≤ max_text_bytes }
    requires parsed { IsTreeOf text.now tree.now }
    ensures { IfOk result (FormatDue request text.now) }
{
    let laid = layout_of(alloc, text, tree)?;
    if laid.len() > MAX_TEXT_BYTES {
        let line = long_layout_text(alloc)?;
        return Ok(Answer::on_err(alloc, Status::TooLong, line));
    }
    match request {
        FormatRequest::Write => Ok(Answer::on_out(alloc, Status::Done, laid)),
        FormatRequest::Check => check_answer(alloc, text, laid.as_slice()),
    }
}

/// The answer to a text whose lines are compared with those of its layout.
fn check_answer(alloc: Global, text: &[u8], laid: &[u8]) -> Result<Answer, Memory>
    requires text { length text.now ≤ max_text_bytes }
    requires laid { length laid.now ≤ max_text_bytes }
    ensures { IfOk result (λ answer. answer ≡ check_answer text.now laid.now) }
{
    if text == laid {
        return Ok(Answer::on_out(alloc, Status::Done, Bytes::new(alloc)));
    }
    let lines = differing_lines(alloc, text, laid)?;
    Ok(Answer::on_out(alloc, Status::Refused, lines))
}
