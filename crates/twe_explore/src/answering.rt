//! The answer to a text.
ghost use Rattle.std.specs.Prelude.{◌≡◌, IfOk, None, Some, false, true};
ghost use Rattle.twe_frontend.specs.Accepted.{Accepted};
ghost use Rattle.twe_explore.specs.Answers.{ExploreDue, HaveEnds};

use crate::json::json_line;
use crate::results::{answers_for, is_complete, results_status};
use crate::text::{no_result_text, results_text};
use crate::words::Question;
use all_runs::{FoundEnds, find_ends};
use std::alloc::Global;
use twe_base::Memory;
use twe_frontend::{FrontFail, read_program};
use twe_io::{Answer, Status};
use twe_program::Prog;
use twe_report::{journal_part, refusal_text};

/// The answer to a text.
pub(crate) fn answer_text(alloc: Global, question: &Question, text: &[u8]) -> Result<Answer, Memory>
    ensures { IfOk result (ExploreDue question.now text.now) }
{
    match read_program(alloc, text) {
        Ok(p) => answer_accepted(alloc, question, text, &p),
        Err(FrontFail::Refused(refusal)) => {
            let line = refusal_text(alloc, refusal)?;
            Ok(Answer::on_err(alloc, Status::Refused, line))
        }
        Err(FrontFail::OutOfMemory(memory)) => Err(memory),
    }
}

/// The answer to a text that is accepted and has this program.
fn answer_accepted(
    alloc: Global,
    question: &Question,
    text: &[u8],
    p: &Prog,
) -> Result<Answer, Memory>
    requires { Accepted text.now p.now }
    ensures { IfOk result (ExploreDue question.now text.now) }
{
    let found = find_ends(alloc, p, question.lim, question.states as usize)?;
    match question.journal {
        None => answer_listed(alloc, question, text, p, &found),
        Some(number) => answer_one(alloc, question, text, p, &found, number),
    }
}

/// The answer that lists all results, in lines or as JSON.
fn answer_listed(
    alloc: Global,
    question: &Question,
    text: &[u8],
    p: &Prog,
    found: &FoundEnds,
) -> Result<Answer, Memory>
    requires accepted { Accepted text.now p.now }
    requires found { HaveEnds p.now question.now.lim question.now.states found.now }
    requires wanted { question.now.journal ≡ None }
    ensures { IfOk result (ExploreDue question.now text.now) }
{
    if question.json {
        return answer_as_json(alloc, question, text, p, found);
    }
    answer_all(alloc, question, text, p, found)
}

/// The answer that lists all results as JSON.
fn answer_as_json(
    alloc: Global,
    question: &Question,
    text: &[u8],
    p: &Prog,
    found: &FoundEnds,
) -> Result<Answer, Memory>
    requires accepted { Accepted text.now p.now }
    requires found { HaveEnds p.now question.now.lim question.now.states found.now }
    requires wanted { question.now.journal ≡ None }
    requires json { question.now.json ≡ true }
    ensures { IfOk result (ExploreDue question.now text.now) }
{
    let _ = text;
    let lim = question.lim;
    let runs = found.ended.as_slice();
    let whole = is_complete(found.extent);
    let answers = answers_for(alloc, p, lim, runs)?;
    let line = json_line(alloc, lim, found.states, whole, runs, answers.as_slice())?;
    Ok(Answer::on_out(alloc, results_status(whole, runs), line))
}

/// The answer that lists all results in lines.
fn answer_all(
    alloc: Global,
    question: &Question,
    text: &[u8],
    p: &Prog,
    found: &FoundEnds,
) -> Result<Answer, Memory>
    requires accepted { Accepted text.now p.now }
    requires found { HaveEnds p.now question.now.lim question.now.states found.now }
    requires wanted { question.now.journal ≡ None }
    requires lines { question.now.json ≡ false }
    ensures { IfOk result (ExploreDue question.now text.now) }
{
    let _ = text;
    let runs = found.ended.as_slice();
    let whole = is_complete(found.extent);
    let answers = answers_for(alloc, p, question.lim, runs)?;
    let lines = results_text(alloc, found.states, whole, answers.as_slice())?;
    Ok(Answer::on_out(alloc, results_status(whole, runs), lines))
}

/// The answer that has the journal of the result of this number, counted from 1.
fn answer_one(
    alloc: Global,
    question: &Question,
    text: &[u8],
    p: &Prog,
    found: &FoundEnds,
    number: u64,
) -> Result<Answer, Memory>
    requires accepted { Accepted text.now p.now }
    requires found { HaveEnds p.now question.now.lim question.now.states found.now }
    requires wanted { question.now.journal ≡ Some number }
    ensures { IfOk result (ExploreDue question.now text.now) }
{
    let _ = text;
    let _main = p.main;
    match found.ended.get(number.saturating_sub(1) as usize) {
        None => {
            let line = no_result_text(alloc, number)?;
            Ok(Answer::on_err(alloc, Status::Refused, line))
        }
        Some(run) => {
            let lines = journal_part(alloc, &run.journal, question.lim)?;
            Ok(Answer::on_out(alloc, Status::Done, lines))
        }
    }
}
