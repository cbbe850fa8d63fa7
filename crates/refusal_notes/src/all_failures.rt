//! The answer to a text of which all failures of the rules on effects are wanted.
ghost use Rattle.std.specs.Prelude.{◌≡◌, ◌<◌, ◌++◌, ◌↔◌, length, IfOk, IsTrue, OnOk};
ghost use Rattle.refusal_causes.specs.Explained.{IsCausedBy, IsExplained};
ghost use Rattle.refusal_notes.specs.AllFailures.{AllDue, AskedDue, all_pages, failure_page, gap, later_pages, refusal_of};
ghost use Rattle.refusal_notes.specs.Answers.{caused_explanation};

use crate::answering::{answer_caused, answer_explained, explain_text};
use crate::explanation::{explanation_by, place_of_cause};
use explain_pages::{Explanation, Wanted, refused_text, variables_at};
use refusal_causes::{CausedFailure, Explained, RuleCause, all_causes, explain};
use std::alloc::Global;
use twe_ast::Ast;
use twe_base::{Bytes, Memory};
use twe_frontend::{Refusal, RuleName};
use twe_io::{Answer, Status};
use twe_program::Prog;

/// The refusal that the failure would be if it were the only one.
fn refusal_of(failure: &CausedFailure) -> Refusal
    ensures { result ≡ refusal_of failure.now }
{
    Refusal {
        rule: RuleName::Effect(failure.rule),
        place: failure.place,
    }
}

/// What is said of a refusal with its cause, by the names that the text has.
fn caused_explanation(
    alloc: Global,
    refusal: Refusal,
    cause: &RuleCause,
    tree: &Ast,
    p: &Prog,
) -> Result<Explanation, Memory>
    ensures { IfOk result (λ explanation. explanation ≡ caused_explanation refusal cause.now tree.now p.now) }
{
    let names = variables_at(alloc, tree.items.as_slice(), place_of_cause(cause))?;
    let regions = p.regions.as_slice();
    let explanation = explanation_by(alloc, refusal, cause, regions, names.as_slice())?;
    Ok(explanation)
}

/// Appends what is said of one of several failures.
fn push_page(
    pages: &mut Bytes,
    alloc: Global,
    wanted: &Wanted,
    text: &[u8],
    tree: &Ast,
    p: &Prog,
    failure: &CausedFailure,
) -> Result<(), Memory>
    ensures { OnOk result (pages.new ≡ pages.old ++ failure_page wanted.now text.now tree.now p.now failure.now) }
{
    let refusal = refusal_of(failure);
    let explanation = caused_explanation(alloc, refusal, &failure.cause, tree, p)?;
    let page = refused_text(alloc, wanted, text, refusal, &explanation)?;
    pages.push_all(page.as_slice())
}

/// Appends what is between two pages.
fn push_gap(pages: &mut Bytes, wanted: &Wanted) -> Result<(), Memory>
    ensures { OnOk result (pages.new ≡ pages.old ++ gap wanted.now) }
{
    if wanted.lines {
        Ok(())
    } else {
        pages.push(b'\n')
    }
}

/// Appends what is said of these failures, each after a gap.
fn push_later(
    pages: &mut Bytes,
    alloc: Global,
    wanted: &Wanted,
    text: &[u8],
    tree: &Ast,
    p: &Prog,
    failures: &[CausedFailure],
) -> Result<(), Memory>
    ensures { OnOk result (pages.new ≡ pages.old ++ later_pages wanted.now text.now tree.now p.now failures.now) }
{
    for failure in failures {
        push_gap(pages, wanted)?;
        push_page(pages, alloc, wanted, text, tree, p, failure)?;
    }
    Ok(())
}

/// What is said of these failures, one after another.
fn all_pages(
    alloc: Global,
    wanted: &Wanted,
    text: &[u8],
    tree: &Ast,
    p: &Prog,
    failures: &[CausedFailure],
) -> Result<Bytes, Memory>
    ensures { IfOk result (λ pages. pages ≡ all_pages wanted.now text.now tree.now p.now failures.now) }
{
    match failures {
        [] => Ok(Bytes::new(alloc)),
        [first, others @ ..] => {
            let mut pages = Bytes::new(alloc);
            push_page(&mut pages, alloc, wanted, text, tree, p, first)?;
            push_later(&mut pages, alloc, wanted, text, tree, p, others)?;
            Ok(pages)
        }
    }
}

/// Whether there is more than one failure.
fn are_several(failures: &[CausedFailure]) -> bool
    ensures { IsTrue result ↔ (1 < length failures.now) }
{
    failures.len() > 1
}

/// The answer to a text that has this tree, means this program, and has this refusal by a rule on effects with this cause.
fn answer_late(
    alloc: Global,
    wanted: &Wanted,
    text: &[u8],
    refusal: Refusal,
    cause: &RuleCause,
    tree: &Ast,
    p: &Prog,
) -> Result<Answer, Memory>
    requires { IsCausedBy text.now refusal cause.now tree.now p.now }
    ensures { IfOk result (AllDue wanted.now text.now) }
{
    let made = all_causes(alloc, p)?;
    let failures = made.as_slice();
    if are_several(failures) {
        let pages = all_pages(alloc, wanted, text, tree, p, failures)?;
        Ok(Answer::on_out(alloc, Status::Refused, pages))
    } else {
        let answer = answer_caused(alloc, wanted, text, refusal, cause, tree, p)?;
        Ok(answer)
    }
}

/// The answer to a text of which this is known, and of which all failures are wanted.
fn answer_known(
    alloc: Global,
    wanted: &Wanted,
    text: &[u8],
    explained: &Explained,
) -> Result<Answer, Memory>
    requires { IsExplained text.now explained.now }
    ensures { IfOk result (AllDue wanted.now text.now) }
{
    match explained {
        Explained::Late {
            refusal,
            cause,
            tree,
            program,
        } => answer_late(alloc, wanted, text, *refusal, cause, tree, program),
        Explained::Kept => {
            let answer = answer_explained(alloc, wanted, text, explained)?;
            Ok(answer)
        }
        Explained::Early { refusal, cause } => {
            let _ = refusal;
            let _ = cause;
            let answer = answer_explained(alloc, wanted, text, explained)?;
            Ok(answer)
        }
        Explained::Stray { refusal, .. } => {
            let _ = refusal;
            let answer = answer_explained(alloc, wanted, text, explained)?;
            Ok(answer)
        }
        Explained::Named { refusal, .. } => {
            let _ = refusal;
            let answer = answer_explained(alloc, wanted, text, explained)?;
            Ok(answer)
        }
    }
}

/// The answer to a text of which all failures are wanted.
fn explain_all(alloc: Global, wanted: &Wanted, text: &[u8]) -> Result<Answer, Memory>
    ensures { IfOk result (AllDue wanted.now text.now) }
{
    let explained = explain(alloc, text)?;
    answer_known(alloc, wanted, text, &explained)
}

/// The answer to a text, of which all failures are wanted or the first one.
pub fn explain_as(alloc: Global, wanted: &Wanted, all: bool, text: &[u8]) -> Result<Answer, Memory>
    ensures { IfOk result (AskedDue all wanted.now text.now) }
{
    if all {
        let answer = explain_all(alloc, wanted, text)?;
        Ok(answer)
    } else {
        let answer = explain_text(alloc, wanted, text)?;
        Ok(answer)
    }
}
