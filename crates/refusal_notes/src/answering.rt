//! The answer to a text.
ghost use Rattle.std.specs.Prelude.{◌≡◌, true, false, IfOk};
ghost use Rattle.refusal_notes.specs.Answers.{ExplainDue};
ghost use Rattle.refusal_causes.specs.declared.explained.Explained.TheVariants.{Kept};
ghost use Rattle.refusal_causes.specs.Explained.{IsCausedBy, IsExplained, IsNameCauseOf, IsTextCauseOf, is_of_names, is_of_tokens};
ghost use Rattle.refusal_causes.specs.NextTokens.{AreNextAt, is_of_end};
ghost use Rattle.twe_frontend.specs.Accepted.{IsRefusal, IsTreeOf};

use crate::early::early_explanation;
use crate::explanation::{explanation_by, place_of_cause};
use crate::meetings::tell_meeting;
use crate::mends::{mends_of, try_mends};
use crate::tokens::stray_explanation;
use crate::unclosed::unclosed_explanation;
use explain_pages::{Wanted, named_explanation, refused_text, variables_at};
use name_causes::NameNeed;
use refusal_causes::text_rules::{TextCause, open_at_end};
use refusal_causes::{Explained, NextToken, RuleCause, explain, is_of_end};
use std::alloc::Global;
use twe_ast::Ast;
use twe_base::Memory;
use twe_frontend::Refusal;
use twe_io::{Answer, Status};
use twe_program::Prog;
use twe_report::accepted_text;

/// The answer to a text.
pub fn explain_text(alloc: Global, wanted: &Wanted, text: &[u8]) -> Result<Answer, Memory>
    ensures { IfOk result (ExplainDue wanted.now text.now) }
{
    let explained = explain(alloc, text)?;
    answer_explained(alloc, wanted, text, &explained)
}

/// The answer to a text of which this is known.
pub(crate) fn answer_explained(
    alloc: Global,
    wanted: &Wanted,
    text: &[u8],
    explained: &Explained,
) -> Result<Answer, Memory>
    requires { IsExplained text.now explained.now }
    ensures { IfOk result (ExplainDue wanted.now text.now) }
{
    match explained {
        Explained::Kept => answer_accepted(alloc, wanted, text),
        Explained::Early { refusal, cause } => {
            answer_refusal(alloc, wanted, text, *refusal, *cause)
        }
        Explained::Stray { refusal, tokens } => {
            answer_stray(alloc, wanted, text, *refusal, tokens.as_slice())
        }
        Explained::Named {
            refusal,
            cause,
            tree,
        } => answer_named(alloc, wanted, text, *refusal, *cause, tree),
        Explained::Late {
            refusal,
            cause,
            tree,
            program,
        } => answer_caused(alloc, wanted, text, *refusal, cause, tree, program),
    }
}

/// The answer to a text that is accepted.
fn answer_accepted(alloc: Global, wanted: &Wanted, text: &[u8]) -> Result<Answer, Memory>
    requires { IsExplained text.now Kept }
    ensures { IfOk result (ExplainDue wanted.now text.now) }
{
    let _ = wanted;
    let _ = text;
    let line = accepted_text(alloc)?;
    Ok(Answer::on_out(alloc, Status::Done, line))
}

/// The answer to a text that has this refusal, at its end, where these tokens may stand.
fn answer_ended(
    alloc: Global,
    wanted: &Wanted,
    text: &[u8],
    refusal: Refusal,
    tokens: &[NextToken],
) -> Result<Answer, Memory>
    requires refused { IsRefusal text.now refusal }
    requires ended { is_of_end refusal.rule ≡ true }
    requires may { AreNextAt text.now refusal.place tokens.now }
    ensures { IfOk result (ExplainDue wanted.now text.now) }
{
    let places = open_at_end(alloc, text, refusal.place)?;
    let explanation = unclosed_explanation(alloc, refusal, tokens, places.as_slice())?;
    let lines = refused_text(alloc, wanted, text, refusal, &explanation)?;
    Ok(Answer::on_out(alloc, Status::Refused, lines))
}

/// The answer to a text that has this refusal with this cause.
fn answer_refusal(
    alloc: Global,
    wanted: &Wanted,
    text: &[u8],
    refusal: Refusal,
    cause: TextCause,
) -> Result<Answer, Memory>
    requires refused { IsRefusal text.now refusal }
    requires caused { IsTextCauseOf text.now refusal.rule refusal.place cause }
    ensures { IfOk result (ExplainDue wanted.now text.now) }
{
    let explanation = early_explanation(alloc, refusal, cause)?;
    let lines = refused_text(alloc, wanted, text, refusal, &explanation)?;
    Ok(Answer::on_out(alloc, Status::Refused, lines))
}

/// The answer to a text that has this refusal, at a place where these tokens may stand.
fn answer_stray(
    alloc: Global,
    wanted: &Wanted,
    text: &[u8],
    refusal: Refusal,
    tokens: &[NextToken],
) -> Result<Answer, Memory>
    requires refused { IsRefusal text.now refusal }
    requires stray { is_of_tokens refusal.rule ≡ true }
    requires may { AreNextAt text.now refusal.place tokens.now }
    ensures { IfOk result (ExplainDue wanted.now text.now) }
{
    if is_of_end(refusal.rule) {
        return answer_ended(alloc, wanted, text, refusal, tokens);
    }
    let explanation = stray_explanation(alloc, refusal, tokens)?;
    let lines = refused_text(alloc, wanted, text, refusal, &explanation)?;
    Ok(Answer::on_out(alloc, Status::Refused, lines))
}

/// The answer to a text that has this tree, and this refusal by a rule of names with this cause.
fn answer_named(
    alloc: Global,
    wanted: &Wanted,
    text: &[u8],
    refusal: Refusal,
    cause: NameNeed,
    tree: &Ast,
) -> Result<Answer, Memory>
    requires refused { IsRefusal text.now refusal }
    requires names { is_of_names refusal.rule ≡ true }
    requires parsed { IsTreeOf text.now tree.now }
    requires caused { IsNameCauseOf tree.now refusal.rule refusal.place cause }
    ensures { IfOk result (ExplainDue wanted.now text.now) }
{
    let explanation = named_explanation(alloc, text, refusal, cause, tree.items.as_slice())?;
    let lines = refused_text(alloc, wanted, text, refusal, &explanation)?;
    Ok(Answer::on_out(alloc, Status::Refused, lines))
}

/// The answer to a text that has this tree, means this program, and has this refusal with this cause.
pub(crate) fn answer_caused(
    alloc: Global,
    wanted: &Wanted,
    text: &[u8],
    refusal: Refusal,
    cause: &RuleCause,
    tree: &Ast,
    p: &Prog,
) -> Result<Answer, Memory>
    requires { IsCausedBy text.now refusal cause.now tree.now p.now }
    ensures { IfOk result (ExplainDue wanted.now text.now) }
{
    let names = variables_at(alloc, tree.items.as_slice(), place_of_cause(cause))?;
    let regions = p.regions.as_slice();
    let mends = mends_of(alloc, text, refusal.place, cause, regions, names.as_slice())?;
    let mut explanation = explanation_by(alloc, refusal, cause, regions, names.as_slice())?;
    tell_meeting(&mut explanation.remarks, alloc, p, names.as_slice(), cause)?;
    try_mends(&mut explanation.remarks, alloc, mends.as_slice())?;
    let lines = refused_text(alloc, wanted, text, refusal, &explanation)?;
    Ok(Answer::on_out(alloc, Status::Refused, lines))
}
