//! What is said of a refusal, before it is laid out.
ghost use Rattle.std.specs.Prelude.{◌≡◌, ◌∷◌, [], IfOk, OnOk, ◌++◌};
ghost use Rattle.refusal_notes.specs.Explanation.{declared_index_text, declares_text, explanation_by, explanation_of, index_remarks, literal_index_text, out_explanation, place_of_cause, undeclared_explanation, with_effect};
ghost use Rattle.explain_pages.specs.places.Notes.{note_at};

use crate::effects::has_any_index;
use crate::ruled::{child_explanation, join_explanation, order_explanation, spawn_explanation};
use crate::ways::out_reason;
use effect_sets::Effect;
use explain_pages::{Explanation, Note, asked, wrong};
use refusal_causes::{ControlWay, RuleCause};
use std::alloc::Global;
use twe_ast::Name;
use twe_base::{Bytes, List, Memory, Place, Word};
use twe_frontend::{Refusal, push_effect, push_effects};

/// What every failure of a rule has: the sentences of the rule, and the place.
pub(crate) fn explanation_of(alloc: Global, refusal: Refusal) -> Result<Explanation, Memory>
    ensures { IfOk result (λ explanation. explanation ≡ explanation_of refusal) }
{
    let headline = Bytes::from_slice(alloc, wrong(refusal.rule))?;
    let mut remarks = List::new(alloc);
    remarks.push(Bytes::from_slice(alloc, asked(refusal.rule))?)?;
    let mut notes = List::new(alloc);
    notes.push(Note {
        place: refusal.place,
        caption: Bytes::new(alloc),
    })?;
    Ok(Explanation {
        headline,
        notes,
        remarks,
    })
}

/// These words, and then an effect between accents.
fn with_effect(
    alloc: Global,
    words: &[u8],
    regions: &[Word],
    variables: &[Name],
    effect: &Effect,
) -> Result<Bytes, Memory>
    ensures { IfOk result (λ text. text ≡ with_effect words.now regions.now variables.now effect.now) }
{
    let mut text = Bytes::from_slice(alloc, words)?;
    push_effect(&mut text, regions, variables, effect)?;
    text.push(b'`')?;
    Ok(text)
}

/// What a declaration declares.
fn declares_text(
    alloc: Global,
    regions: &[Word],
    variables: &[Name],
    effects: &[Effect],
) -> Result<Bytes, Memory>
    ensures { IfOk result (λ text. text ≡ declares_text regions.now variables.now effects.now) }
{
    let mut text = Bytes::from_slice(alloc, b"declares `")?;
    push_effects(&mut text, regions, variables, effects)?;
    text.push(b'`')?;
    Ok(text)
}

/// Two notes, at these places, that say this.
fn two_notes(
    alloc: Global,
    first_place: Place,
    first: Bytes,
    second_place: Place,
    second: Bytes,
) -> Result<List<Note>, Memory>
    ensures { IfOk result (λ notes. notes ≡ note_at first_place first ∷ note_at second_place second ∷ []) }
{
    let mut notes = List::new(alloc);
    notes.push(Note {
        place: first_place,
        caption: first,
    })?;
    notes.push(Note {
        place: second_place,
        caption: second,
    })?;
    Ok(notes)
}

/// How an effect that is declared has any index.
fn declared_index_text() -> &'static [u8]
    ensures { result.now ≡ declared_index_text }
{
    b"[?] is any index: an effect that is declared has it only by `[?]` or `*`"
}

/// How the rule tells elements apart.
fn literal_index_text() -> &'static [u8]
    ensures { result.now ≡ literal_index_text }
{
    b"[?] is any index: the rule tells elements apart by literal indexes alone"
}

/// This remark, and then what is said of `[?]`, if it stands in an effect that is shown.
fn remarks_with(
    alloc: Global,
    remark: &[u8],
    any_index: bool,
    said: &[u8],
) -> Result<List<Bytes>, Memory>
    ensures { IfOk result (λ remarks. remarks ≡ remark.now ∷ index_remarks any_index said.now) }
{
    let mut remarks = List::new(alloc);
    remarks.push(Bytes::from_slice(alloc, remark)?)?;
    if any_index {
        remarks.push(Bytes::from_slice(alloc, said)?)?;
    }
    Ok(remarks)
}

/// An effect is needed that is not declared.
fn undeclared_explanation(
    alloc: Global,
    refusal: Refusal,
    decl_place: Place,
    declares: Bytes,
    needs: Bytes,
    any_index: bool,
) -> Result<Explanation, Memory>
    ensures { IfOk result (λ explanation. explanation ≡ undeclared_explanation refusal decl_place declares needs any_index) }
{
    Ok(Explanation {
        headline: Bytes::from_slice(alloc, b"an effect is needed here that is not declared")?,
        notes: two_notes(alloc, decl_place, declares, refusal.place, needs)?,
        remarks: remarks_with(alloc, asked(refusal.rule), any_index, declared_index_text())?,
    })
}

/// An effect is needed that may still be out with a spawned task.
fn out_explanation(
    alloc: Global,
    refusal: Refusal,
    future_place: Place,
    way: &Option<ControlWay>,
    has: Bytes,
    needs: Bytes,
    any_index: bool,
) -> Result<Explanation, Memory>
    ensures { IfOk result (λ explanation. explanation ≡ out_explanation refusal future_place way.now has needs any_index) }
{
    let headline = b"an effect is needed here that may still be out with a spawned task";
    let reason = out_reason(alloc, way)?;
    Ok(Explanation {
        headline: Bytes::from_slice(alloc, headline)?,
        notes: two_notes(alloc, future_place, has, refusal.place, needs)?,
        remarks: remarks_with(alloc, reason.as_slice(), any_index, literal_index_text())?,
    })
}

/// What is said of a refusal with its cause.
pub(crate) fn explanation_by(
    alloc: Global,
    refusal: Refusal,
    cause: &RuleCause,
    regions: &[Word],
    variables: &[Name],
) -> Result<Explanation, Memory>
    ensures { IfOk result (λ explanation. explanation ≡ explanation_by refusal cause.now regions.now variables.now) }
{
    match cause {
        RuleCause::Undeclared {
            need,
            declared,
            decl_place,
        } => {
            let declares = declares_text(alloc, regions, variables, declared.effects.as_slice())?;
            let needs = with_effect(alloc, b"needs `", regions, variables, need)?;
            let any_index = has_any_index(&need.path);
            undeclared_explanation(alloc, refusal, *decl_place, declares, needs, any_index)
        }
        RuleCause::Out {
            need,
            other,
            future_place,
            way,
            ..
        } => {
            let has = with_effect(alloc, b"is spawned with `", regions, variables, other)?;
            let needs = with_effect(alloc, b"needs `", regions, variables, need)?;
            let any_index = has_any_index(&need.path) || has_any_index(&other.path);
            out_explanation(alloc, refusal, *future_place, way, has, needs, any_index)
        }
        RuleCause::NotOut { future_place, way } => {
            join_explanation(alloc, refusal, *future_place, way)
        }
        RuleCause::OutAgain { way } => spawn_explanation(alloc, refusal, way),
        RuleCause::OrderOpen { makes, decl_place } => {
            order_explanation(alloc, refusal, *makes, *decl_place)
        }
        RuleCause::NotDeterministic { decl_place } => {
            child_explanation(alloc, refusal, *decl_place)
        }
    }
}

/// The place of the name of the declaration that a cause speaks of, if it speaks of one.
pub fn place_of_cause(cause: &RuleCause) -> Place
    ensures { result ≡ place_of_cause cause.now }
{
    match cause {
        RuleCause::NotOut { .. } | RuleCause::OutAgain { .. } => Place { line: 0, col: 0 },
        RuleCause::Undeclared { decl_place, .. } | RuleCause::Out { decl_place, .. } => *decl_place,
        RuleCause::OrderOpen { decl_place, .. } | RuleCause::NotDeterministic { decl_place } =>
            *decl_place,
    }
}
