//! What is said of brackets that are open at the end of a text.
ghost use Rattle.std.specs.Prelude.{◌≡◌, ◌-◌, ◌++◌, drop, length, IfOk, OnOk};
ghost use Rattle.std.specs.List.{flat_map};
ghost use Rattle.refusal_notes.specs.Unclosed.{bracket_notes, unclosed_explanation, unclosed_notes};

use crate::tokens::stray_explanation;
use explain_pages::{Explanation, Note};
use refusal_causes::NextToken;
use std::alloc::Global;
use twe_base::{Bytes, List, Memory, Place};
use twe_frontend::Refusal;

/// The most brackets that are shown.
const MOST_BRACKETS: usize = 5;

/// Appends that the bracket at the place is not closed.
fn push_bracket(notes: &mut List<Note>, alloc: Global, place: Place) -> Result<(), Memory>
    ensures { OnOk result (notes.new ≡ notes.old ++ bracket_notes place) }
{
    notes.push(Note {
        place,
        caption: Bytes::from_slice(alloc, b"is not closed")?,
    })
}

/// The innermost ones, as many as are shown.
fn innermost(places: &[Place]) -> &[Place]
    ensures { result.now ≡ drop (length places.now - 5) places.now }
{
    &places[places.len().saturating_sub(MOST_BRACKETS)..]
}

/// What is said of these brackets.
fn brackets_notes(alloc: Global, places: &[Place]) -> Result<List<Note>, Memory>
    ensures { IfOk result (λ notes. notes ≡ flat_map bracket_notes places.now) }
{
    let mut notes = List::new(alloc);
    for place in places {
        push_bracket(&mut notes, alloc, *place)?;
    }
    Ok(notes)
}

/// What is said of the brackets that are open.
fn unclosed_notes(alloc: Global, places: &[Place]) -> Result<List<Note>, Memory>
    ensures { IfOk result (λ notes. notes ≡ unclosed_notes places.now) }
{
    brackets_notes(alloc, innermost(places))
}

/// The same as of a token, with the brackets that are open.
pub(crate) fn unclosed_explanation(
    alloc: Global,
    refusal: Refusal,
    tokens: &[NextToken],
    places: &[Place],
) -> Result<Explanation, Memory>
    ensures { IfOk result (λ explanation. explanation ≡ unclosed_explanation refusal tokens.now places.now) }
{
    let mut explanation = stray_explanation(alloc, refusal, tokens)?;
    let mut notes = unclosed_notes(alloc, places)?;
    notes.push(Note {
        place: refusal.place,
        caption: Bytes::new(alloc),
    })?;
    explanation.notes = notes;
    Ok(explanation)
}
