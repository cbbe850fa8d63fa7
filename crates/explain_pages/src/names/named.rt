//! What is said of a rule of names that fails: what is needed at its place and what is there, and where the name is declared.
ghost use Rattle.std.specs.Prelude.{◌≡◌, ◌∷◌, [], ◌++◌, IfOk};
ghost use Rattle.std.specs.Prelude.{None as NoPlace};
ghost use Rattle.name_causes.specs.declared.need.NameNeed.TheVariants.{NoReturn as NoReturnNeed};
ghost use Rattle.explain_pages.specs.names.Named.{cause_explanation, declared_caption, declared_notes, is_of_counts, named_explanation, other_notes, star_notes};
ghost use Rattle.explain_pages.specs.names.Needed.{need_caption};
ghost use Rattle.explain_pages.specs.places.Notes.{note_at};
ghost use Rattle.explain_pages.specs.names.Sentences.{asked};

use crate::names::declared::declared_place;
use crate::names::needed::push_need;
use crate::names::sentences::{asked, wrong};
use crate::places::{Explanation, Note, word_at};
use name_causes::NameNeed;
use std::alloc::Global;
use twe_ast::Item;
use twe_base::{Bytes, List, Memory, Place, Rule};
use twe_frontend::{Refusal, RuleName};

/// That the word is declared here.
fn declared_caption(alloc: Global, word: &[u8]) -> Result<Bytes, Memory>
    ensures { IfOk result (λ text. text ≡ declared_caption word.now) }
{
    let mut text = Bytes::from_slice(alloc, b"`")?;
    text.push_all(word)?;
    text.push_all(b"` is declared here")?;
    Ok(text)
}

/// A list of one note.
fn note_of(alloc: Global, place: Place, caption: Bytes) -> Result<List<Note>, Memory>
    ensures { IfOk result (λ notes. notes ≡ note_at place caption ∷ []) }
{
    let mut notes = List::new(alloc);
    notes.push(Note { place, caption })?;
    Ok(notes)
}

/// The note that a word is declared at a place, if it is.
fn declared_notes(alloc: Global, word: &[u8], place: Option<Place>) -> Result<List<Note>, Memory>
    ensures { IfOk result (λ notes. notes ≡ declared_notes word.now place) }
{
    match place {
        None => Ok(List::new(alloc)),
        Some(place) => {
            let caption = declared_caption(alloc, word)?;
            note_of(alloc, place, caption)
        }
    }
}

/// The first `*` of a path that has two.
fn star_notes(alloc: Global, first: Option<Place>) -> Result<List<Note>, Memory>
    ensures { IfOk result (λ notes. notes ≡ star_notes first) }
{
    match first {
        None => Ok(List::new(alloc)),
        Some(first) => {
            let caption = Bytes::from_slice(alloc, b"is the first * of this path")?;
            note_of(alloc, first, caption)
        }
    }
}

/// That a method or a task returns an `int`.
fn int_notes(alloc: Global, decl_place: Place) -> Result<List<Note>, Memory>
    ensures { IfOk result (λ notes. notes ≡ other_notes (NoReturnNeed decl_place) [] NoPlace) }
{
    let caption = Bytes::from_slice(alloc, b"returns an int")?;
    note_of(alloc, decl_place, caption)
}

/// The other place that belongs to a cause, if there is one.
fn other_notes(
    alloc: Global,
    cause: NameNeed,
    word: &[u8],
    place: Option<Place>,
) -> Result<List<Note>, Memory>
    ensures { IfOk result (λ notes. notes ≡ other_notes cause word.now place) }
{
    match cause {
        NameNeed::NoReturn { decl_place } => int_notes(alloc, decl_place),
        NameNeed::SecondStar { first } => star_notes(alloc, first),
        NameNeed::Over { .. } | NameNeed::NoMain { .. } | NameNeed::Returned { .. } => {
            Ok(List::new(alloc))
        }
        _ => declared_notes(alloc, word, place),
    }
}

/// Whether the rule is the one on numbers of arguments.
fn is_of_counts(rule: RuleName) -> bool
    ensures { result ≡ is_of_counts rule }
{
    match rule {
        RuleName::Name(rule) => rule.number() == 4,
        _ => false,
    }
}

/// What is needed at the place of the refusal, and what is there.
fn need_caption(alloc: Global, refusal: Refusal, cause: NameNeed) -> Result<Bytes, Memory>
    ensures { IfOk result (λ text. text ≡ need_caption (is_of_counts refusal.rule) cause) }
{
    let mut text = Bytes::new(alloc);
    push_need(&mut text, is_of_counts(refusal.rule), cause)?;
    Ok(text)
}

/// What the rule of the refusal asks, as the one remark.
fn asked_remarks(alloc: Global, refusal: Refusal) -> Result<List<Bytes>, Memory>
    ensures { IfOk result (λ remarks. remarks ≡ asked refusal.rule ∷ []) }
{
    let mut remarks = List::new(alloc);
    remarks.push(Bytes::from_slice(alloc, asked(refusal.rule))?)?;
    Ok(remarks)
}

/// What is said of a cause, if the word at the place is declared there.
fn cause_explanation(
    alloc: Global,
    refusal: Refusal,
    cause: NameNeed,
    word: &[u8],
    place: Option<Place>,
) -> Result<Explanation, Memory>
    ensures { IfOk result (λ explanation. explanation ≡ cause_explanation refusal cause word.now place) }
{
    let headline = Bytes::from_slice(alloc, wrong(refusal.rule))?;
    let mut notes = other_notes(alloc, cause, word, place)?;
    notes.push(Note {
        place: refusal.place,
        caption: need_caption(alloc, refusal, cause)?,
    })?;
    let remarks = asked_remarks(alloc, refusal)?;
    Ok(Explanation {
        headline,
        notes,
        remarks,
    })
}

/// What is said of the failure of a rule of names with this cause in a text with these declarations.
pub fn named_explanation(
    alloc: Global,
    text: &[u8],
    refusal: Refusal,
    cause: NameNeed,
    items: &[Item],
) -> Result<Explanation, Memory>
    ensures { IfOk result (λ explanation. explanation ≡ named_explanation text.now refusal cause items.now) }
{
    let word = word_at(text, refusal.place);
    let place = declared_place(alloc, word, refusal.place, items)?;
    cause_explanation(alloc, refusal, cause, word, place)
}
