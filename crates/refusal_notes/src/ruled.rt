//! What is said of a rule on joins, spawns or deterministic tasks that fails.
ghost use Rattle.std.specs.Prelude.{◌≡◌, ◌∷◌, [], IfOk};
ghost use Rattle.explain_pages.specs.places.Notes.{note_at};
ghost use Rattle.refusal_notes.specs.Ruled.{child_explanation, join_explanation, join_notes, order_caption, order_explanation, ruled_explanation, spawn_explanation, strict_explanation};

use crate::ways::tell_way;
use explain_pages::{Explanation, Note, asked, wrong};
use refusal_causes::ControlWay;
use std::alloc::Global;
use twe_base::{Bytes, List, Memory, Place};
use twe_frontend::Refusal;

/// A note at the place.
fn note(alloc: Global, place: Place, caption: &[u8]) -> Result<Note, Memory>
    ensures { IfOk result (λ note. note ≡ note_at place caption.now) }
{
    let caption = Bytes::from_slice(alloc, caption)?;
    Ok(Note { place, caption })
}

/// One note, at this place.
fn one_note(alloc: Global, place: Place, caption: &[u8]) -> Result<List<Note>, Memory>
    ensures { IfOk result (λ notes. notes ≡ note_at place caption.now ∷ []) }
{
    let mut notes = List::new(alloc);
    notes.push(note(alloc, place, caption)?)?;
    Ok(notes)
}

/// The sentences of the rule, these places, the way if there is one, and one remark more.
fn ruled_explanation(
    alloc: Global,
    refusal: Refusal,
    notes: List<Note>,
    way: &Option<ControlWay>,
    remark: &[u8],
) -> Result<Explanation, Memory>
    ensures { IfOk result (λ explanation. explanation ≡ ruled_explanation refusal notes way.now remark.now) }
{
    let headline = Bytes::from_slice(alloc, wrong(refusal.rule))?;
    let mut remarks = List::new(alloc);
    remarks.push(Bytes::from_slice(alloc, asked(refusal.rule))?)?;
    tell_way(&mut remarks, alloc, way)?;
    remarks.push(Bytes::from_slice(alloc, remark)?)?;
    Ok(Explanation {
        headline,
        notes,
        remarks,
    })
}

/// The place where the task of the future is made, if it is known, and that of the join.
fn join_notes(alloc: Global, made: Option<Place>, place: Place) -> Result<List<Note>, Memory>
    ensures { IfOk result (λ notes. notes ≡ join_notes made place) }
{
    match made {
        None => one_note(alloc, place, b"it may be joined already"),
        Some(made) => {
            let mut notes = one_note(alloc, made, b"its task is spawned here")?;
            notes.push(note(alloc, place, b"it may be joined already")?)?;
            Ok(notes)
        }
    }
}

/// The future of a join is not out on some way to it.
pub(crate) fn join_explanation(
    alloc: Global,
    refusal: Refusal,
    made: Option<Place>,
    way: &Option<ControlWay>,
) -> Result<Explanation, Memory>
    ensures { IfOk result (λ explanation. explanation ≡ join_explanation refusal made way.now) }
{
    let notes = join_notes(alloc, made, refusal.place)?;
    ruled_explanation(
        alloc,
        refusal,
        notes,
        way,
        b"join it once for each spawn: not again after a branch, or in the next turn of a loop",
    )
}

/// The future of a spawn is out already on some way to it.
pub(crate) fn spawn_explanation(
    alloc: Global,
    refusal: Refusal,
    way: &Option<ControlWay>,
) -> Result<Explanation, Memory>
    ensures { IfOk result (λ explanation. explanation ≡ spawn_explanation refusal way.now) }
{
    let notes = one_note(
        alloc,
        refusal.place,
        b"the task of an earlier turn may be out",
    )?;
    ruled_explanation(
        alloc,
        refusal,
        notes,
        way,
        b"join it in the same turn, and the tasks run one after another; or use executeLater, and their order is open",
    )
}

/// A deterministic task does something at the refusal's place of which this is said.
fn strict_explanation(
    alloc: Global,
    refusal: Refusal,
    decl_place: Place,
    caption: &[u8],
    remark: &[u8],
) -> Result<Explanation, Memory>
    ensures { IfOk result (λ explanation. explanation ≡ strict_explanation refusal decl_place caption.now remark.now) }
{
    let mut notes = one_note(alloc, decl_place, b"is declared deterministic")?;
    notes.push(note(alloc, refusal.place, caption)?)?;
    ruled_explanation(alloc, refusal, notes, &None, remark)
}

/// What is said of an `executeLater`, or of a `getValue`.
fn order_caption(makes: bool) -> &'static [u8]
    ensures { result.now ≡ order_caption makes }
{
    if makes {
        b"makes a task whose order is open"
    } else {
        b"waits for a task whose order is open"
    }
}

/// A deterministic task makes a task by `executeLater`, or waits by `getValue`.
pub(crate) fn order_explanation(
    alloc: Global,
    refusal: Refusal,
    makes: bool,
    decl_place: Place,
) -> Result<Explanation, Memory>
    ensures { IfOk result (λ explanation. explanation ≡ order_explanation refusal makes decl_place) }
{
    strict_explanation(
        alloc,
        refusal,
        decl_place,
        order_caption(makes),
        b"spawn and join a deterministic task here, or declare this one without deterministic",
    )
}

/// A deterministic task spawns one that is not.
pub(crate) fn child_explanation(
    alloc: Global,
    refusal: Refusal,
    decl_place: Place,
) -> Result<Explanation, Memory>
    ensures { IfOk result (λ explanation. explanation ≡ child_explanation refusal decl_place) }
{
    strict_explanation(
        alloc,
        refusal,
        decl_place,
        b"this task is not",
        b"declare the spawned task deterministic, or this one without deterministic",
    )
}
