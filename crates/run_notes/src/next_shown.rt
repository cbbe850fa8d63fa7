//! What is said of a run that goes on.
ghost use Rattle.std.specs.Prelude.{◌≡◌, ◌++◌, IfOk, OnOk, slice_get};
ghost use Rattle.std.specs.List.{flat_map};
ghost use Rattle.run_notes.specs.NextShown.{move_shown, next_caption, next_explanation, next_notes, next_notes_at, next_remarks, next_words, place_or};

use crate::faulted::{one_remark, push_note_if};
use crate::task_texts::push_task;
use crate::waits::origin_of;
use explain_pages::{Explanation, Note};
use itoa::Buffer;
use machine_state::State;
use run_facts::{TaskMaking, place_of};
use seg_journal::{Kind, Move, word_of};
use std::alloc::Global;
use twe_base::{Bytes, List, Memory, Place};
use twe_program::Prog;

/// The most legal moves that are shown.
pub(crate) const MOST_MOVES: usize = 20;

/// What a move of this kind does with a task that has come to this place, if it has come to one.
fn next_words(kind: Kind, stands: Option<Place>) -> &'static [u8]
    ensures { result.now ≡ next_words kind stands }
{
    match (kind, stands) {
        (Kind::Admit, _) => b" comes from here, and may be admitted: ",
        (Kind::Run, None) => b" comes from here, and may begin: ",
        (Kind::Run, Some(_)) => b" has come to here, and may go on: ",
    }
}

/// Appends a move as a journal has it, between accents.
fn push_move(text: &mut Bytes, mv: Move) -> Result<(), Memory>
    ensures { OnOk result (text.new ≡ text.old ++ move_shown mv) }
{
    text.push_all(b"`")?;
    text.push_all(word_of(mv.kind))?;
    text.push_all(Buffer::new().format(mv.task).as_bytes())?;
    text.push_all(b"`")
}

/// The place to which a task has come, or if it has come to none, that from which it comes.
fn place_or(stands: Option<Place>, origin: Option<Place>) -> Option<Place>
    ensures { result ≡ place_or stands origin }
{
    match stands {
        None => origin,
        Some(place) => Some(place),
    }
}

/// That the task of a move may take it.
fn next_caption(
    alloc: Global,
    p: &Prog,
    st: &State,
    mv: Move,
    stands: Option<Place>,
) -> Result<Bytes, Memory>
    ensures { IfOk result (λ text. text ≡ next_caption p.now st.now mv stands) }
{
    let mut text = Bytes::new(alloc);
    push_task(&mut text, p, st, mv.task)?;
    text.push_all(next_words(mv.kind, stands))?;
    push_move(&mut text, mv)?;
    Ok(text)
}

/// Appends the same, if the task has come to this place.
fn push_next_notes_at(
    notes: &mut List<Note>,
    alloc: Global,
    p: &Prog,
    st: &State,
    makings: &[TaskMaking],
    mv: Move,
    stands: Option<Place>,
) -> Result<(), Memory>
    ensures { OnOk result (notes.new ≡ notes.old ++ next_notes_at p.now st.now makings.now mv stands) }
{
    let caption = next_caption(alloc, p, st, mv, stands)?;
    push_note_if(
        notes,
        place_or(stands, origin_of(p, st, makings, mv.task)),
        caption,
    )
}

/// Appends that the task of a move may take it, where it stands.
fn push_next_notes(
    notes: &mut List<Note>,
    alloc: Global,
    p: &Prog,
    st: &State,
    makings: &[TaskMaking],
    mv: Move,
) -> Result<(), Memory>
    ensures { OnOk result (notes.new ≡ notes.old ++ next_notes p.now st.now makings.now mv) }
{
    let stands = place_of(p, st, mv.task);
    push_next_notes_at(notes, alloc, p, st, makings, mv, stands)
}

/// What is said of moves.
fn moves_notes(
    alloc: Global,
    p: &Prog,
    st: &State,
    moves: &[Move],
    makings: &[TaskMaking],
) -> Result<List<Note>, Memory>
    ensures { IfOk result (λ notes. notes ≡ flat_map (next_notes p.now st.now makings.now) moves.now) }
{
    let mut notes = List::new(alloc);
    for mv in moves {
        push_next_notes(&mut notes, alloc, p, st, makings, *mv)?;
    }
    Ok(notes)
}

/// What is said beside so many moves.
fn next_remarks(alloc: Global, count: usize) -> Result<List<Bytes>, Memory>
    ensures { IfOk result (λ remarks. remarks ≡ next_remarks count) }
{
    if count == MOST_MOVES {
        let remark = b"no more than 20 moves are shown, of the tasks with the lowest numbers";
        one_remark(alloc, Bytes::from_slice(alloc, remark)?)
    } else {
        Ok(List::new(alloc))
    }
}

/// What is said of a run that goes on with one of these moves.
pub(crate) fn next_explanation(
    alloc: Global,
    p: &Prog,
    st: &State,
    makings: &[TaskMaking],
    moves: &[Move],
) -> Result<Explanation, Memory>
    ensures { IfOk result (λ e. e ≡ next_explanation p.now st.now makings.now moves.now) }
{
    let headline = b"the journal ends here, and each of these moves may come next";
    Ok(Explanation {
        headline: Bytes::from_slice(alloc, headline)?,
        notes: moves_notes(alloc, p, st, moves, makings)?,
        remarks: next_remarks(alloc, moves.len())?,
    })
}
