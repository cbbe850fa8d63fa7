//! What is said of a task that waits for another, and of one that is held by another.
ghost use Rattle.std.specs.Prelude.{◌≡◌, ◌++◌, IfOk, OnOk, option_copied, slice_get};
ghost use Rattle.run_facts.specs.Makings.{place_of_row};
ghost use Rattle.run_notes.specs.Waits.{clashing_with, declared_at_row, effect_shown, held_caption, held_effect, held_notes, held_rule, holder_caption, holding_effect, origin_of, place_if_made, place_of_decl, wait_caption, wait_notes};

use crate::faulted::push_note_if;
use crate::task_texts::push_task;
use effect_sets::Effect;
use explain_pages::Note;
use machine_state::State;
use run_facts::{TaskMaking, effects_of_task, first_clashing, making_of, place_of};
use std::alloc::Global;
use std::slice;
use twe_base::{Bytes, List, Memory, Place};
use twe_frontend::push_effect;
use twe_program::{Decl, Prog};

/// When a task is no longer held.
pub(crate) fn held_rule() -> &'static [u8]
    ensures { result.now ≡ held_rule }
{
    b"a task is held until no enabled task that interferes with it is left, but for those that wait for it"
}

/// That a task waits for another.
fn wait_caption(alloc: Global, p: &Prog, st: &State, task: u32, other: u32) -> Result<Bytes, Memory>
    ensures { IfOk result (λ text. text ≡ wait_caption p.now st.now task other) }
{
    let mut text = Bytes::new(alloc);
    push_task(&mut text, p, st, task)?;
    text.push_all(b" waits here for ")?;
    push_task(&mut text, p, st, other)?;
    Ok(text)
}

/// Appends that a task waits for another, at the place where it stands.
pub(crate) fn push_wait_notes(
    notes: &mut List<Note>,
    alloc: Global,
    p: &Prog,
    st: &State,
    task: u32,
    other: u32,
) -> Result<(), Memory>
    ensures { OnOk result (notes.new ≡ notes.old ++ wait_notes p.now st.now task other) }
{
    let caption = wait_caption(alloc, p, st, task, other)?;
    push_note_if(notes, place_of(p, st, task), caption)
}

/// The place of the name of a declaration.
fn place_of_decl(decl: Option<&Decl>) -> Option<Place>
    ensures { result ≡ place_of_decl (option_copied decl.entry) }
{
    match decl {
        None => None,
        Some(decl) => Some(decl.place),
    }
}

/// The place of the declaration of a task.
fn declared_at(p: &Prog, st: &State, task: u32) -> Option<Place>
    ensures { result ≡ declared_at_row p.now (slice_get st.now.tasks task) }
{
    match st.tasks.get(task as usize) {
        None => None,
        Some(row) => place_of_decl(p.tasks.get(row.decl as usize)),
    }
}

/// The place where a task was made, or if it was made by none, that of its declaration.
fn place_if_made(p: &Prog, st: &State, task: u32, making: Option<TaskMaking>) -> Option<Place>
    ensures { result ≡ place_if_made p.now st.now task making }
{
    match making {
        None => declared_at(p, st, task),
        Some(making) => making.place,
    }
}

/// The place from which a task comes.
pub(crate) fn origin_of(p: &Prog, st: &State, makings: &[TaskMaking], task: u32) -> Option<Place>
    ensures { result ≡ origin_of p.now st.now makings.now task }
{
    place_if_made(p, st, task, making_of(makings, task))
}

/// Appends words and an effect between accents, if there is one.
fn push_effect_shown(
    text: &mut Bytes,
    p: &Prog,
    words: &[u8],
    effect: Option<&Effect>,
) -> Result<(), Memory>
    ensures { OnOk result (text.new ≡ text.old ++ effect_shown p.now words.now (option_copied effect.entry)) }
{
    let Some(effect) = effect else {
        return Ok(());
    };
    text.push_all(words)?;
    push_effect(text, p.regions.as_slice(), &[], effect)?;
    text.push(b'`')
}

/// The first of the effects that interferes with one, if that is there.
fn clashing_with<'a>(effects: &'a [Effect], effect: Option<&Effect>) -> Option<&'a Effect>
    ensures { option_copied result ≡ clashing_with effects.now (option_copied effect.entry) }
{
    match effect {
        None => None,
        Some(effect) => first_clashing(effects, slice::from_ref(effect)),
    }
}

/// The effect of a task for which another one holds it.
fn held_effect(st: &State, task: u32, holder: u32) -> Option<&Effect>
    ensures { option_copied result ≡ held_effect st.now task holder }
{
    first_clashing(effects_of_task(st, task), effects_of_task(st, holder))
}

/// The effect for which a task holds another.
fn holding_effect(st: &State, task: u32, holder: u32) -> Option<&Effect>
    ensures { option_copied result ≡ holding_effect st.now task holder }
{
    clashing_with(effects_of_task(st, holder), held_effect(st, task, holder))
}

/// That a task is held.
fn held_caption(
    alloc: Global,
    p: &Prog,
    st: &State,
    task: u32,
    holder: u32,
) -> Result<Bytes, Memory>
    ensures { IfOk result (λ text. text ≡ held_caption p.now st.now task holder) }
{
    let mut text = Bytes::new(alloc);
    push_task(&mut text, p, st, task)?;
    push_effect_shown(&mut text, p, b" needs `", held_effect(st, task, holder))?;
    text.push_all(b", and is held by ")?;
    push_task(&mut text, p, st, holder)?;
    Ok(text)
}

/// That a task holds another.
fn holder_caption(
    alloc: Global,
    p: &Prog,
    st: &State,
    task: u32,
    holder: u32,
) -> Result<Bytes, Memory>
    ensures { IfOk result (λ text. text ≡ holder_caption p.now st.now task holder) }
{
    let mut text = Bytes::new(alloc);
    push_task(&mut text, p, st, holder)?;
    text.push_all(b" comes from here")?;
    push_effect_shown(
        &mut text,
        p,
        b", and has `",
        holding_effect(st, task, holder),
    )?;
    Ok(text)
}

/// Appends that a task is held by another, at the places from which they come.
pub(crate) fn push_held_notes(
    notes: &mut List<Note>,
    alloc: Global,
    p: &Prog,
    st: &State,
    makings: &[TaskMaking],
    task: u32,
    holder: u32,
) -> Result<(), Memory>
    ensures { OnOk result (notes.new ≡ notes.old ++ held_notes p.now st.now makings.now task holder) }
{
    let held = held_caption(alloc, p, st, task, holder)?;
    push_note_if(notes, origin_of(p, st, makings, task), held)?;
    let holds = holder_caption(alloc, p, st, task, holder)?;
    push_note_if(notes, origin_of(p, st, makings, holder), holds)
}
