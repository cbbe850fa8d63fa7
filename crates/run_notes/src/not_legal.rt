//! What is said of a move that is not legal.
ghost use Rattle.std.specs.Prelude.{◌≡◌, ◌++◌, ◌-◌, ◌≤◌, ◌<◌, IfOk, OnOk, Some, length, option_copied, slice_get, take};
ghost use Rattle.seg_journal.specs.declared.moves.Move.{Move as AnyMove};
ghost use Rattle.machine_state.specs.declared.why.Why.TheVariants.{NoTask};
ghost use Rattle.machine_state.specs.Replays.{IsFirstIllegal};
ghost use Rattle.machine_state.specs.Runs.{IsRun};
ghost use Rattle.run_facts.specs.Makings.{makings_of};
ghost use Rattle.run_notes.specs.NotLegal.{IllegalTold, forbidden_explanation, forbidden_headline, forbidden_notes, forbidden_remark, status_caption, status_notes, status_of_row, status_words};
ghost use Rattle.explain_pages.specs.RunPage.{run_text};

use crate::faulted::{one_remark, push_note_if};
use crate::task_texts::push_task;
use crate::waits::{held_rule, origin_of, push_held_notes, push_wait_notes};
use explain_pages::{Explanation, Note, Wanted, text_of_run};
use itoa::Buffer;
use machine_state::{ReplayFail, State, TaskRow, TaskStatus, Why};
use run_facts::{TaskMaking, makings_of};
use seg_journal::{Journal, Limits, Move};
use std::alloc::Global;
use twe_base::{Bytes, List, Memory};
use twe_machine::replay_journal;
use twe_program::Prog;

/// Why a move is not legal.
fn forbidden_headline(why: Why) -> &'static [u8]
    ensures { result.now ≡ forbidden_headline why }
{
    match why {
        Why::NoTask => b"there is no such task",
        Why::NotMade => b"the task does not wait for its admission",
        Why::HeldBy(_) => b"the task is held",
        Why::NotEnabled => b"the task is not enabled",
        Why::WaitsFor(_) => b"the task waits for another one",
    }
}

/// What there is to say of a task with this status.
fn status_words(status: TaskStatus) -> &'static [u8]
    ensures { result.now ≡ status_words status }
{
    match status {
        TaskStatus::Made => b" comes from here, and waits for its admission",
        TaskStatus::Enabled => b" comes from here, and is enabled already",
        TaskStatus::Done => b" comes from here, and is done",
        TaskStatus::Faulted => b" comes from here, and has met a fault",
    }
}

/// The same of a task that was looked up.
fn status_of_row(row: Option<&TaskRow>) -> &'static [u8]
    ensures { result.now ≡ status_of_row (option_copied row.entry) }
{
    match row {
        None => b"",
        Some(row) => status_words(row.status),
    }
}

/// What a task is about.
fn status_caption(alloc: Global, p: &Prog, st: &State, task: u32) -> Result<Bytes, Memory>
    ensures { IfOk result (λ text. text ≡ status_caption p.now st.now task) }
{
    let mut text = Bytes::new(alloc);
    push_task(&mut text, p, st, task)?;
    text.push_all(status_of_row(st.tasks.get(task as usize)))?;
    Ok(text)
}

/// Appends what a task is about, at the place from which it comes.
fn push_status_notes(
    notes: &mut List<Note>,
    alloc: Global,
    p: &Prog,
    st: &State,
    makings: &[TaskMaking],
    task: u32,
) -> Result<(), Memory>
    ensures { OnOk result (notes.new ≡ notes.old ++ status_notes p.now st.now makings.now task) }
{
    let caption = status_caption(alloc, p, st, task)?;
    push_note_if(notes, origin_of(p, st, makings, task), caption)
}

/// Appends the task of a move, and the task that is in its way.
fn push_forbidden_notes(
    notes: &mut List<Note>,
    alloc: Global,
    p: &Prog,
    st: &State,
    makings: &[TaskMaking],
    task: u32,
    why: Why,
) -> Result<(), Memory>
    ensures { OnOk result (notes.new ≡ notes.old ++ forbidden_notes p.now st.now makings.now task why) }
{
    match why {
        Why::NoTask => Ok(()),
        Why::NotMade => push_status_notes(notes, alloc, p, st, makings, task),
        Why::HeldBy(holder) => push_held_notes(notes, alloc, p, st, makings, task, holder),
        Why::NotEnabled => push_status_notes(notes, alloc, p, st, makings, task),
        Why::WaitsFor(other) => push_wait_notes(notes, alloc, p, st, task, other),
    }
}

/// How many tasks there are.
fn count_remark(alloc: Global, st: &State) -> Result<Bytes, Memory>
    ensures { IfOk result (λ text. text ≡ forbidden_remark st.now NoTask) }
{
    let mut text = Bytes::from_slice(
        alloc,
        b"tasks are numbered from 0 as they are made; so many there are before this move: ",
    )?;
    text.push_all(Buffer::new().format(st.tasks.len()).as_bytes())?;
    Ok(text)
}

/// What would have to be so.
fn forbidden_remark(alloc: Global, st: &State, why: Why) -> Result<Bytes, Memory>
    ensures { IfOk result (λ text. text ≡ forbidden_remark st.now why) }
{
    match why {
        Why::NoTask => count_remark(alloc, st),
        Why::NotMade => Bytes::from_slice(
            alloc,
            b"a task is admitted once; a spawned one is enabled as it is made",
        ),
        Why::HeldBy(_) => Bytes::from_slice(alloc, held_rule()),
        Why::NotEnabled => Bytes::from_slice(
            alloc,
            b"a task runs after its admission, and until it is done",
        ),
        Why::WaitsFor(_) => Bytes::from_slice(
            alloc,
            b"a task that waits goes on when the other one is done",
        ),
    }
}

/// The task of a move, and the task that is in its way.
fn forbidden_notes(
    alloc: Global,
    p: &Prog,
    st: &State,
    makings: &[TaskMaking],
    task: u32,
    why: Why,
) -> Result<List<Note>, Memory>
    ensures { IfOk result (λ notes. notes ≡ forbidden_notes p.now st.now makings.now task why) }
{
    let mut notes = List::new(alloc);
    push_forbidden_notes(&mut notes, alloc, p, st, makings, task, why)?;
    Ok(notes)
}

/// What is said of a move of this task that is not legal in a state.
fn forbidden_explanation(
    alloc: Global,
    p: &Prog,
    st: &State,
    makings: &[TaskMaking],
    task: u32,
    why: Why,
) -> Result<Explanation, Memory>
    ensures { IfOk result (λ e. e ≡ forbidden_explanation p.now st.now makings.now task why) }
{
    let remark = forbidden_remark(alloc, st, why)?;
    Ok(Explanation {
        headline: Bytes::from_slice(alloc, forbidden_headline(why))?,
        notes: forbidden_notes(alloc, p, st, makings, task, why)?,
        remarks: one_remark(alloc, remark)?,
    })
}

/// What is written of a move of this task that is not legal after a journal, which has led to this state.
fn forbidden_page(
    alloc: Global,
    wanted: &Wanted,
    text: &[u8],
    p: &Prog,
    lim: Limits,
    journal: &Journal,
    st: &State,
    task: u32,
    why: Why,
    answer: Bytes,
) -> Result<Bytes, Memory>
    requires { IsRun p.now lim journal.now st.now }
    ensures { IfOk result (λ page. page ≡ run_text wanted.now text.now answer
        (forbidden_explanation p.now st.now (makings_of p.now lim journal.now) task why)) }
{
    let makings = makings_of(alloc, p, lim, journal.as_slice())?;
    let said = forbidden_explanation(alloc, p, st, makings.as_slice(), task, why)?;
    let page = text_of_run(alloc, wanted, text, answer, &said)?;
    Ok(page)
}

/// The moves before move `n`, counted from 1.
fn moves_before(moves: &[Move], n: u64) -> &[Move]
    requires first { 0 < n }
    requires last { n ≤ length moves.now }
    ensures { result.now ≡ take (n - 1) moves.now }
{
    &moves[..(n - 1) as usize]
}

/// The task of move `n`, counted from 1.
fn task_of(moves: &[Move], n: u64) -> u32
    requires first { 0 < n }
    requires last { n ≤ length moves.now }
    ensures { (mv : AnyMove) → slice_get moves.now (n - 1) ≡ Some mv → result ≡ mv.task }
{
    moves[(n - 1) as usize].task
}

/// What is written of the first of the moves that is not legal.
pub(crate) fn illegal_page(
    alloc: Global,
    wanted: &Wanted,
    text: &[u8],
    p: &Prog,
    lim: Limits,
    moves: &[Move],
    n: u64,
    why: Why,
    answer: Bytes,
) -> Result<Bytes, Memory>
    requires first { 0 < n }
    requires last { n ≤ length moves.now }
    requires illegal { IsFirstIllegal p.now lim moves.now n why }
    ensures { IfOk result (IllegalTold wanted.now text.now p.now lim moves.now n why answer) }
{
    let _main = p.main;
    let task = task_of(moves, n);
    match replay_journal(alloc, p, lim, moves_before(moves, n)) {
        Ok((journal, st)) => {
            let page = forbidden_page(
                alloc, wanted, text, p, lim, &journal, &st, task, why, answer,
            )?;
            Ok(page)
        }
        Err(ReplayFail::Illegal { .. }) => unreachable!(),
        Err(ReplayFail::OutOfMemory(memory)) => Err(memory),
    }
}
