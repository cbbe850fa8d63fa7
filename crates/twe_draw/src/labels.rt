//! What is written of tasks and of what they did.
ghost use Rattle.std.specs.Prelude.{◌≡◌, ◌++◌, IfOk, OnOk, slice_get};
ghost use Rattle.run_texts.specs.TaskLabels.{task_call};
ghost use Rattle.twe_draw.specs.Labels.{awaited_words, bar_title, label_found, wait_title, details_found, end_words, entry_words, held_title, held_words, holder_words, task_details};

use crate::numbers::{push_number, push_small};
use crate::picture::EntryBar;
use held_span::Hold;
use machine_state::TaskRow;
use run_texts::{push_decl_place, push_task_call};
use seg_journal::End;
use std::alloc::Global;
use twe_base::{Bytes, Memory};
use twe_frontend::push_effects;
use twe_program::Prog;

/// Appends a task with the place of its declaration and its effects.
fn push_details(text: &mut Bytes, p: &Prog, row: &TaskRow) -> Result<(), Memory>
    ensures { OnOk result (text.new ≡ text.old ++ task_details p.now row.now) }
{
    push_task_call(text, p, row)?;
    push_decl_place(text, p, row.decl)?;
    text.push_all(b", ")?;
    push_effects(
        text,
        p.regions.as_slice(),
        &[],
        row.effects.effects.as_slice(),
    )
}

/// Appends the same of the task of this number.
fn push_details_of(text: &mut Bytes, p: &Prog, tasks: &[TaskRow], task: u32) -> Result<(), Memory>
    ensures { OnOk result (text.new ≡ text.old ++ details_found p.now (slice_get tasks.now task)) }
{
    match tasks.get(task as usize) {
        None => Ok(()),
        Some(row) => push_details(text, p, row),
    }
}

/// Appends how an entry ended.
fn push_end(text: &mut Bytes, end: End) -> Result<(), Memory>
    ensures { OnOk result (text.new ≡ text.old ++ end_words end) }
{
    match end {
        End::Admitted => text.push_all(b": admitted"),
        End::Made { child } => push_small(text, b": makes ", child),
        End::Waits { on } => push_small(text, b": waits for ", on),
        End::Joins { on } => push_small(text, b": joins ", on),
        End::Done { .. } => text.push_all(b": is done"),
        End::Fault { .. } => text.push_all(b": meets a fault"),
    }
}

/// Appends the number of an entry, and when it begins and ends.
fn push_entry(text: &mut Bytes, bar: &EntryBar) -> Result<(), Memory>
    ensures { OnOk result (text.new ≡ text.old ++ entry_words bar.now) }
{
    push_number(text, b"entry ", bar.number)?;
    push_number(text, b", ", bar.begins)?;
    push_number(text, b" to ", bar.ends)?;
    text.push_all(b", ")
}

/// What a bar tells: its entry, its task, and how the entry ended.
pub(crate) fn bar_title(
    alloc: Global,
    p: &Prog,
    tasks: &[TaskRow],
    bar: &EntryBar,
) -> Result<Bytes, Memory>
    ensures { IfOk result (λ title. title ≡ bar_title p.now tasks.now bar.now) }
{
    let mut title = Bytes::new(alloc);
    push_entry(&mut title, bar)?;
    push_details_of(&mut title, p, tasks, bar.task)?;
    push_end(&mut title, bar.end)?;
    Ok(title)
}

/// Appends the label of the task of this number.
fn push_label_of(text: &mut Bytes, p: &Prog, tasks: &[TaskRow], task: u32) -> Result<(), Memory>
    ensures { OnOk result (text.new ≡ text.old ++ label_found p.now (slice_get tasks.now task)) }
{
    match tasks.get(task as usize) {
        None => Ok(()),
        Some(row) => push_task_call(text, p, row),
    }
}

/// Appends words, and the label of the task of this number.
fn push_label_after(
    text: &mut Bytes,
    words: &[u8],
    p: &Prog,
    tasks: &[TaskRow],
    task: u32,
) -> Result<(), Memory>
    ensures { OnOk result (text.new ≡ text.old ++ (words.now ++ label_found p.now (slice_get tasks.now task))) }
{
    text.push_all(words)?;
    push_label_of(text, p, tasks, task)
}

/// Appends whom a task waits for that has ended an entry so.
fn push_awaited(text: &mut Bytes, p: &Prog, tasks: &[TaskRow], end: End) -> Result<(), Memory>
    ensures { OnOk result (text.new ≡ text.old ++ awaited_words p.now tasks.now end) }
{
    match end {
        End::Waits { on } => push_label_after(text, b": waits for ", p, tasks, on),
        End::Joins { on } => push_label_after(text, b": joins ", p, tasks, on),
        _ => Ok(()),
    }
}

/// What a grey box tells after this bar: its task, and whom that waits for.
pub(crate) fn wait_title(
    alloc: Global,
    p: &Prog,
    tasks: &[TaskRow],
    bar: &EntryBar,
) -> Result<Bytes, Memory>
    ensures { IfOk result (λ title. title ≡ wait_title p.now tasks.now bar.now) }
{
    let mut title = Bytes::new(alloc);
    push_label_of(&mut title, p, tasks, bar.task)?;
    push_awaited(&mut title, p, tasks, bar.end)?;
    Ok(title)
}

/// Appends who held a task.
#[tactic(auto, unfolding(crate::specs::Labels::holder_words))]
fn push_holder(text: &mut Bytes, p: &Prog, tasks: &[TaskRow], holder: u32) -> Result<(), Memory>
    ensures { OnOk result (text.new ≡ text.old ++ holder_words p.now tasks.now holder) }
{
    push_label_after(text, b": is held by ", p, tasks, holder)
}

/// Appends who held a task, and what freed it.
fn push_held_words(text: &mut Bytes, p: &Prog, tasks: &[TaskRow], hold: &Hold) -> Result<(), Memory>
    ensures { OnOk result (text.new ≡ text.old ++ held_words p.now tasks.now hold.now) }
{
    push_holder(text, p, tasks, hold.holder)?;
    push_number(text, b", until entry ", hold.freed_by)
}

/// What a hatched box tells: the task that was held, by whom, and what freed it.
pub(crate) fn held_title(
    alloc: Global,
    p: &Prog,
    tasks: &[TaskRow],
    hold: &Hold,
) -> Result<Bytes, Memory>
    ensures { IfOk result (λ title. title ≡ held_title p.now tasks.now hold.now) }
{
    let mut title = Bytes::new(alloc);
    push_label_of(&mut title, p, tasks, hold.task)?;
    push_held_words(&mut title, p, tasks, hold)?;
    Ok(title)
}
