//! The heaviest chain as it is written for people.
ghost use Rattle.std.specs.Prelude.{◌≡◌, ◌++◌, OnOk, codes, decimal, slice_get};
ghost use Rattle.run_texts.specs.CellTexts.{cell_text};
ghost use Rattle.twe_advise.specs.Chains.{access_words, after_words, begin_of, chain_text, read_words, reason_words, step_line, step_lines, step_text, task_found, task_placed, write_words};

use crate::text::push_small_column;
use itoa::Buffer;
use machine_state::TaskRow;
use run_texts::{push_cell_path, push_decl_place, push_task_call};
use span_profile::{ChainStep, LinkReason};
use twe_base::{Bytes, Memory};
use twe_program::Prog;

/// Appends a word and the number of a task.
fn push_task_number(text: &mut Bytes, word: &[u8], task: u32) -> Result<(), Memory>
    ensures { OnOk result (text.new ≡ text.old ++ (word.now ++ decimal task)) }
{
    text.push_all(word)?;
    text.push_all(Buffer::new().format(task).as_bytes())
}

/// What the entry before did with a path.
fn access_words(wrote: bool) -> &'static [u8]
    ensures { result.now ≡ access_words wrote }
{
    if wrote { b" wrote it" } else { b" read it" }
}

/// Appends the task of the entry before, and what it did with a path.
fn push_after(text: &mut Bytes, before: u32, wrote: bool) -> Result<(), Memory>
    ensures { OnOk result (text.new ≡ text.old ++ after_words before wrote) }
{
    text.push_all(b" after ")?;
    text.push_all(Buffer::new().format(before).as_bytes())?;
    text.push_all(access_words(wrote))
}

/// Appends that an entry reads the path of a cell that the one before wrote.
fn push_read(text: &mut Bytes, p: &Prog, before: u32, cell: u32) -> Result<(), Memory>
    ensures { OnOk result (text.new ≡ text.old ++ read_words (cell_text p.now cell) before) }
{
    text.push_all(b", reads ")?;
    push_cell_path(text, p, cell)?;
    push_after(text, before, true)
}

/// Appends that an entry writes `Console`, which the one before accessed.
fn push_printed(text: &mut Bytes, before: u32, wrote: bool) -> Result<(), Memory>
    ensures { OnOk result (text.new ≡ text.old ++ write_words (codes "Console") before wrote) }
{
    text.push_all(b", writes ")?;
    text.push_all(b"Console")?;
    push_after(text, before, wrote)
}

/// Appends that an entry writes the path of a cell, which the one before accessed.
fn push_wrote(text: &mut Bytes, p: &Prog, before: u32, cell: u32, wrote: bool) -> Result<(), Memory>
    ensures { OnOk result (text.new ≡ text.old ++ write_words (cell_text p.now cell) before wrote) }
{
    text.push_all(b", writes ")?;
    push_cell_path(text, p, cell)?;
    push_after(text, before, wrote)
}

/// Appends why an entry comes after one of this task.
fn push_reason(text: &mut Bytes, p: &Prog, before: u32, reason: LinkReason) -> Result<(), Memory>
    ensures { OnOk result (text.new ≡ text.old ++ reason_words p.now before reason) }
{
    match reason {
        LinkReason::First => Ok(()),
        LinkReason::GoesOn => Ok(()),
        LinkReason::Made => push_task_number(text, b", made by ", before),
        LinkReason::Took => push_task_number(text, b", waited for ", before),
        LinkReason::Read { cell } => push_read(text, p, before, cell),
        LinkReason::Printed { wrote } => push_printed(text, before, wrote),
        LinkReason::Wrote { cell, wrote } => push_wrote(text, p, before, cell, wrote),
        LinkReason::Unlinked => Ok(()),
    }
}

/// Appends the number of a task, its name, its arguments and the place of its declaration.
fn push_task_placed(text: &mut Bytes, p: &Prog, row: &TaskRow) -> Result<(), Memory>
    ensures { OnOk result (text.new ≡ text.old ++ task_placed p.now row.now) }
{
    push_task_call(text, p, row)?;
    push_decl_place(text, p, row.decl)
}

/// Appends the same of the task of this number, if there is one.
fn push_task_found(text: &mut Bytes, p: &Prog, tasks: &[TaskRow], task: u32) -> Result<(), Memory>
    ensures { OnOk result (text.new ≡ text.old ++ task_found p.now (slice_get tasks.now task)) }
{
    match tasks.get(task as usize) {
        None => Ok(()),
        Some(row) => push_task_placed(text, p, row),
    }
}

/// When the entry of this number begins at the earliest, and 0 if there is no such entry.
pub(crate) fn begin_of(starts: &[u64], entry: u64) -> u64
    ensures { result ≡ begin_of starts.now entry }
{
    match starts.get(entry as usize) {
        None => 0,
        Some(time) => *time,
    }
}

/// Appends the line of an entry that comes after one of the task `before`.
fn push_step_line(
    text: &mut Bytes,
    p: &Prog,
    tasks: &[TaskRow],
    starts: &[u64],
    before: u32,
    step: ChainStep,
) -> Result<(), Memory>
    ensures { OnOk result (text.new ≡ text.old ++ step_line p.now tasks.now starts.now before step) }
{
    push_small_column(text, step.entry)?;
    push_small_column(text, begin_of(starts, step.entry))?;
    text.push_all(b"  ")?;
    push_task_found(text, p, tasks, step.task)?;
    push_reason(text, p, before, step.reason)?;
    text.push_all(b"\n")
}

/// Appends the line of an entry, unless it is of the task of the one before.
fn push_step(
    text: &mut Bytes,
    p: &Prog,
    tasks: &[TaskRow],
    starts: &[u64],
    before: u32,
    step: ChainStep,
) -> Result<(), Memory>
    ensures { OnOk result (text.new ≡ text.old ++ step_text p.now tasks.now starts.now before step step.reason) }
{
    match step.reason {
        LinkReason::GoesOn => Ok(()),
        _ => push_step_line(text, p, tasks, starts, before, step),
    }
}

/// Appends the lines of these entries.
fn push_steps(
    text: &mut Bytes,
    p: &Prog,
    tasks: &[TaskRow],
    starts: &[u64],
    steps: &[ChainStep],
) -> Result<(), Memory>
    ensures { OnOk result (text.new ≡ text.old ++ step_lines p.now tasks.now starts.now 0 steps.now) }
{
    let mut before = 0;
    for step in steps {
        push_step(text, p, tasks, starts, before, *step)?;
        before = step.task;
    }
    Ok(())
}

/// Appends the table of the chain.
pub(crate) fn push_chain_table(
    text: &mut Bytes,
    p: &Prog,
    tasks: &[TaskRow],
    starts: &[u64],
    steps: &[ChainStep],
) -> Result<(), Memory>
    ensures { OnOk result (text.new ≡ text.old ++ chain_text p.now tasks.now starts.now steps.now) }
{
    text.push_all(b"\n       entry      begins  heaviest chain\n")?;
    push_steps(text, p, tasks, starts, steps)
}
