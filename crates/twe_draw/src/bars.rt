//! The rows and the bars of a picture.
ghost use Rattle.std.specs.Prelude.{◌≡◌, ◌++◌, IfOk, OnOk, Some, option_and_then, slice_get};
ghost use Rattle.std.specs.List.{flat_map};
ghost use Rattle.run_texts.specs.TaskLabels.{task_call};
ghost use Rattle.twe_draw.specs.Bars.{bar_placed, bar_shape, bar_shown, class_of, is_deterministic_row, is_waiting, outline, outline_placed, row_placed, row_shape, row_shown, wait_shape, wait_since};

use crate::labels::{bar_title, wait_title};
use crate::picture::{EntryBar, push_plain_box, push_row_line, push_titled_box, push_words_at};
use crate::scale::{Axis, bar_begin, bar_end, row_bottom, row_top, time_column, time_width};
use crate::shown::row_at;
use machine_state::TaskRow;
use run_texts::push_task_call;
use seg_journal::{End, Kind};
use std::alloc::Global;
use twe_base::{Bytes, Memory};
use twe_program::Prog;

/// The label of a task.
fn task_label(alloc: Global, p: &Prog, task: &TaskRow) -> Result<Bytes, Memory>
    ensures { IfOk result (λ label. label ≡ task_call p.now task.now) }
{
    let mut label = Bytes::new(alloc);
    push_task_call(&mut label, p, task)?;
    Ok(label)
}

/// Appends a row.
fn push_row(
    text: &mut Bytes,
    alloc: Global,
    p: &Prog,
    task: &TaskRow,
    row: u64,
) -> Result<(), Memory>
    ensures { OnOk result (text.new ≡ text.old ++ row_shape p.now task.now row) }
{
    let label = task_label(alloc, p, task)?;
    let bottom = row_bottom(row);
    push_words_at(text, 6, bottom, label.as_slice())?;
    push_row_line(text, alloc, bottom)
}

/// Appends the row of a task, if it has one.
fn push_row_placed(
    text: &mut Bytes,
    alloc: Global,
    p: &Prog,
    task: &TaskRow,
    row: Option<u64>,
) -> Result<(), Memory>
    ensures { OnOk result (text.new ≡ text.old ++ row_placed p.now task.now row) }
{
    match row {
        None => Ok(()),
        Some(row) => push_row(text, alloc, p, task, row),
    }
}

/// Appends the row of a task, if the task is shown.
fn push_row_shown(
    text: &mut Bytes,
    alloc: Global,
    p: &Prog,
    rows: &[Option<u64>],
    task: &TaskRow,
) -> Result<(), Memory>
    ensures { OnOk result (text.new ≡ text.old ++ row_shown p.now rows.now task.now) }
{
    push_row_placed(text, alloc, p, task, row_at(rows, task.frame.task))
}

/// Appends the rows of the tasks that are shown.
pub(crate) fn push_rows(
    text: &mut Bytes,
    alloc: Global,
    p: &Prog,
    rows: &[Option<u64>],
    tasks: &[TaskRow],
) -> Result<(), Memory>
    ensures { OnOk result (text.new ≡ text.old ++ flat_map (row_shown p.now rows.now) tasks.now) }
{
    for row in tasks {
        push_row_shown(text, alloc, p, rows, row)?;
    }
    Ok(())
}

/// Whether the task of this number is deterministic.
fn is_deterministic(p: &Prog, tasks: &[TaskRow], task: u32) -> bool
    ensures { result ≡ is_deterministic_row p.now (slice_get tasks.now task) }
{
    match tasks.get(task as usize) {
        None => false,
        Some(row) => match p.tasks.get(row.decl as usize) {
            None => false,
            Some(decl) => decl.deterministic,
        },
    }
}

/// The class of a bar.
pub(crate) fn class_of<'a>(p: &Prog, tasks: &[TaskRow], bar: &EntryBar) -> &'a str
    ensures { result.now ≡ class_of p.now (slice_get tasks.now bar.now.task) bar.now.kind }
{
    match bar.kind {
        Kind::Admit => "admission",
        Kind::Run => {
            if is_deterministic(p, tasks, bar.task) {
                "deterministic"
            } else {
                "segment"
            }
        }
    }
}

/// Appends the bar of an entry.
fn push_bar(
    text: &mut Bytes,
    alloc: Global,
    p: &Prog,
    tasks: &[TaskRow],
    axis: Axis,
    bar: &EntryBar,
    row: u64,
) -> Result<(), Memory>
    ensures { OnOk result (text.new ≡ text.old ++ bar_shape p.now tasks.now axis bar.now row) }
{
    let title = bar_title(alloc, p, tasks, bar)?;
    let (from, until) = (bar_begin(axis.kind, bar), bar_end(axis.kind, bar));
    push_titled_box(
        text,
        alloc,
        class_of(p, tasks, bar).as_bytes(),
        time_column(axis.length, from),
        row_top(row),
        time_width(axis.length, from, until),
        title.as_slice(),
    )
}

/// Whether a task that has ended a segment so waits.
fn is_waiting(end: End) -> bool
    ensures { result ≡ is_waiting end }
{
    matches!(end, End::Waits { .. } | End::Joins { .. })
}

/// Appends the grey box of a task that has waited since the entry before, if it has.
fn push_wait_since(
    text: &mut Bytes,
    alloc: Global,
    p: &Prog,
    tasks: &[TaskRow],
    axis: Axis,
    bar: &EntryBar,
    row: u64,
    before: &EntryBar,
) -> Result<(), Memory>
    ensures { OnOk result (text.new ≡ text.old ++ wait_since p.now tasks.now axis bar.now row (Some before.now)) }
{
    if before.task == bar.task && is_waiting(before.end) {
        let title = wait_title(alloc, p, tasks, before)?;
        let (from, until) = (bar_end(axis.kind, before), bar_begin(axis.kind, bar));
        push_titled_box(
            text,
            alloc,
            b"waits",
            time_column(axis.length, from),
            row_top(row),
            time_width(axis.length, from, until),
            title.as_slice(),
        )
    } else {
        Ok(())
    }
}

/// Appends the grey box before the bar of an entry, if its task has waited.
fn push_wait(
    text: &mut Bytes,
    alloc: Global,
    p: &Prog,
    tasks: &[TaskRow],
    bars: &[EntryBar],
    axis: Axis,
    bar: &EntryBar,
    row: u64,
) -> Result<(), Memory>
    ensures { OnOk result (text.new ≡ text.old ++ wait_shape p.now tasks.now bars.now axis bar.now row) }
{
    match bar.previous {
        None => Ok(()),
        Some(number) => match bars.get(number as usize) {
            None => Ok(()),
            Some(before) => push_wait_since(text, alloc, p, tasks, axis, bar, row, before),
        },
    }
}

/// Appends what an entry has in its row, if its task has one.
fn push_bar_placed(
    text: &mut Bytes,
    alloc: Global,
    p: &Prog,
    tasks: &[TaskRow],
    bars: &[EntryBar],
    axis: Axis,
    bar: &EntryBar,
    row: Option<u64>,
) -> Result<(), Memory>
    ensures { OnOk result (text.new ≡ text.old ++ bar_placed p.now tasks.now bars.now axis bar.now row) }
{
    match row {
        None => Ok(()),
        Some(row) => {
            push_wait(text, alloc, p, tasks, bars, axis, bar, row)?;
            push_bar(text, alloc, p, tasks, axis, bar, row)
        }
    }
}

/// Appends the bar of an entry, if its task is shown.
fn push_bar_shown(
    text: &mut Bytes,
    alloc: Global,
    p: &Prog,
    tasks: &[TaskRow],
    bars: &[EntryBar],
    rows: &[Option<u64>],
    axis: Axis,
    bar: &EntryBar,
) -> Result<(), Memory>
    ensures { OnOk result (text.new ≡ text.old ++ bar_shown p.now tasks.now bars.now rows.now axis bar.now) }
{
    push_bar_placed(
        text,
        alloc,
        p,
        tasks,
        bars,
        axis,
        bar,
        row_at(rows, bar.task),
    )
}

/// Appends the bars.
pub(crate) fn push_bars(
    text: &mut Bytes,
    alloc: Global,
    p: &Prog,
    tasks: &[TaskRow],
    bars: &[EntryBar],
    rows: &[Option<u64>],
    axis: Axis,
) -> Result<(), Memory>
    ensures { OnOk result (text.new ≡ text.old ++ flat_map (bar_shown p.now tasks.now bars.now rows.now axis) bars.now) }
{
    for bar in bars {
        push_bar_shown(text, alloc, p, tasks, bars, rows, axis, bar)?;
    }
    Ok(())
}

/// Appends the outline of a bar, if its task has a row.
fn push_outline_placed(
    text: &mut Bytes,
    axis: Axis,
    bar: &EntryBar,
    row: Option<u64>,
) -> Result<(), Memory>
    ensures { OnOk result (text.new ≡ text.old ++ outline_placed axis bar.now row) }
{
    match row {
        None => Ok(()),
        Some(row) => {
            let (from, until) = (bar_begin(axis.kind, bar), bar_end(axis.kind, bar));
            push_plain_box(
                text,
                b"chain",
                time_column(axis.length, from),
                row_top(row),
                time_width(axis.length, from, until),
            )
        }
    }
}

/// Appends the outline of the bar of the entry of this number.
fn push_outline(
    text: &mut Bytes,
    bars: &[EntryBar],
    rows: &[Option<u64>],
    axis: Axis,
    number: u64,
) -> Result<(), Memory>
    ensures { OnOk result (text.new ≡ text.old ++ outline bars.now rows.now axis number) }
{
    match bars.get(number as usize) {
        None => Ok(()),
        Some(bar) => push_outline_placed(text, axis, bar, row_at(rows, bar.task)),
    }
}

/// Appends the outlines of the bars of these entries.
pub(crate) fn push_outlines(
    text: &mut Bytes,
    bars: &[EntryBar],
    rows: &[Option<u64>],
    axis: Axis,
    chain: &[u64],
) -> Result<(), Memory>
    ensures { OnOk result (text.new ≡ text.old ++ flat_map (outline bars.now rows.now axis) chain.now) }
{
    for number in chain {
        push_outline(text, bars, rows, axis, *number)?;
    }
    Ok(())
}
