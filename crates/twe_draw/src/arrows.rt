//! The arrows of a picture.
ghost use Rattle.std.specs.Prelude.{◌≡◌, ◌++◌, OnOk, Some, option_and_then, slice_get};
ghost use Rattle.std.specs.List.{flat_map};
ghost use Rattle.twe_draw.specs.Arrows.{arrow, arrows_placed, arrows_shown, made_arrow, made_placed, taken_arrow, taken_placed};

use crate::picture::{EntryBar, push_upright};
use crate::scale::{Axis, bar_begin, bar_end, row_bottom, row_top, time_column};
use crate::shown::row_at;
use seg_journal::End;
use std::alloc::Global;
use twe_base::{Bytes, Memory};

/// Appends an arrow of this class at this place, from one row to another.
fn push_arrow(
    text: &mut Bytes,
    alloc: Global,
    class: &[u8],
    left: u128,
    from: u64,
    to: u64,
) -> Result<(), Memory>
    ensures { OnOk result (text.new ≡ text.old ++ arrow class.now left from to) }
{
    if from < to {
        push_upright(text, alloc, class, left, row_bottom(from), row_top(to))
    } else {
        push_upright(text, alloc, class, left, row_top(from), row_bottom(to))
    }
}

/// Appends the arrow to the row of a task that was made, if it has one.
fn push_made_placed(
    text: &mut Bytes,
    alloc: Global,
    axis: Axis,
    bar: &EntryBar,
    row: u64,
    child: Option<u64>,
) -> Result<(), Memory>
    ensures { OnOk result (text.new ≡ text.old ++ made_placed axis bar.now row child) }
{
    match child {
        None => Ok(()),
        Some(child) => {
            let left = time_column(axis.length, bar_end(axis.kind, bar));
            push_arrow(text, alloc, b"makes", left, row, child)
        }
    }
}

/// Appends the arrow to a task that was made, if it has a row.
fn push_made(
    text: &mut Bytes,
    alloc: Global,
    rows: &[Option<u64>],
    axis: Axis,
    bar: &EntryBar,
    row: u64,
) -> Result<(), Memory>
    ensures { OnOk result (text.new ≡ text.old ++ made_arrow rows.now axis bar.now row bar.now.end) }
{
    match bar.end {
        End::Made { child } => {
            push_made_placed(text, alloc, axis, bar, row, row_at(rows, child))
        }
        _ => Ok(()),
    }
}

/// Appends the arrow from the row of a task whose value was taken, if it has one.
fn push_taken_placed(
    text: &mut Bytes,
    alloc: Global,
    axis: Axis,
    bar: &EntryBar,
    giver: Option<u64>,
    row: u64,
) -> Result<(), Memory>
    ensures { OnOk result (text.new ≡ text.old ++ taken_placed axis bar.now row giver) }
{
    match giver {
        None => Ok(()),
        Some(giver) => {
            let left = time_column(axis.length, bar_begin(axis.kind, bar));
            push_arrow(text, alloc, b"gives", left, giver, row)
        }
    }
}

/// Appends the arrow from the task whose value was taken, if one was.
fn push_taken(
    text: &mut Bytes,
    alloc: Global,
    bars: &[EntryBar],
    rows: &[Option<u64>],
    axis: Axis,
    bar: &EntryBar,
    row: u64,
) -> Result<(), Memory>
    ensures { OnOk result (text.new ≡ text.old
        ++ taken_arrow rows.now axis bar.now row (option_and_then (slice_get bars.now) bar.now.giver)) }
{
    match bar.giver {
        None => Ok(()),
        Some(number) => match bars.get(number as usize) {
            None => Ok(()),
            Some(giver) => {
                push_taken_placed(text, alloc, axis, bar, row_at(rows, giver.task), row)
            }
        },
    }
}

/// Appends the arrows of an entry in this row, if its task has one.
fn push_arrows_placed(
    text: &mut Bytes,
    alloc: Global,
    bars: &[EntryBar],
    rows: &[Option<u64>],
    axis: Axis,
    bar: &EntryBar,
    row: Option<u64>,
) -> Result<(), Memory>
    ensures { OnOk result (text.new ≡ text.old ++ arrows_placed bars.now rows.now axis bar.now row) }
{
    match row {
        None => Ok(()),
        Some(row) => {
            push_made(text, alloc, rows, axis, bar, row)?;
            push_taken(text, alloc, bars, rows, axis, bar, row)
        }
    }
}

/// Appends the arrows of an entry, if its bar is shown.
fn push_arrows_shown(
    text: &mut Bytes,
    alloc: Global,
    bars: &[EntryBar],
    rows: &[Option<u64>],
    axis: Axis,
    bar: &EntryBar,
) -> Result<(), Memory>
    ensures { OnOk result (text.new ≡ text.old ++ arrows_shown bars.now rows.now axis bar.now) }
{
    push_arrows_placed(text, alloc, bars, rows, axis, bar, row_at(rows, bar.task))
}

/// Appends the arrows.
pub(crate) fn push_arrows(
    text: &mut Bytes,
    alloc: Global,
    bars: &[EntryBar],
    rows: &[Option<u64>],
    axis: Axis,
) -> Result<(), Memory>
    ensures { OnOk result (text.new ≡ text.old ++ flat_map (arrows_shown bars.now rows.now axis) bars.now) }
{
    for bar in bars {
        push_arrows_shown(text, alloc, bars, rows, axis, bar)?;
    }
    Ok(())
}
