//! The hatched boxes of a picture: admissions that were held.
ghost use Rattle.std.specs.Prelude.{◌≡◌, ◌++◌, OnOk};
ghost use Rattle.std.specs.List.{flat_map};
ghost use Rattle.twe_draw.specs.Held.{held_box, held_placed, held_shown};

use crate::labels::held_title;
use crate::picture::{EntryBar, push_titled_box};
use crate::scale::{Axis, bar_begin, held_begin, row_top, time_column, time_width};
use crate::shown::row_at;
use held_span::Hold;
use machine_state::TaskRow;
use std::alloc::Global;
use twe_base::{Bytes, Memory};
use twe_program::Prog;

/// Appends the box of a hold, before the bar of its admission.
fn push_held_box(
    text: &mut Bytes,
    alloc: Global,
    p: &Prog,
    tasks: &[TaskRow],
    axis: Axis,
    hold: &Hold,
    bar: &EntryBar,
    row: u64,
) -> Result<(), Memory>
    ensures { OnOk result (text.new ≡ text.old ++ held_box p.now tasks.now axis hold.now bar.now row) }
{
    let title = held_title(alloc, p, tasks, hold)?;
    let (from, until) = (held_begin(axis.kind, bar, hold), bar_begin(axis.kind, bar));
    push_titled_box(
        text,
        alloc,
        b"held",
        time_column(axis.length, from),
        row_top(row),
        time_width(axis.length, from, until),
        title.as_slice(),
    )
}

/// Appends the box of a hold, if its task has a row.
fn push_held_placed(
    text: &mut Bytes,
    alloc: Global,
    p: &Prog,
    tasks: &[TaskRow],
    axis: Axis,
    hold: &Hold,
    bar: &EntryBar,
    row: Option<u64>,
) -> Result<(), Memory>
    ensures { OnOk result (text.new ≡ text.old ++ held_placed p.now tasks.now axis hold.now bar.now row) }
{
    match row {
        None => Ok(()),
        Some(row) => push_held_box(text, alloc, p, tasks, axis, hold, bar, row),
    }
}

/// Appends the box of a hold, if its task is shown.
fn push_held(
    text: &mut Bytes,
    alloc: Global,
    p: &Prog,
    tasks: &[TaskRow],
    bars: &[EntryBar],
    rows: &[Option<u64>],
    axis: Axis,
    hold: &Hold,
) -> Result<(), Memory>
    ensures { OnOk result (text.new ≡ text.old ++ held_shown p.now tasks.now bars.now rows.now axis hold.now) }
{
    match bars.get(hold.entry as usize) {
        None => Ok(()),
        Some(bar) => push_held_placed(
            text,
            alloc,
            p,
            tasks,
            axis,
            hold,
            bar,
            row_at(rows, hold.task),
        ),
    }
}

/// Appends the boxes of these holds.
pub(crate) fn push_holds(
    text: &mut Bytes,
    alloc: Global,
    p: &Prog,
    tasks: &[TaskRow],
    bars: &[EntryBar],
    rows: &[Option<u64>],
    axis: Axis,
    holds: &[Hold],
) -> Result<(), Memory>
    ensures { OnOk result (text.new ≡ text.old ++ flat_map (held_shown p.now tasks.now bars.now rows.now axis) holds.now) }
{
    for hold in holds {
        push_held(text, alloc, p, tasks, bars, rows, axis, hold)?;
    }
    Ok(())
}
