//! Copies of the rows of tasks, and whether two rows are alike.
ghost use Rattle.std.specs.Prelude.{◌≡◌, ◌↔◌, map, IfOk, IsTrue};
ghost use Rattle.machine_state.specs.Rows.{is_done_row};
ghost use Rattle.state_copies.specs.inner.Rows.{HaveOneStanding, RowListsMatch, RowsMatch, unreserved_row};

use crate::frames::{copy_frame, same_frame, same_ints};
use machine_state::{TaskRow, TaskStatus};
use std::alloc::Global;
use twe_base::{List, Memory};

/// The same rows in their own memory, with nothing reserved in their frames.
pub(crate) fn copy_rows(alloc: Global, rows: &[TaskRow]) -> Result<List<TaskRow>, Memory>
    ensures { IfOk result (λ copy. copy ≡ map unreserved_row rows.now) }
{
    let mut copy = List::with_capacity(alloc, rows.len())?;
    for row in rows {
        copy.push(copy_row(alloc, row)?)?;
    }
    Ok(copy)
}

/// The same row in its own memory, with nothing reserved in its frame.
fn copy_row(alloc: Global, row: &TaskRow) -> Result<TaskRow, Memory>
    ensures { IfOk result (λ copy. copy ≡ unreserved_row row.now) }
{
    Ok(TaskRow {
        decl: row.decl,
        args: row.args.copy(alloc)?,
        effects: row.effects.copy(alloc)?,
        frame: copy_frame(alloc, &row.frame)?,
        parent: row.parent,
        joined: row.joined,
        out: row.out.copy(alloc)?,
        status: row.status,
        value: row.value,
    })
}

/// Whether there are as many rows, and each matches the one at its place.
pub(crate) fn rows_match(a: &[TaskRow], b: &[TaskRow]) -> bool
    ensures { IsTrue result ↔ RowListsMatch a.now b.now }
{
    if a.len() != b.len() {
        return false;
    }
    for t in 0..a.len() {
        if !row_matches(&a[t], &b[t]) {
            return false;
        }
    }
    true
}

/// Whether two rows match: whether they have one standing and, unless their tasks are done, one frame.
fn row_matches(a: &TaskRow, b: &TaskRow) -> bool
    ensures { IsTrue result ↔ RowsMatch a.now b.now }
{
    if !have_one_standing(a, b) {
        return false;
    }
    if is_done(a) {
        return true;
    }
    same_frame(&a.frame, &b.frame)
}

/// Whether two rows are the same but for their frames and what follows from these or from their declarations.
fn have_one_standing(a: &TaskRow, b: &TaskRow) -> bool
    ensures { IsTrue result ↔ HaveOneStanding a.now b.now }
{
    a.decl == b.decl
        && a.parent == b.parent
        && a.joined == b.joined
        && a.status == b.status
        && a.value == b.value
        && same_ints(a.args.as_slice(), b.args.as_slice())
}

/// Whether the task of a row is done.
fn is_done(row: &TaskRow) -> bool
    ensures { result ≡ is_done_row row.now }
{
    matches!(row.status, TaskStatus::Done)
}
