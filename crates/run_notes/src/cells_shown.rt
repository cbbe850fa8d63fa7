//! What the cells held at a fault.
ghost use Rattle.std.specs.Prelude.{◌≡◌, ◌++◌, ◌∷◌, [], drop, take, IfOk, OnOk, length, map};
ghost use Rattle.run_notes.specs.CellsShown.{cell_shown, cells_shown, cells_left_out, cells_left_out_text, listed_values, most_cells, snapshot_cells_shown, values_of};

use itoa::Buffer;
use run_texts::push_listed_args;
use seg_exec::FaultSnapshot;
use std::alloc::Global;
use twe_base::{Bytes, List, Memory};
use twe_program::CellDecl;

/// How many values of a declaration are shown at most.
const MOST_VALUES: usize = 16;

/// Of how many declarations the values are shown at most.
const MOST_CELLS: usize = 8;

/// The first so many values.
fn first_values(values: &[i32], count: usize) -> &[i32]
    ensures { result.now ≡ take count values.now }
{
    if count < values.len() {
        &values[..count]
    } else {
        values
    }
}

/// What stands after the first so many values.
fn after_values(values: &[i32], count: usize) -> &[i32]
    ensures { result.now ≡ drop count values.now }
{
    if count < values.len() {
        &values[count..]
    } else {
        &[]
    }
}

/// The values of a declaration.
fn values_of<'a>(values: &'a [i32], cell: &CellDecl) -> &'a [i32]
    ensures { result.now ≡ values_of values.now cell.now }
{
    let rest = after_values(values, cell.first as usize);
    first_values(rest, cell.dims.size() as usize)
}

/// Appends the first of the values, and `..` if there are more.
fn push_values(text: &mut Bytes, values: &[i32]) -> Result<(), Memory>
    ensures { OnOk result (text.new ≡ text.old ++ listed_values values.now) }
{
    push_listed_args(text, first_values(values, MOST_VALUES))?;
    if MOST_VALUES < values.len() {
        text.push_all(b", ..")?;
    }
    Ok(())
}

/// What the cells of a declaration hold, as `at the end d is 0, 1, 2, 3`.
fn cell_shown(alloc: Global, values: &[i32], cell: &CellDecl) -> Result<Bytes, Memory>
    ensures { IfOk result (λ text. text ≡ cell_shown values.now cell.now) }
{
    let mut text = Bytes::from_slice(alloc, b"at the fault `")?;
    text.push_all(cell.name.as_bytes())?;
    text.push_all(b"` is ")?;
    push_values(&mut text, values_of(values, cell))?;
    Ok(text)
}

/// How many declarations are left out.
fn cells_left_out_text(alloc: Global, number: usize) -> Result<Bytes, Memory>
    ensures { IfOk result (λ text. text ≡ cells_left_out_text number) }
{
    let mut text = Bytes::from_slice(alloc, b"declarations of cells that are left out here: ")?;
    text.push_all(Buffer::new().format(number).as_bytes())?;
    Ok(text)
}

/// Adds how many of so many declarations are left out, if some are.
fn push_cells_left_out(remarks: &mut List<Bytes>, alloc: Global, count: usize) -> Result<(), Memory>
    ensures { OnOk result (remarks.new ≡ remarks.old ++ cells_left_out count) }
{
    if MOST_CELLS < count {
        remarks.push(cells_left_out_text(alloc, count - MOST_CELLS)?)?;
    }
    Ok(())
}

/// The first declarations, of which the values are shown.
fn first_cells(cells: &[CellDecl]) -> &[CellDecl]
    ensures { result.now ≡ take most_cells cells.now }
{
    if MOST_CELLS < cells.len() {
        &cells[..MOST_CELLS]
    } else {
        cells
    }
}

/// Adds what the cells of each of these declarations held.
fn push_each_cell(
    remarks: &mut List<Bytes>,
    alloc: Global,
    values: &[i32],
    cells: &[CellDecl],
) -> Result<(), Memory>
    ensures { OnOk result (remarks.new ≡ remarks.old ++ map (cell_shown values.now) cells.now) }
{
    for cell in cells {
        remarks.push(cell_shown(alloc, values, cell)?)?;
    }
    Ok(())
}

/// Adds what the cells held, declaration by declaration.
fn push_cells_shown(
    remarks: &mut List<Bytes>,
    alloc: Global,
    values: &[i32],
    cells: &[CellDecl],
) -> Result<(), Memory>
    ensures { OnOk result (remarks.new ≡ remarks.old ++ cells_shown values.now cells.now) }
{
    push_each_cell(remarks, alloc, values, first_cells(cells))?;
    push_cells_left_out(remarks, alloc, cells.len())
}

/// Adds what the cells held in a snapshot, if there is one.
pub(crate) fn push_snapshot_cells_shown(
    remarks: &mut List<Bytes>,
    alloc: Global,
    snapshot: &Option<FaultSnapshot>,
    cells: &[CellDecl],
) -> Result<(), Memory>
    ensures { OnOk result (remarks.new ≡ remarks.old ++ snapshot_cells_shown snapshot.now cells.now) }
{
    match snapshot {
        None => Ok(()),
        Some(snapshot) => push_cells_shown(remarks, alloc, snapshot.cells.as_slice(), cells),
    }
}
