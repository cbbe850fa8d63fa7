//! The result of a run.
ghost use Rattle.std.specs.Prelude.{◌≡◌, ◌++◌, ◌+◌, ◌*◌, ◌^◌, ◌<◌, ◌-◌, IfOk, OnOk};
ghost use Rattle.std.specs.List.{flat_map};
ghost use Rattle.twe_report.specs.Texts.{prints_text, printed_line, value_text, more_values, row_text, more_rows, grid_text, values_text, cell_line};
ghost use Rattle.twe_report.specs.Texts as texts;

use itoa::Buffer;
use machine_state::State;
use std::alloc::Global;
use twe_base::{Bytes, Memory};
use twe_program::{CellDecl, Dims, Prog};

/// The result of a run: the printed numbers, the cells in the order of their declaration, and the number of tasks that
/// were made.
pub fn result_text(alloc: Global, p: &Prog, st: &State) -> Result<Bytes, Memory>
    ensures { IfOk result (λ text. text ≡ texts.result_text p.now st.now) }
{
    let mut text = Bytes::new(alloc);
    push_prints(&mut text, st.prints.as_slice())?;
    push_cells(&mut text, p.cells.as_slice(), st.cells.as_slice())?;
    text.push_all(b"tasks ")?;
    text.push_all(Buffer::new().format(st.tasks.len()).as_bytes())?;
    text.push(b'\n')?;
    Ok(text)
}

/// The printed numbers, each on a line of its own.
pub fn prints_text(alloc: Global, prints: &[i32]) -> Result<Bytes, Memory>
    ensures { IfOk result (λ text. text ≡ texts.prints_text prints.now) }
{
    let mut text = Bytes::new(alloc);
    push_prints(&mut text, prints)?;
    Ok(text)
}

/// Appends each printed number, on a line of its own.
fn push_prints(text: &mut Bytes, prints: &[i32]) -> Result<(), Memory>
    ensures { OnOk result (text.new ≡ text.old ++ prints_text prints.now) }
{
    for number in prints {
        push_print(text, *number)?;
    }
    Ok(())
}

/// Appends a number, on a line of its own.
fn push_print(text: &mut Bytes, number: i32) -> Result<(), Memory>
    ensures { OnOk result (text.new ≡ text.old ++ printed_line number) }
{
    text.push_all(Buffer::new().format(number).as_bytes())?;
    text.push(b'\n')?;
    Ok(())
}

/// Appends a line for each declaration of cells, as `x = 42`.
fn push_cells(text: &mut Bytes, cells: &[CellDecl], values: &[i32]) -> Result<(), Memory>
    ensures { OnOk result (text.new ≡ text.old ++ flat_map (cell_line values.now) cells.now) }
{
    for cell in cells {
        push_cell(text, cell, values)?;
    }
    Ok(())
}

/// Appends the line of a declaration of cells.
fn push_cell(text: &mut Bytes, cell: &CellDecl, values: &[i32]) -> Result<(), Memory>
    ensures { OnOk result (text.new ≡ text.old ++ cell_line values.now cell.now) }
{
    text.push_all(cell.name.as_bytes())?;
    text.push_all(b" = ")?;
    push_values(text, values, u64::from(cell.first), cell.dims)?;
    text.push(b'\n')
}

/// Appends the values of a declaration whose first cell has this number.
fn push_values(text: &mut Bytes, values: &[i32], cell: u64, dims: Dims) -> Result<(), Memory>
    requires { cell < 2 ^ 32 }
    ensures { OnOk result (text.new ≡ text.old ++ values_text values.now cell dims) }
{
    match dims {
        Dims::Scalar => push_value(text, values, cell),
        Dims::Row(count) => push_row(text, values, cell, u64::from(count)),
        Dims::Grid { rows, cols } => {
            push_grid(text, values, cell, u64::from(rows), u64::from(cols))
        }
    }
}

/// Appends the value of the cell of this number, and nothing if no cell has the number.
pub(crate) fn push_value(text: &mut Bytes, values: &[i32], cell: u64) -> Result<(), Memory>
    ensures { OnOk result (text.new ≡ text.old ++ value_text values.now cell) }
{
    if let Some(value) = values.get(cell as usize) {
        text.push_all(Buffer::new().format(*value).as_bytes())?;
    }
    Ok(())
}

/// Appends `count` values from the cell of this number on, as `[1, 0, 0]`.
fn push_row(text: &mut Bytes, values: &[i32], cell: u64, count: u64) -> Result<(), Memory>
    requires { cell + count < 2 ^ 64 }
    ensures { OnOk result (text.new ≡ text.old ++ row_text values.now cell count) }
{
    if count == 0 {
        return text.push_all(b"[]");
    }
    text.push(b'[')?;
    push_value(text, values, cell)?;
    push_more_values(text, values, cell + 1, count - 1)?;
    text.push(b']')
}

/// Appends `count` values from the cell of this number on, each after `, `.
fn push_more_values(text: &mut Bytes, values: &[i32], cell: u64, count: u64) -> Result<(), Memory>
    requires { cell + count < 2 ^ 64 }
    ensures { OnOk result (text.new ≡ text.old ++ more_values values.now cell count) }
{
    for at in cell..cell + count {
        text.push_all(b", ")?;
        push_value(text, values, at)?;
    }
    Ok(())
}

/// Appends `rows` rows of `columns` values from the cell of this number on, as `[[0, 0], [1, 10]]`.
fn push_grid(
    text: &mut Bytes,
    values: &[i32],
    cell: u64,
    rows: u64,
    columns: u64,
) -> Result<(), Memory>
    requires small { cell < 2 ^ 32 }
    requires few_rows { rows < 2 ^ 32 }
    requires few_columns { columns < 2 ^ 32 }
    ensures { OnOk result (text.new ≡ text.old ++ grid_text values.now cell rows columns) }
{
    if rows == 0 {
        return text.push_all(b"[]");
    }
    text.push(b'[')?;
    push_row(text, values, cell, columns)?;
    push_more_rows(text, values, cell + columns, rows - 1, columns)?;
    text.push(b']')
}

/// Appends `rows` rows of `columns` values from the cell of this number on, each row after `, `.
fn push_more_rows(
    text: &mut Bytes,
    values: &[i32],
    cell: u64,
    rows: u64,
    columns: u64,
) -> Result<(), Memory>
    requires small { cell < 2 ^ 33 }
    requires few_rows { rows < 2 ^ 32 - 1 }
    requires few_columns { columns < 2 ^ 32 }
    ensures { OnOk result (text.new ≡ text.old ++ more_rows values.now cell rows columns) }
{
    let mut at = cell;
    for _ in 0..rows {
        text.push_all(b", ")?;
        push_row(text, values, at, columns)?;
        at += columns;
    }
    Ok(())
}
