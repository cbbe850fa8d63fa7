//! The numbers of the cells that names with indexes denote.
ghost use Rattle.std.specs.Prelude.{◌≡◌, ◌<◌, ◌≤◌, ◌+◌, IfSome};
ghost use Rattle.seg_meaning.specs.Cells.{cell_number, element_number, grid_element_number, in_grid, in_row, index_below};
ghost use Rattle.twe_program.specs.Program.{size_of};

use twe_program::{Dims, Prog};

/// The number of the first cell of a declaration; 0 if there is no such declaration.
pub(crate) fn cell_number(p: &Prog, cell: u32) -> u32
    ensures { result ≡ cell_number p.now cell }
{
    match p.cells.get(cell as usize) {
        None => 0,
        Some(decl) => decl.first,
    }
}

/// Returns the index if it is at least 0 and below its bound.
fn index_below(bound: u32, index: i32) -> Option<u32>
    ensures place { result ≡ index_below bound index }
    ensures within { IfSome result (λ place. place < bound) }
{
    if index < 0 {
        return None;
    }
    let place = index as u32;
    if place < bound { Some(place) } else { None }
}

/// The place of an element in an array, if the index is within its bound.
fn in_row(dims: Dims, index: i32) -> Option<u64>
    ensures place { result ≡ in_row dims index }
    ensures within { IfSome result (λ place. place < size_of dims) }
{
    match dims {
        Dims::Row(count) => index_below(count, index).map(u64::from),
        Dims::Scalar => None,
        Dims::Grid { .. } => None,
    }
}

/// The place of an element in a grid, if both indexes are within their bounds.
fn in_grid(dims: Dims, row: i32, column: i32) -> Option<u64>
    ensures place { result ≡ in_grid dims row column }
    ensures within { IfSome result (λ place. place < size_of dims) }
{
    let Dims::Grid { rows, cols } = dims else {
        return None;
    };
    match (index_below(rows, row), index_below(cols, column)) {
        (Some(row), Some(column)) => { Some(u64::from(row) * u64::from(cols) + u64::from(column)) }
        _ => None,
    }
}

/// The number of an element of an array, if the index is within its bound.
pub(crate) fn element_number(p: &Prog, array: u32, index: i32) -> Option<u32>
    ensures { result ≡ element_number p.now array index }
{
    let decl = p.cells.get(array as usize)?;
    let place = in_row(decl.dims, index)?;
    Some(decl.first + place as u32)
}

/// The number of an element of a grid, if both indexes are within their bounds.
pub(crate) fn grid_element_number(p: &Prog, array: u32, row: i32, column: i32) -> Option<u32>
    ensures { result ≡ grid_element_number p.now array row column }
{
    let decl = p.cells.get(array as usize)?;
    let place = in_grid(decl.dims, row, column)?;
    Some(decl.first + place as u32)
}
