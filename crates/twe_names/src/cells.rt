//! The resolver, for declarations of cells.
ghost use Rattle.std.specs.Prelude.{◌≡◌, ◌≤◌, All, IfOk};
ghost use Rattle.twe_base.specs.Language.{max_cells};
ghost use Rattle.name_check.specs.cell_limits.GoesOver.{cells_of};
ghost use Rattle.twe_program.specs.Program.{cells_made};
ghost use Rattle.twe_names.specs.Meaning.{cell_of, cells_from, dims_of, initial_of};
ghost use Rattle.twe_names.specs.inner.Numbers.{IsSmallCellPath, IsSmallItem};

use crate::paths::cell_path;
use name_check::Globals;
use std::alloc::Global;
use twe_ast::{CellDecl as Written, CellShape, Item};
use twe_base::{List, Memory};
use twe_program::{CellDecl, Dims};

/// The number of cells that a declaration makes, and how they are indexed.
fn dims(shape: &CellShape) -> Dims
    ensures { result ≡ dims_of shape.now }
{
    match shape {
        CellShape::Scalar(_) => Dims::Scalar,
        CellShape::Array { length } => Dims::Row(*length),
        CellShape::Grid { rows, columns } => Dims::Grid {
            rows: *rows,
            cols: *columns,
        },
    }
}

/// The initial value of each cell, which is 0 if none is written.
fn initial(shape: &CellShape) -> i32
    ensures { result ≡ initial_of shape.now }
{
    match shape {
        CellShape::Scalar(Some(initial)) => initial.value,
        _ => 0,
    }
}

/// The meaning of a declaration of cells, before which `first` cells are declared.
fn cell(alloc: Global, globals: &Globals, first: u32, written: &Written) -> Result<CellDecl, Memory>
    requires { IsSmallCellPath written.now.path }
    ensures { IfOk result (λ cell. cell ≡ cell_of globals.now first written.now) }
{
    Ok(CellDecl {
        name: written.name.text.copy(alloc)?,
        path: cell_path(alloc, globals, &written.path)?,
        dims: dims(&written.shape),
        first,
        init: initial(&written.shape),
        place: written.name.place,
    })
}

/// The meaning of the declarations of cells among the items.
pub fn cells(alloc: Global, globals: &Globals, items: &[Item]) -> Result<List<CellDecl>, Memory>
    requires small { All IsSmallItem items.now }
    requires few { cells_made (cells_from globals.now 0 (cells_of items.now)) ≤ max_cells }
    ensures { IfOk result (λ cells. cells ≡ cells_from globals.now 0 (cells_of items.now)) }
{
    let mut cells = List::new(alloc);
    let mut first = 0;
    for item in items {
        if let Item::Cell(written) = item {
            let made = cell(alloc, globals, first, written)?;
            first += made.dims.size() as u32;
            cells.push(made)?;
        }
    }
    Ok(cells)
}
