//! How the tree of nodes grows by the paths that a cell declares.
ghost use Rattle.std.specs.Prelude.{◌≡◌, map, IfOk, OnOk};
ghost use Rattle.prefix_tree.specs.Growth.{Grows};
ghost use Rattle.name_check.specs.cell_limits.inner.Parts.{part_of};
ghost use Rattle.name_check.specs.cell_limits.inner.Counting.{IsPartsOf, IsOfCell};

use crate::cell_limits::names::Names;
use prefix_tree::{Part, PrefixTree};
use std::alloc::Global;
use twe_ast::{CellDecl, CellElem, CellShape};
use twe_base::Memory;

/// The elements of a path as parts, by the numbers of the names.
fn parts(alloc: Global, names: &Names, elems: &[CellElem]) -> Result<Vec<Part>, Memory>
    ensures { IfOk result (λ parts. parts.items ≡ map (λ (elem : CellElem). part_of names.now elem.kind) elems.now) }
{
    let mut parts = Vec::new(alloc);
    for elem in elems {
        parts.push(names.part(&elem.kind))?;
    }
    Ok(parts)
}

/// Adds all prefixes of the paths that a cell declares.
pub(crate) fn add_cell(
    alloc: Global,
    names: &Names,
    tree: &mut PrefixTree,
    cell: &CellDecl,
) -> Result<(), Memory>
    ensures { OnOk result (Grows tree.old tree.new (IsPartsOf names.now (IsOfCell cell.now))) }
{
    let path = parts(alloc, names, cell.path.elems.as_slice())?;
    let at = tree.add_path(path.as_slice())?;
    match cell.shape {
        CellShape::Scalar(_) => Ok(()),
        CellShape::Array { length } => tree.add_row(at, length),
        CellShape::Grid { rows, columns } => tree.add_grid(at, rows, columns),
    }
}
