//! The tree of the paths of a program's cells.
ghost use Rattle.std.specs.Prelude.{◌≡◌, map, IfOk, OnOk};
ghost use Rattle.region_paths.specs.Filled.{solid_prefix};
ghost use Rattle.prefix_tree.specs.Growth.{Grows};
ghost use Rattle.twe_program.specs.Nodes.{IsPrefixOfDeclared};
ghost use Rattle.effect_tree.specs.inner.Parts.{elem_of};
ghost use Rattle.effect_tree.specs.inner.Growth.{HasPaths, IsFrontPath};

use crate::parts::solid_parts;
use prefix_tree::{Part, PrefixTree};
use std::alloc::Global;
use twe_base::Memory;
use twe_program::{CellDecl, Dims};

/// Adds all paths that a cell declares, below the solid elements at the front of its path.
fn add_cell(alloc: Global, tree: &mut PrefixTree, cell: &CellDecl) -> Result<(), Memory>
    ensures { OnOk result
        (Grows tree.old tree.new (λ parts. IsPrefixOfDeclared (solid_prefix cell.now.path) cell.now.dims (map elem_of parts))) }
{
    let front = solid_parts(alloc, cell.path.elems().as_slice())?;
    let at = tree.add_path(front.as_slice())?;
    match cell.dims {
        Dims::Scalar => Ok(()),
        Dims::Row(count) => tree.add_row(at, count),
        Dims::Grid { rows, cols } => tree.add_grid(at, rows, cols),
    }
}

/// The tree of the path of `Console` and of all paths that the cells declare.
pub(crate) fn tree_of_cells(alloc: Global, cells: &[CellDecl]) -> Result<PrefixTree, Memory>
    ensures { IfOk result (λ tree. HasPaths tree (λ parts. IsFrontPath cells.now (map elem_of parts))) }
{
    let mut tree = PrefixTree::new(alloc)?;
    tree.child_or_new(0, Part::Name(0))?;
    for cell in cells {
        add_cell(alloc, &mut tree, cell)?;
    }
    Ok(tree)
}
