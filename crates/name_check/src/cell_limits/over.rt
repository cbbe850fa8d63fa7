//! The first declaration of a text that brings the number of cells or the number of nodes over its limit.
ghost use Rattle.std.specs.Prelude.{◌≡◌, [], ◌∷◌, codes, Contains, IfOk, MatchOption};
ghost use Rattle.std.specs.List.{All};
ghost use Rattle.name_check.specs.cell_limits.GoesOver.{cells_of_item, cells_of};
ghost use Rattle.name_check.specs.cell_limits.Nodes.{written_path};
ghost use Rattle.name_check.specs.cell_limits.FirstOver.{IsFirstOver};
ghost use Rattle.name_check.specs.cell_limits.inner.Parts.{IsKnown};
ghost use Rattle.name_check.specs.cell_limits.inner.Counting.{HasCounted};

use crate::cell_limits::count::Count;
use crate::cell_limits::names::Names;
use std::alloc::Global;
use twe_ast::{CellDecl, Item};
use twe_base::{Memory, Place};

/// The place of the name of the first declaration that brings the number of cells over `MAX_CELLS`, or that of nodes over
/// `MAX_NODES`. It returns `None` if no declaration does.
///
/// Cells are counted before nodes, and no node is counted of a declaration whose cells go over their limit. The time is
/// near linear in the length of the text, and in the limits.
pub fn first_over(alloc: Global, items: &[Item]) -> Result<Option<Place>, Memory>
    ensures { IfOk result (IsFirstOver items.now) }
{
    let names = Names::of_items(alloc, items)?;
    let count = Count::new(alloc, &names)?;
    first_counted(alloc, &names, count, items)
}

/// The same, once all names are known, and before anything is counted.
fn first_counted(
    alloc: Global,
    names: &Names,
    mut count: Count,
    items: &[Item],
) -> Result<Option<Place>, Memory>
    requires none { HasCounted names.now [] count }
    requires console { Contains names.now (codes "Console") }
    requires cells { All (λ cell. All (IsKnown names.now) (written_path cell)) (cells_of items.now) }
    ensures { IfOk result (IsFirstOver items.now) }
{
    for item in items {
        if let Some(cell) = cell_of(item) {
            if !count.add(alloc, names, cell)? {
                return Ok(Some(cell.name.place));
            }
        }
    }
    Ok(None)
}

/// The item, if it is a declaration of cells.
fn cell_of(item: &Item) -> Option<&CellDecl>
    ensures { MatchOption result (cells_of_item item.now ≡ []) (λ cell. cells_of_item item.now ≡ cell.now ∷ []) }
{
    match item {
        Item::Cell(cell) => Some(cell),
        _ => None,
    }
}
