//! The numbers of cells and of nodes, counted over the declarations of a text.
ghost use Rattle.std.specs.Prelude.{◌≡◌, ◌≤◌, ◌+◌, ◌-◌, ◌^◌, [], IfOk};
ghost use Rattle.twe_base.specs.Language.{max_cells};
ghost use Rattle.name_check.specs.cell_limits.Nodes.{declared_size};
ghost use Rattle.name_check.specs.cell_limits.inner.Counting.{HasCounted, CountsOn};

use crate::cell_limits::growth::add_cell;
use crate::cell_limits::names::Names;
use prefix_tree::{Part, PrefixTree};
use std::alloc::Global;
use twe_ast::{CellDecl, CellElemKind, CellShape};
use twe_base::{MAX_CELLS, MAX_NODES, Memory, Word};

/// What was counted.
#[derive(Debug, Drop)]
pub(crate) struct Count {
    /// How many cells there are.
    pub cells: u64,
    /// The nodes.
    pub tree: PrefixTree,
}

/// How many cells a declaration makes.
fn size(shape: &CellShape) -> u64
    ensures size { result ≡ declared_size shape.now }
    ensures small { result ≤ 2 ^ 64 - 2 ^ 33 + 1 }
{
    match shape {
        CellShape::Scalar(_) => 1,
        CellShape::Array { length } => u64::from(*length),
        CellShape::Grid { rows, columns } => u64::from(*rows) * u64::from(*columns),
    }
}

impl Count {
    /// No cells, and the nodes `Root` and `Console`.
    pub fn new(alloc: Global, names: &Names) -> Result<Self, Memory>
        ensures { IfOk result (HasCounted names.now []) }
    {
        let console = CellElemKind::Name(Word::from_text(alloc, "Console")?);
        let mut tree = PrefixTree::new(alloc)?;
        tree.child_or_new(0, names.part(&console))?;
        Ok(Count { cells: 0, tree })
    }

    /// Counts a declaration, and returns whether both numbers stay within their limits. If its cells go over theirs, no
    /// node is added.
    pub fn add(&mut self, alloc: Global, names: &Names, cell: &CellDecl) -> Result<bool, Memory>
        requires { self.old.cells ≤ max_cells }
        ensures { IfOk result (CountsOn names.now self.old self.new cell.now) }
    {
        self.cells += size(&cell.shape);
        if self.cells > u64::from(MAX_CELLS) {
            return Ok(false);
        }
        add_cell(alloc, names, &mut self.tree, cell)?;
        if self.tree.len() > MAX_NODES {
            return Ok(false);
        }
        Ok(true)
    }
}
