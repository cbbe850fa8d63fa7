//! How a tree grows by a path, by the elements of an array, and by those of a grid.
ghost use Rattle.std.specs.Prelude.{◌≡◌, ◌<◌, length, IfOk, OnOk};
ghost use Rattle.prefix_tree.specs.Prefix.{IsPrefix};
ghost use Rattle.prefix_tree.specs.Nodes.{path_of};
ghost use Rattle.prefix_tree.specs.Growth.{Grows, IsRowElement, IsGridElement};

use crate::part::Part;
use crate::tree::PrefixTree;
use twe_base::Memory;

impl PrefixTree {
    /// Adds all prefixes of a path, and returns the node of the whole path.
    pub fn add_path(&mut self, path: &[Part]) -> Result<u32, Memory>
        ensures there { IfOk result (λ n. n < length self.new) }
        ensures path { IfOk result (λ n. path_of self.new n ≡ path.now) }
        ensures grows { OnOk result (Grows self.old self.new (λ prefix. IsPrefix prefix path.now)) }
    {
        let mut at = self.root();
        for part in path {
            at = self.child_or_new(at, *part)?;
        }
        Ok(at)
    }

    /// Adds the elements 0 to `count - 1` of an array right below a node.
    pub fn add_row(&mut self, at: u32, count: u32) -> Result<(), Memory>
        requires { at < length self.old }
        ensures { OnOk result (Grows self.old self.new (IsRowElement (path_of self.old at) count)) }
    {
        self.reserve(count)?;
        for i in 0..count {
            self.child_or_new(at, Part::index(i))?;
        }
        Ok(())
    }

    /// Adds the rows of a grid right below a node, each with its elements. Rows without elements are left out.
    pub fn add_grid(&mut self, at: u32, rows: u32, columns: u32) -> Result<(), Memory>
        requires { at < length self.old }
        ensures { OnOk result (Grows self.old self.new (IsGridElement (path_of self.old at) rows columns)) }
    {
        if columns == 0 {
            return Ok(());
        }
        for i in 0..rows {
            let row = self.child_or_new(at, Part::index(i))?;
            self.add_row(row, columns)?;
        }
        Ok(())
    }
}
