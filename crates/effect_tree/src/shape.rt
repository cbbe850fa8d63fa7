//! The shape of the effect tree of a program.
ghost use Rattle.std.specs.Prelude.{◌≡◌, ℕ, ◌<◌, ◌≤◌, ◌↔◌, [], ◌∷◌, ◌++◌, length, take_while, Contains, IfSome, IsNone, IfOk, MatchOption};
ghost use Rattle.std.specs.List.Sorted.{IsStrictlyIncreasing};

use crate::children::children;
use crate::growth::tree_of_cells;
use crate::parts::part;
use prefix_tree::PrefixTree;
use region_paths::{Elem, Path};
use std::alloc::Global;
use std::marker::Model;
use twe_base::Memory;
use twe_program::{CellDecl, Prog};

/// The nodes of a program's effect tree, numbered from 0, which is the root: `Console`, and every prefix of the path of
/// each cell, the elements of arrays and grids included. Contracts see it as the list of the nodes' paths.
#[derive(Debug, Drop)]
pub struct Shape {
    /// The nodes.
    tree: PrefixTree,
    /// For each node those right below it, in increasing order.
    below: Vec<Vec<u32>>,
}

impl Model for Shape {
    ghost use Rattle.std.specs.Prelude.{List};
    ghost use Rattle.region_paths.specs.declared.elements.Elem.{Elem};
    ghost use Rattle.prefix_tree.specs.Nodes.{IsTreeOfPaths};
    ghost use Rattle.effect_tree.specs.inner.Parts.{elem_paths};
    ghost use Rattle.effect_tree.specs.inner.Children.{items_of, HasChildren};

    ghost Value = { List (List Elem) };

    ghost view = { λ shape. elem_paths shape.tree };

    ghost invariant = { λ shape. IsTreeOfPaths shape.tree × HasChildren shape.tree (items_of shape.below) };
}

impl Shape {
    ghost use Rattle.std.specs.Prelude.{List};
    ghost use Rattle.region_paths.specs.declared.elements.Elem.{Elem};
    ghost use Rattle.region_paths.specs.Filled.{is_solid};
    ghost use Rattle.prefix_tree.specs.Nodes.{path_of, IsNode, IsParent, IsTreeOfPaths};
    ghost use Rattle.twe_base.specs.Language.{max_nodes};
    ghost use Rattle.twe_program.specs.Nodes.{IsNodePath};
    ghost use Rattle.effect_tree.specs.Place.{IsPlace, IsDeepest};
    ghost use Rattle.effect_tree.specs.inner.Growth.{HasPaths, IsFrontPath};

    /// The shape of the program's tree. It has at most `MAX_NODES` nodes, so 32 bits number all of them. It takes time
    /// near linear in the number of nodes.
    pub fn build(alloc: Global, p: &Prog) -> Result<Self, Memory>
        ensures exact { IfOk result (λ shape. (path : List Elem) → (IsNode shape path ↔ IsNodePath p.now path)) }
        ensures tree { IfOk result IsTreeOfPaths }
        ensures few { IfOk result (λ shape. length shape ≤ max_nodes) }
    {
        Self::of_cells(alloc, p.cells.as_slice())
    }

    /// The shape of these cells' tree.
    pub(crate) fn of_cells(alloc: Global, cells: &[CellDecl]) -> Result<Self, Memory>
        ensures exact { IfOk result (λ shape. HasPaths shape (IsFrontPath cells.now)) }
        ensures tree { IfOk result IsTreeOfPaths }
    {
        let tree = tree_of_cells(alloc, cells)?;
        let below = children(alloc, &tree)?;
        Ok(Shape { tree, below })
    }

    /// How many nodes there are.
    pub fn nodes(&self) -> u32
        ensures count { result ≡ length self.now }
        ensures tree { IsTreeOfPaths self.now }
    {
        self.tree.len()
    }

    /// The node right above `n`. Only the root has none. It takes no memory.
    pub fn parent(&self, n: u32) -> Option<u32>
        requires { n < length self.now }
        ensures parent { IfSome result (λ m. IsParent self.now m n) }
        ensures root { IsNone result ↔ (n ≡ 0) }
    {
        self.tree.parent(n)
    }

    /// The nodes right below `n`, in increasing order. It takes no memory.
    pub fn below(&self, n: u32) -> &[u32]
        requires { n < length self.now }
        ensures each { (m : ℕ) → (Contains result.now m ↔ IsParent self.now n m) }
        ensures in_order { IsStrictlyIncreasing result.now }
    {
        self.below[n as usize].as_slice()
    }

    /// The node right below `n` whose path ends with this element, if there is one. It takes no memory, and the node is found by
    /// a hash of the step to it.
    pub fn child(&self, n: u32, elem: Elem) -> Option<u32>
        requires { n < length self.now }
        ensures { MatchOption result (¬ IsNode self.now (path_of self.now n ++ elem ∷ []))
            (λ m. (m < length self.now) × (path_of self.now m ≡ path_of self.now n ++ elem ∷ [])) }
    {
        // The tree is read so that a proof may use what it keeps.
        let _tree = &self.tree;
        let Some(next) = part(elem) else {
            return None;
        };
        self.tree.child(n, next)
    }

    /// The place of a path: the deepest node that is a prefix of the path's solid prefix. It takes no memory, and time
    /// near linear in the path's elements, however many nodes there are below one.
    pub fn place(&self, path: &Path) -> u32
        ensures there { result < length self.now }
        ensures place { IsPlace self.now path.now (path_of self.now result) }
    {
        self.deepest(path.elems().as_slice())
    }

    /// The deepest node that is a prefix of the solid elements at the front.
    fn deepest(&self, elems: &[Elem]) -> u32
        ensures there { result < length self.now }
        ensures deepest { IsDeepest self.now (take_while is_solid elems.now) (path_of self.now result) }
    {
        let mut at = 0;
        for elem in elems {
            let Some(next) = part(*elem) else {
                return at;
            };
            let Some(child) = self.tree.child(at, next) else {
                return at;
            };
            at = child;
        }
        at
    }
}
