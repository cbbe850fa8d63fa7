//! The numbers of the concrete paths of cells. Cells of one path have one number.
ghost use Rattle.std.specs.Prelude.{◌≡◌, ◌<◌, ◌++◌, ◌^◌, ℕ, map, length, IfOk, OnOk, Some, slice_get};
ghost use Rattle.prefix_tree.specs.Nodes.{path_of};
ghost use Rattle.twe_program.specs.Program.{size_of};
ghost use Rattle.isolation_laws.specs.soundness.CellPaths.{concrete};
ghost use Rattle.span_profile.specs.inner.Numbering.{AreNumbered, ArePlaces, IsNumber, KeepsNumbers, decl_paths, part_of, parts_at, place_of};

use prefix_tree::{Part, PrefixTree};
use region_paths::Elem;
use std::alloc::Global;
use twe_base::{List, Memory};
use twe_program::{CellDecl, Dims, Prog};

/// For each cell the number of its concrete path, and the number of the path of `Console`.
#[derive(Debug, Drop)]
pub(crate) struct NumberedPaths {
    /// The numbers of the cells.
    pub cells: List<u32>,
    /// The number of `Console`.
    pub console: u32,
}

impl NumberedPaths {
    /// The number of a cell's path, and 0 if there is no such cell.
    pub(crate) fn of(&self, cell: u32) -> u32
        ensures { result ≡ place_of self.now cell }
    {
        match self.cells.get(cell as usize) {
            None => 0,
            Some(place) => *place,
        }
    }
}

/// An element of a cell's path, as a part of a path in the tree.
fn part(elem: Elem) -> Part
    ensures { result ≡ part_of (concrete elem) }
{
    match elem {
        Elem::Name(name) => Part::Name(name),
        Elem::Index(index) => Part::Index(i64::from(index)),
        Elem::Var(_) => Part::Index(0),
        Elem::AnyIndex => Part::Index(0),
    }
}

/// The parts of a path.
fn parts(alloc: Global, elems: &[Elem]) -> Result<List<Part>, Memory>
    ensures { IfOk result (λ parts. parts ≡ map (λ e. part_of (concrete e)) elems.now) }
{
    let mut parts = List::new(alloc);
    for elem in elems {
        parts.push(part(*elem))?;
    }
    Ok(parts)
}

/// Adds the path of the element at this place of a declaration, whose own path is at `base`.
fn add_element(tree: &mut PrefixTree, base: u32, dims: Dims, place: u64) -> Result<u32, Memory>
    requires base { base < length tree.old }
    requires place { place < size_of dims }
    requires few { place < 2 ^ 63 }
    ensures number { IfOk result (λ n. IsNumber tree.new n (path_of tree.old base ++ parts_at dims place)) }
    ensures keeps { OnOk result (KeepsNumbers tree.old tree.new) }
{
    match dims {
        Dims::Scalar => Ok(base),
        Dims::Row(_) => tree.child_or_new(base, Part::Index(place as i64)),
        Dims::Grid { cols, .. } => {
            let columns = u64::from(cols);
            let row = tree.child_or_new(base, Part::Index((place / columns) as i64))?;
            tree.child_or_new(row, Part::Index((place % columns) as i64))
        }
    }
}

/// Adds the paths of the cells of a declaration, and their numbers after the others.
fn add_cells(
    alloc: Global,
    tree: &mut PrefixTree,
    numbers: &mut List<u32>,
    decl: &CellDecl,
) -> Result<(), Memory>
    requires { size_of decl.now.dims < 2 ^ 63 }
    ensures keeps { OnOk result (KeepsNumbers tree.old tree.new) }
    ensures numbers { OnOk result (AreNumbered tree.old numbers.old tree.new numbers.new
        (decl_paths decl.now (size_of decl.now.dims))) }
{
    let path = parts(alloc, decl.path.elems().as_slice())?;
    let base = tree.add_path(path.as_slice())?;
    for place in 0..decl.dims.size() {
        numbers.push(add_element(tree, base, decl.dims, place)?)?;
    }
    Ok(())
}

/// The numbers of the paths of a program's cells, and of `Console`.
pub(crate) fn number_places(alloc: Global, p: &Prog) -> Result<NumberedPaths, Memory>
    ensures { IfOk result (ArePlaces p.now) }
{
    let mut tree = PrefixTree::new(alloc)?;
    let console = tree.add_path(&[Part::Name(0)])?;
    let mut cells = List::new(alloc);
    for decl in p.cells.as_slice() {
        add_cells(alloc, &mut tree, &mut cells, decl)?;
    }
    let _nodes = tree.len();
    Ok(NumberedPaths { cells, console })
}
