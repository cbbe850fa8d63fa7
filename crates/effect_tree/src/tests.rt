//! The shapes of small programs, and where paths are placed in them.
use crate::Shape;
use region_paths::{Elem, Elems, Path};
use std::alloc::Global;
use std::process::Abort;
use std::test::Fail;
use twe_base::{Memory, Place, Word};
use twe_program::{CellDecl, Dims};

const DATA: Elem = Elem::Name(1);

const LOCKS: Elem = Elem::Name(2);

const BELOW: [Elem; 3] = [DATA, Elem::Index(3), LOCKS];

/// The path of these elements, which is followed by a star or not.
fn path(alloc: Global, elems: &[Elem], star: bool) -> Result<Path, Memory> {
    let elems = Elems::from_slice(alloc, elems)?;
    Ok(Path::new(elems, star, Elems::new(alloc)))
}

fn cell(alloc: Global, elems: &[Elem], dims: Dims) -> Result<CellDecl, Memory> {
    Ok(CellDecl {
        name: Word::from_text(alloc, "x")?,
        path: path(alloc, elems, false)?,
        dims,
        first: 0,
        init: 0,
        place: Place { line: 1, col: 1 },
    })
}

fn shape_of<R: AllocGlobal>(rt: &R, cells: &[CellDecl]) -> Result<Shape, Fail> {
    Ok(Shape::of_cells(rt.alloc(), cells)?)
}

/// Checks that the paths of these elements, followed by a star or not, are placed at this node.
fn assert_places<R: Abort + AllocGlobal>(
    rt: &R,
    shape: &Shape,
    paths: &[(&[Elem], bool)],
    node: u32,
) -> Result<(), Fail> {
    for (elems, star) in paths {
        assert_eq!(rt; shape.place(&path(rt.alloc(), elems, *star)?), node);
    }
    Ok(())
}

#[test]
fn a_row_and_a_cell_below_one_of_its_elements(rt: HostRuntime) -> Result<(), Fail> {
    let alloc = rt.alloc();
    let mut cells = Vec::new(alloc);
    cells.push(cell(alloc, &[DATA], Dims::Row(4))?)?;
    cells.push(cell(alloc, &BELOW, Dims::Scalar)?)?;
    let shape = shape_of(&rt, &cells)?;
    // The root, Console, Data, its four elements, and L below the last of them.
    assert_eq!(rt; shape.nodes(), 8);
    assert_places(
        &rt,
        &shape,
        &[
            (&[DATA], true),
            (&[DATA, Elem::Index(9)], false),
            (&[DATA, Elem::AnyIndex, LOCKS], false),
        ],
        2,
    )?;
    assert_places(&rt, &shape, &[(&BELOW, false), (&BELOW, true)], 7)
}

#[test]
fn what_has_no_elements_has_a_node_all_the_same(rt: HostRuntime) -> Result<(), Fail> {
    let alloc = rt.alloc();
    let mut cells = Vec::new(alloc);
    cells.push(cell(alloc, &[DATA], Dims::Row(0))?)?;
    cells.push(cell(alloc, &[LOCKS], Dims::Grid { rows: 3, cols: 0 })?)?;
    cells.push(cell(alloc, &[DATA], Dims::Scalar)?)?;
    // The root, Console, Data and L: no rows, and no path twice.
    assert_eq!(rt; shape_of(&rt, &cells)?.nodes(), 4);
    Ok(())
}
