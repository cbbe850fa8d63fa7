//! The first cell at whose path two paths meet.
ghost use Rattle.std.specs.Prelude.{◌≡◌, IfNone, IfOk, IfSome, Some, drop, map, zip};
ghost use Rattle.std.specs.List.{All, list_all};
ghost use Rattle.region_paths.specs.declared.elements.Elem.TheVariants.{AnyIndex};
ghost use Rattle.effect_meeting.specs.Cells.{IsFirstMet, IsNeverMet, index_bounds, is_index_below};
ghost use Rattle.effect_meeting.specs.inner.CellLines.{IsMetAfter, IsNeverMetWithin, cell_line, is_written_below};
ghost use Rattle.effect_meeting.specs.inner.Columns.{all_plain, is_plain};

use crate::aligned::known;
use crate::meeting::meeting_along;
use crate::met::Met;
use crate::values::ParamValues;
use region_paths::{Elem, Elems, Path};
use std::alloc::{AllocError, Global};
use twe_base::{List, Memory};
use twe_program::{CellDecl, Dims};

/// A cell at whose path two paths meet.
#[derive(Debug, Drop)]
pub struct CellMet {
    /// The number of its declaration.
    pub decl: usize,
    /// Its indexes, which are literal: none of a single cell, one in an array, two in a grid.
    pub indexes: Elems,
    /// The values for which they do of the parameters that stand in the paths.
    pub values: ParamValues,
}

/// What the indexes of a cell are below.
fn index_bounds(alloc: Global, dims: Dims) -> Result<List<u32>, Memory>
    ensures { IfOk result (λ list. list ≡ index_bounds dims) }
{
    match dims {
        Dims::Scalar => Ok(List::new(alloc)),
        Dims::Row(count) => List::from_slice(alloc, &[count]),
        Dims::Grid { rows, cols } => List::from_slice(alloc, &[rows, cols]),
    }
}

/// As many elements that are any index.
fn any_indexes(alloc: Global, bounds: &[u32]) -> Result<Vec<Option<Elem>>, AllocError>
    ensures { IfOk result (λ list. list.items ≡ map (λ bound. Some AnyIndex) bounds.now) }
{
    bounds.iter().map(|_| Some(Elem::AnyIndex)).collect(alloc)
}

/// The elements of the path of a declaration, and any index after them for each bound.
fn cell_line(alloc: Global, elems: &[Elem], bounds: &[u32]) -> Result<Vec<Option<Elem>>, AllocError>
    ensures { IfOk result (λ list. list.items ≡ cell_line elems.now bounds.now) }
{
    let mut line = known(alloc, elems)?;
    let indexes = any_indexes(alloc, bounds)?;
    line.extend_from_slice(indexes.as_slice())?;
    Ok(line)
}

/// Whether the element is no variable.
fn is_plain(elem: Option<Elem>) -> bool
    ensures { result ≡ is_plain elem }
{
    match elem {
        None => true,
        Some(Elem::Name(_)) => true,
        Some(Elem::Index(_)) => true,
        Some(Elem::Var(_)) => false,
        Some(Elem::AnyIndex) => true,
    }
}

/// Whether none of the elements is a variable.
fn all_plain(elems: &[Option<Elem>]) -> bool
    ensures { result ≡ all_plain elems.now }
{
    elems.iter().all(|elem| is_plain(*elem))
}

/// Whether the number is an index below the bound.
fn is_index_below(bound: u32, value: i32) -> bool
    ensures { result ≡ is_index_below bound value }
{
    value >= 0 && value.unsigned_abs() < bound
}

/// The same of an element.
fn is_written_below(bound: u32, elem: Elem) -> bool
    ensures { result ≡ is_written_below bound elem }
{
    match elem {
        Elem::Index(value) => is_index_below(bound, value),
        Elem::Name(_) => false,
        Elem::Var(_) => false,
        Elem::AnyIndex => false,
    }
}

/// The same of each of some elements.
fn are_written_below(bounds: &[u32], elems: &[Elem]) -> bool
    ensures { result ≡ list_all (λ pair. is_written_below pair.0 pair.1) (zip bounds.now elems.now) }
{
    bounds
        .iter()
        .zip(elems)
        .all(|(bound, elem)| is_written_below(*bound, *elem))
}

/// The elements after the first ones, as many as this.
fn elements_after(alloc: Global, elems: &[Elem], count: usize) -> Result<Vec<Elem>, AllocError>
    ensures { IfOk result (λ list. list.items ≡ drop count elems.now) }
{
    elems.iter().skip(count).copied().collect(alloc)
}

/// The indexes of a cell at whose path the paths meet, if there is one. It lies in these elements, and its indexes are below the
/// bounds.
fn meeting_within(
    alloc: Global,
    shared: u32,
    first: &Path,
    second: &Path,
    declared: &[Elem],
    bounds: &[u32],
) -> Result<Option<Met>, Memory>
    ensures found { IfOk result (λ found.
        IfSome found (IsMetAfter shared first.now second.now declared.now bounds.now)) }
    ensures none { IfOk result (λ found.
        IfNone found (IsNeverMetWithin shared first.now second.now declared.now bounds.now)) }
{
    let line = cell_line(alloc, declared, bounds)?;
    if !all_plain(line.as_slice()) {
        return Ok(None);
    }
    match meeting_along(alloc, shared, first, second, line.as_slice())? {
        None => Ok(None),
        Some(met) => {
            let indexes = elements_after(alloc, met.elems.as_slice(), declared.len())?;
            if are_written_below(bounds, indexes.as_slice()) {
                Ok(Some(Met {
                    elems: Elems::from(indexes),
                    values: met.values,
                }))
            } else {
                Ok(None)
            }
        }
    }
}

/// The indexes of a cell of the declaration at whose path the paths meet, if there is one.
fn meeting_cell(
    alloc: Global,
    shared: u32,
    first: &Path,
    second: &Path,
    decl: &CellDecl,
) -> Result<Option<Met>, Memory>
    ensures found { IfOk result (λ found. IfSome found
        (IsMetAfter shared first.now second.now decl.now.path.elems (index_bounds decl.now.dims))) }
    ensures none { IfOk result (λ found. IfNone found (IsNeverMet shared first.now second.now decl.now)) }
{
    let bounds = index_bounds(alloc, decl.dims)?;
    let declared = decl.path.elems().as_slice();
    meeting_within(alloc, shared, first, second, declared, bounds.as_slice())
}

/// The first declaration with a cell at whose path the paths meet, and that cell. A cell is such if its path is in both for some
/// values of their variables. The first variables, as many as are shared, are parameters, and have one value each: those of the
/// parameters that stand in the paths are told. `None` is returned if and only if there is no such cell.
pub fn first_cell(
    alloc: Global,
    shared: u32,
    first: &Path,
    second: &Path,
    cells: &[CellDecl],
) -> Result<Option<CellMet>, Memory>
    ensures found { IfOk result (λ found. IfSome found (IsFirstMet shared first.now second.now cells.now)) }
    ensures none { IfOk result (λ found. IfNone found (All (IsNeverMet shared first.now second.now) cells.now)) }
{
    for (number, decl) in cells.iter().enumerate() {
        let found = meeting_cell(alloc, shared, first, second, decl)?;
        if let Some(met) = found {
            return Ok(Some(CellMet {
                decl: number,
                indexes: met.elems,
                values: met.values,
            }));
        }
    }
    Ok(None)
}
