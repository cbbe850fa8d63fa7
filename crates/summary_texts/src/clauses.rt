//! The clauses of a summary as a tree has them.
ghost use Rattle.std.specs.Prelude.{◌≡◌, ◌++◌, map, IfOk, OnOk};
ghost use Rattle.summary_texts.specs.paste_laws.Clauses.{clause_kind_of, elem_of, name_at, texts_of};
ghost use Rattle.summary_texts.specs.Order.{summary_paths_of};
ghost use Rattle.summary_texts.specs.inner.LineClauses.{line_clause, line_clauses, line_path};

use crate::paths_of;
use effect_sets::Summary;
use region_paths::{Elem, Elems};
use std::alloc::Global;
use twe_ast::{Clause, Name, Path, PathElem, PathElemKind};
use twe_base::{List, Memory, Place, Word};

/// The place of what no text has yet.
const NOWHERE: Place = Place { line: 0, col: 0 };

/// The name of this number.
fn name_at(alloc: Global, names: &[Word], number: u32) -> Result<Word, Memory>
    ensures { IfOk result (λ name. name ≡ name_at names.now number) }
{
    match names.get(number as usize) {
        None => Ok(Word::new(alloc)),
        Some(name) => name.copy(alloc),
    }
}

/// The name of the parameter of this number.
fn parameter_name(alloc: Global, params: &[Name], number: u32) -> Result<Word, Memory>
    ensures { IfOk result (λ name. name ≡ name_at (texts_of params.now) number) }
{
    match params.get(number as usize) {
        None => Ok(Word::new(alloc)),
        Some(name) => name.text.copy(alloc),
    }
}

/// The kind of an element.
fn kind_of(
    alloc: Global,
    regions: &[Word],
    params: &[Name],
    elem: Elem,
) -> Result<PathElemKind, Memory>
    ensures { IfOk result (λ kind. kind ≡ clause_kind_of regions.now (texts_of params.now) elem) }
{
    match elem {
        Elem::Name(region) => Ok(PathElemKind::Name(name_at(alloc, regions, region)?)),
        Elem::Index(index) => Ok(PathElemKind::Index(index.unsigned_abs())),
        Elem::Var(param) => Ok(PathElemKind::Variable(Name {
            text: parameter_name(alloc, params, param)?,
            place: NOWHERE,
        })),
        Elem::AnyIndex => Ok(PathElemKind::AnyIndex),
    }
}

/// The elements of a path.
fn elems_of(
    alloc: Global,
    regions: &[Word],
    params: &[Name],
    elems: &[Elem],
) -> Result<List<PathElem>, Memory>
    ensures { IfOk result (λ made. made ≡ map (elem_of regions.now (texts_of params.now)) elems.now) }
{
    let mut made = List::new(alloc);
    for elem in elems {
        let kind = kind_of(alloc, regions, params, *elem)?;
        made.push(PathElem {
            kind,
            place: NOWHERE,
        })?;
    }
    Ok(made)
}

/// A path with these elements.
fn path_of(alloc: Global, regions: &[Word], params: &[Name], elems: &[Elem]) -> Result<Path, Memory>
    ensures { IfOk result (λ path. path ≡ line_path regions.now params.now elems.now) }
{
    let elems = elems_of(alloc, regions, params, elems)?;
    Ok(Path {
        elems,
        place: NOWHERE,
    })
}

/// The paths of a clause.
fn clause_paths(
    alloc: Global,
    regions: &[Word],
    params: &[Name],
    paths: &[Elems],
) -> Result<List<Path>, Memory>
    ensures { IfOk result (λ made. made ≡ map (line_path regions.now params.now) paths.now) }
{
    let mut made = List::new(alloc);
    for path in paths {
        made.push(path_of(alloc, regions, params, path.as_slice())?)?;
    }
    Ok(made)
}

/// Adds a clause of these paths, if there are any.
fn push_clause(
    clauses: &mut List<Clause>,
    alloc: Global,
    regions: &[Word],
    params: &[Name],
    write: bool,
    paths: &[Elems],
) -> Result<(), Memory>
    ensures { OnOk result (clauses.new ≡ clauses.old ++ line_clause regions.now params.now write paths.now) }
{
    if paths.is_empty() {
        return Ok(());
    }
    let paths = clause_paths(alloc, regions, params, paths)?;
    clauses.push(Clause { write, paths })
}

/// The clauses of a summary: what is only read, and what is written, the paths of each in their order.
pub(crate) fn clauses_of(
    alloc: Global,
    regions: &[Word],
    params: &[Name],
    summary: &Summary,
) -> Result<List<Clause>, Memory>
    ensures { IfOk result (λ clauses. clauses ≡ line_clauses regions.now params.now summary.now) }
{
    let reads = paths_of(alloc, summary, false)?;
    let writes = paths_of(alloc, summary, true)?;
    let mut clauses = List::new(alloc);
    push_clause(
        &mut clauses,
        alloc,
        regions,
        params,
        false,
        reads.as_slice(),
    )?;
    push_clause(
        &mut clauses,
        alloc,
        regions,
        params,
        true,
        writes.as_slice(),
    )?;
    Ok(clauses)
}
