//! The resolver, for paths of effects and of cells.
ghost use Rattle.std.specs.Prelude.{◌≡◌, ◌++◌, length, All, IfOk, OnOk};
ghost use Rattle.std.specs.List.{list_any};
ghost use Rattle.twe_ast.specs.declared.path.PathElem.{PathElem as Written};
ghost use Rattle.name_check.specs.Limits.{is_star};
ghost use Rattle.name_check.specs.Names.{first_local, global_of};
ghost use Rattle.twe_names.specs.FromText.{IsSmall, IsSmallInCell};
ghost use Rattle.twe_names.specs.inner.Numbers.{IsSmallCellPath, IsSmallPath};
ghost use Rattle.twe_names.specs.PathMeaning.{before_star, cell_path_of, elem_of_cell_kind, elem_of_kind, elems_of, param_number, path_meaning, region_number};

use name_check::{Global, Globals, Local, Locals, is_star};
use region_paths::{Elem, Elems};
use std::alloc;
use twe_ast::{CellElem, CellElemKind, CellPath, Path, PathElem, PathElemKind};
use twe_base::{Memory, Word};

/// The number of a region.
fn region(globals: &Globals, text: &Word) -> u32
    ensures { result ≡ region_number (global_of globals.now text.now) }
{
    match globals.global(text) {
        Some(Global::Region(number)) => number,
        _ => 0,
    }
}

/// The number of a parameter.
fn param(params: &Locals, text: &Word) -> u32
    ensures { result ≡ param_number (first_local text.now params.now) }
{
    match params.local(text) {
        Some(Local::Variable { number, .. }) => number,
        _ => 0,
    }
}

/// Adds the meaning of an element of the path of an effect, unless it is a `*`.
fn add_element(
    elems: &mut Elems,
    globals: &Globals,
    params: &Locals,
    kind: &PathElemKind,
) -> Result<(), Memory>
    requires { IsSmall kind.now }
    ensures { OnOk result (elems.new ≡ elems.old ++ elem_of_kind globals.now params.now kind.now) }
{
    match kind {
        PathElemKind::Name(text) => elems.push(Elem::Name(region(globals, text))),
        PathElemKind::Index(index) => elems.push(Elem::Index(*index as i32)),
        PathElemKind::Variable(name) => elems.push(Elem::Var(param(params, &name.text))),
        PathElemKind::AnyIndex => elems.push(Elem::AnyIndex),
        PathElemKind::Star => Ok(()),
    }
}

/// The meaning of the elements of the path of an effect.
fn elements(
    alloc: alloc::Global,
    globals: &Globals,
    params: &Locals,
    written: &[PathElem],
) -> Result<Elems, Memory>
    requires { All (λ (elem : Written). IsSmall elem.kind) written.now }
    ensures { IfOk result (λ elems. elems ≡ elems_of globals.now params.now written.now) }
{
    let mut elems = Elems::new(alloc);
    for elem in written {
        add_element(&mut elems, globals, params, &elem.kind)?;
    }
    Ok(elems)
}

/// The number of elements before the first `*`.
fn count_before_star(written: &[PathElem]) -> usize
    ensures { result ≡ length (before_star written.now) }
{
    written.iter().take_while(|e| !is_star(e)).count()
}

/// Whether one of the elements is a `*`.
fn has_star(written: &[PathElem]) -> bool
    ensures { result ≡ list_any is_star written.now }
{
    written.iter().any(|e| is_star(e))
}

/// The meaning of the path of an effect of a declaration with these parameters.
pub fn effect_path(
    alloc: alloc::Global,
    globals: &Globals,
    params: &Locals,
    path: &Path,
) -> Result<region_paths::Path, Memory>
    requires { IsSmallPath path.now }
    ensures { IfOk result (λ meant. meant ≡ path_meaning globals.now params.now path.now) }
{
    let written = path.elems.as_slice();
    let before = count_before_star(written);
    let elems = elements(alloc, globals, params, &written[..before])?;
    let tail = elements(alloc, globals, params, &written[before..])?;
    Ok(region_paths::Path::new(elems, has_star(written), tail))
}

/// The meaning of an element of the path of a cell.
fn cell_element(globals: &Globals, kind: &CellElemKind) -> Elem
    requires { IsSmallInCell kind.now }
    ensures { result ≡ elem_of_cell_kind globals.now kind.now }
{
    match kind {
        CellElemKind::Name(text) => Elem::Name(region(globals, text)),
        CellElemKind::Index(index) => Elem::Index(*index as i32),
    }
}

/// The meaning of the path of a cell.
pub fn cell_path(
    alloc: alloc::Global,
    globals: &Globals,
    path: &CellPath,
) -> Result<region_paths::Path, Memory>
    requires { IsSmallCellPath path.now }
    ensures { IfOk result (λ meant. meant ≡ cell_path_of globals.now path.now) }
{
    let mut elems = Elems::new(alloc);
    for elem in path.elems.as_slice() {
        elems.push(cell_element(globals, &elem.kind))?;
    }
    Ok(region_paths::Path::new(elems, false, Elems::new(alloc)))
}
