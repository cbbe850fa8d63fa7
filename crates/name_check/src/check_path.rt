//! The rules of names in paths.
ghost use Rattle.std.specs.Prelude.{◌≡◌};
ghost use Rattle.std.specs.List.{flat_map};
ghost use Rattle.name_check.specs.Sites.{asks_of_clause, asks_of_path};
ghost use Rattle.name_check.specs.inner.Failures.{first_of_asks};
ghost use Rattle.name_check.specs.inner.Elements.{asks_of_cell_elem, asks_of_elem};

use crate::binding::NameUse;
use crate::names::Globals;
use crate::rule::NRule;
use crate::scope::Locals;
use crate::uses::{check_text, check_use};
use twe_ast::{CellElem, CellElemKind, Clause, Path, PathElem, PathElemKind};
use twe_base::Failure;

/// Checks an element of the path of an effect.
fn check_elem(
    elem: &PathElem,
    globals: &Globals,
    locals: &Locals,
    first: &mut Option<Failure<NRule>>,
)
    ensures { first.new ≡ first_of_asks globals.now locals.now first.old (asks_of_elem elem.now) }
{
    match &elem.kind {
        PathElemKind::Name(text) => {
            check_text(text, elem.place, NameUse::Region, globals, locals, first);
        }
        PathElemKind::Variable(name) => check_use(name, NameUse::Parameter, globals, locals, first),
        _ => {}
    }
}

/// Checks the path of an effect.
fn check_path(path: &Path, globals: &Globals, locals: &Locals, first: &mut Option<Failure<NRule>>)
    ensures { first.new ≡ first_of_asks globals.now locals.now first.old (asks_of_path path.now) }
{
    for elem in path.elems.as_slice() {
        check_elem(elem, globals, locals, first);
    }
}

/// Checks the paths of a clause.
fn check_clause(
    clause: &Clause,
    globals: &Globals,
    locals: &Locals,
    first: &mut Option<Failure<NRule>>,
)
    ensures { first.new ≡ first_of_asks globals.now locals.now first.old (asks_of_clause clause.now) }
{
    for path in clause.paths.as_slice() {
        check_path(path, globals, locals, first);
    }
}

/// Checks the paths of clauses.
pub fn check_effects(
    clauses: &[Clause],
    globals: &Globals,
    locals: &Locals,
    first: &mut Option<Failure<NRule>>,
)
    ensures { first.new ≡ first_of_asks globals.now locals.now first.old (flat_map asks_of_clause clauses.now) }
{
    for clause in clauses {
        check_clause(clause, globals, locals, first);
    }
}

/// Checks an element of the path of a cell.
fn check_cell_elem(
    elem: &CellElem,
    globals: &Globals,
    locals: &Locals,
    first: &mut Option<Failure<NRule>>,
)
    ensures { first.new ≡ first_of_asks globals.now locals.now first.old (asks_of_cell_elem elem.now) }
{
    match &elem.kind {
        CellElemKind::Name(text) => {
            check_text(text, elem.place, NameUse::Region, globals, locals, first);
        }
        CellElemKind::Index(_) => {}
    }
}

/// Checks the path of a cell, in which only global names are in scope.
pub fn check_cell_path(
    elems: &[CellElem],
    globals: &Globals,
    locals: &Locals,
    first: &mut Option<Failure<NRule>>,
)
    ensures { first.new ≡ first_of_asks globals.now locals.now first.old (flat_map asks_of_cell_elem elems.now) }
{
    for elem in elems {
        check_cell_elem(elem, globals, locals, first);
    }
}
