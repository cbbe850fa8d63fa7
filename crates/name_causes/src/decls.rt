//! What declarations need, and what is there.
ghost use Rattle.std.specs.Prelude.{◌≡◌, ◌++◌, ◌<◌, ◌^◌, [], IfOk, OnOk, length};
ghost use Rattle.std.specs.List.{flat_map};
ghost use Rattle.twe_ast.specs.declared.item.Item.TheVariants.{Cell as CellItem};
ghost use Rattle.name_check.specs.Sites.{asks_of_clause, asks_of_path, at_body, sites_of_decl, sites_of_params};
ghost use Rattle.name_check.specs.Size.{size_of_decl, size_of_item};
ghost use Rattle.name_check.specs.inner.Elements.{asks_of_cell_elem, asks_of_elem};
ghost use Rattle.name_causes.specs.Needs.{needs_at_sites, needs_of_asks};
ghost use Rattle.name_causes.specs.Others.{needs_of_decl, needs_of_item};

use crate::bodies::add_block;
use crate::expressions::{add_new, add_use, add_use_of};
use crate::limits::{add_cell_limits, add_limits};
use crate::need::PlacedNeeds;
use name_check::{BodyScope, Globals, Locals, NameUse};
use std::alloc::Global;
use twe_ast::{
    CellDecl, CellElem, CellElemKind, Clause, Decl, Item, LocalType, Path, PathElem, PathElemKind,
    ReturnType,
};
use twe_base::Memory;

/// Adds what an element of the path of an effect needs.
fn add_elem(
    needs: &mut PlacedNeeds,
    globals: &Globals,
    locals: &Locals,
    returns: ReturnType,
    elem: &PathElem,
) -> Result<(), Memory>
    ensures { OnOk result (needs.new ≡ needs.old ++ needs_of_asks globals.now locals.now returns (asks_of_elem elem.now)) }
{
    match &elem.kind {
        PathElemKind::Variable(name) => {
            add_use(needs, globals, locals, returns, name, NameUse::Parameter)
        }
        PathElemKind::Name(text) => {
            let name_use = NameUse::Region;
            add_use_of(needs, globals, locals, returns, text, elem.place, name_use)
        }
        _ => Ok(()),
    }
}

/// Adds what the path of an effect needs.
fn add_path(
    needs: &mut PlacedNeeds,
    globals: &Globals,
    locals: &Locals,
    returns: ReturnType,
    path: &Path,
) -> Result<(), Memory>
    ensures { OnOk result (needs.new ≡ needs.old ++ needs_of_asks globals.now locals.now returns (asks_of_path path.now)) }
{
    for elem in path.elems.as_slice() {
        add_elem(needs, globals, locals, returns, elem)?;
    }
    Ok(())
}

/// Adds what the paths of a clause need.
fn add_clause(
    needs: &mut PlacedNeeds,
    globals: &Globals,
    locals: &Locals,
    returns: ReturnType,
    clause: &Clause,
) -> Result<(), Memory>
    ensures { OnOk result (needs.new ≡ needs.old ++ needs_of_asks globals.now locals.now returns (asks_of_clause clause.now)) }
{
    for path in clause.paths.as_slice() {
        add_path(needs, globals, locals, returns, path)?;
    }
    Ok(())
}

/// Adds what the paths of clauses need.
fn add_effects(
    needs: &mut PlacedNeeds,
    globals: &Globals,
    locals: &Locals,
    returns: ReturnType,
    clauses: &[Clause],
) -> Result<(), Memory>
    ensures { OnOk result (needs.new ≡ needs.old
        ++ needs_of_asks globals.now locals.now returns (flat_map asks_of_clause clauses.now)) }
{
    for clause in clauses {
        add_clause(needs, globals, locals, returns, clause)?;
    }
    Ok(())
}

/// Adds what the parameters of a declaration need, and returns the scope at the start of its body.
#[tactic(auto, using(crate::proofs::Listing::listed))]
fn add_params(
    needs: &mut PlacedNeeds,
    alloc: Global,
    globals: &Globals,
    decl: &Decl,
) -> Result<BodyScope, Memory>
    requires { length decl.now.params < 2 ^ 32 }
    ensures params { IfOk result (λ scope. scope ≡ at_body decl.now) }
    ensures listed { OnOk result (needs.new ≡ needs.old
        ++ needs_at_sites globals.now (sites_of_params decl.now.returns [] 0 decl.now.params)) }
{
    let mut scope = BodyScope {
        locals: Locals::new(alloc),
        points: 0,
        vars: 0,
        futures: 0,
    };
    for name in decl.params.as_slice() {
        add_new(needs, globals, &scope.locals, decl.returns, name)?;
        scope.declare_variable(alloc, &name.text, LocalType::Int, true)?;
    }
    Ok(scope)
}

/// Adds what the names and types of a declaration need.
#[tactic(auto, using(crate::proofs::Listing::listed))]
fn add_decl(
    needs: &mut PlacedNeeds,
    alloc: Global,
    globals: &Globals,
    decl: &Decl,
) -> Result<(), Memory>
    requires { size_of_decl decl.now < 2 ^ 32 }
    ensures { OnOk result (needs.new ≡ needs.old ++ needs_at_sites globals.now (sites_of_decl globals.now decl.now)) }
{
    let returns = decl.returns;
    let mut scope = add_params(needs, alloc, globals, decl)?;
    add_effects(
        needs,
        globals,
        &scope.locals,
        returns,
        decl.effects.as_slice(),
    )?;
    add_block(needs, &mut scope, alloc, globals, returns, &decl.body)
}

/// Adds what an element of the path of a cell needs.
fn add_cell_elem(
    needs: &mut PlacedNeeds,
    globals: &Globals,
    locals: &Locals,
    returns: ReturnType,
    elem: &CellElem,
) -> Result<(), Memory>
    ensures { OnOk result (needs.new ≡ needs.old ++ needs_of_asks globals.now locals.now returns (asks_of_cell_elem elem.now)) }
{
    match &elem.kind {
        CellElemKind::Index(_) => Ok(()),
        CellElemKind::Name(text) => {
            let name_use = NameUse::Region;
            add_use_of(needs, globals, locals, returns, text, elem.place, name_use)
        }
    }
}

/// Adds what the path of a cell needs.
fn add_cell_path(
    needs: &mut PlacedNeeds,
    globals: &Globals,
    locals: &Locals,
    returns: ReturnType,
    elems: &[CellElem],
) -> Result<(), Memory>
    ensures { OnOk result (needs.new ≡ needs.old ++ needs_of_asks globals.now locals.now returns
        (flat_map asks_of_cell_elem elems.now)) }
{
    for elem in elems {
        add_cell_elem(needs, globals, locals, returns, elem)?;
    }
    Ok(())
}

/// Adds what the declaration of a cell needs.
fn add_cell(
    needs: &mut PlacedNeeds,
    alloc: Global,
    globals: &Globals,
    cell: &CellDecl,
) -> Result<(), Memory>
    ensures { OnOk result (needs.new ≡ needs.old ++ needs_of_item globals.now (CellItem cell.now)) }
{
    let nothing = Locals::new(alloc);
    let elems = &cell.path.elems;
    add_cell_path(needs, globals, &nothing, ReturnType::Void, elems.as_slice())?;
    add_cell_limits(needs, elems)?;
    Ok(())
}

/// Adds what a method or a task needs.
#[tactic(auto, using(crate::proofs::Listing::listed))]
fn add_whole_decl(
    needs: &mut PlacedNeeds,
    alloc: Global,
    globals: &Globals,
    decl: &Decl,
) -> Result<(), Memory>
    requires { size_of_decl decl.now < 2 ^ 32 }
    ensures { OnOk result (needs.new ≡ needs.old
        ++ (needs_at_sites globals.now (sites_of_decl globals.now decl.now) ++ needs_of_decl decl.now)) }
{
    add_decl(needs, alloc, globals, decl)?;
    add_limits(needs, alloc, decl)
}

/// Adds what an item needs.
#[tactic(auto, using(crate::proofs::Listing::listed))]
pub(crate) fn add_item(
    needs: &mut PlacedNeeds,
    alloc: Global,
    globals: &Globals,
    item: &Item,
) -> Result<(), Memory>
    requires { size_of_item item.now < 2 ^ 32 }
    ensures { OnOk result (needs.new ≡ needs.old ++ needs_of_item globals.now item.now) }
{
    match item {
        Item::Task { decl, .. } => add_whole_decl(needs, alloc, globals, decl),
        Item::Method(decl) => add_whole_decl(needs, alloc, globals, decl),
        Item::Cell(cell) => add_cell(needs, alloc, globals, cell),
        Item::Regions(_) => Ok(()),
    }
}
