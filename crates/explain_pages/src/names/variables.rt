//! The names of the variables of a body, by their numbers.
ghost use Rattle.std.specs.Prelude.{◌≡◌, ◌∷◌, [], ◌++◌, IfOk, OnOk};
ghost use Rattle.explain_pages.specs.names.Variables.{is_same_place, locals_named, locals_named_by, locals_named_in, variables_at, variables_of};

use std::alloc::Global;
use twe_ast::{Arms, Block, Decl, Item, Name, Stmt, StmtKind};
use twe_base::{List, Memory, Place};

/// Names in order.
pub type VariableNames = List<Name>;

/// Whether the places are the same.
pub fn is_same_place(place: Place, other: Place) -> bool
    ensures { result ≡ is_same_place place other }
{
    place.line == other.line && place.col == other.col
}

/// Adds a name.
fn add_name(names: &mut VariableNames, alloc: Global, name: &Name) -> Result<(), Memory>
    ensures { OnOk result (names.new ≡ names.old ++ name.now ∷ []) }
{
    let text = name.text.copy(alloc)?;
    names.push(Name {
        text,
        place: name.place,
    })
}

/// Adds the names of the locals that a statement declares.
#[cycle(naming)]
fn add_locals(stmt: &Stmt, names: &mut VariableNames, alloc: Global) -> Result<(), Memory>
    ensures { OnOk result (names.new ≡ names.old ++ locals_named stmt.now) }
{
    match &stmt.kind {
        StmtKind::Block(body) => add_locals_in(body, names, alloc),
        StmtKind::Let { name, .. } => add_name(names, alloc, name),
        StmtKind::If(arms) => add_locals_by(arms, names, alloc),
        StmtKind::While { body, .. } => add_locals_in(body, names, alloc),
        StmtKind::LetWait { name, .. } => add_name(names, alloc, name),
        _ => Ok(()),
    }
}

/// Adds those of a block.
#[cycle(naming)]
#[tactic(auto, using(name_check::proofs::Bodies::close_is))]
fn add_locals_in(block: &Block, names: &mut VariableNames, alloc: Global) -> Result<(), Memory>
    ensures { OnOk result (names.new ≡ names.old ++ locals_named_in block.now) }
{
    for stmt in block.stmts.as_slice() {
        add_locals(stmt, names, alloc)?;
    }
    Ok(())
}

/// Adds those of the arms of an `if`.
#[cycle(naming)]
fn add_locals_by(arms: &Arms, names: &mut VariableNames, alloc: Global) -> Result<(), Memory>
    ensures { OnOk result (names.new ≡ names.old ++ locals_named_by arms.now) }
{
    for arm in arms.arms.as_slice() {
        add_locals_in(&arm.body, names, alloc)?;
    }
    match &arms.last {
        Some(body) => add_locals_in(body, names, alloc),
        None => Ok(()),
    }
}

/// Adds the names of parameters.
fn add_params(names: &mut VariableNames, alloc: Global, params: &[Name]) -> Result<(), Memory>
    ensures { OnOk result (names.new ≡ names.old ++ params.now) }
{
    for name in params {
        add_name(names, alloc, name)?;
    }
    Ok(())
}

/// The names of the parameters of a declaration, and then those of its locals.
fn variables_of(alloc: Global, decl: &Decl) -> Result<VariableNames, Memory>
    ensures { IfOk result (λ names. names ≡ variables_of decl.now) }
{
    let mut names = VariableNames::new(alloc);
    add_params(&mut names, alloc, decl.params.as_slice())?;
    add_locals_in(&decl.body, &mut names, alloc)?;
    Ok(names)
}

/// Those of the first declaration whose name is at the place.
pub fn variables_at(alloc: Global, items: &[Item], place: Place) -> Result<VariableNames, Memory>
    ensures { IfOk result (λ names. names ≡ variables_at items.now place) }
{
    for item in items {
        match item {
            Item::Method(decl) | Item::Task { decl, .. } => {
                if is_same_place(decl.name.place, place) {
                    return variables_of(alloc, decl);
                }
            }
            Item::Regions(_) | Item::Cell(_) => {}
        }
    }
    Ok(VariableNames::new(alloc))
}
