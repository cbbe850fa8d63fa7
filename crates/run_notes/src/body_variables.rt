//! The variables of a body, and which of them are in scope at a place.
ghost use Rattle.std.specs.Prelude.{◌≡◌, ◌∷◌, [], ◌++◌, IfOk, OnOk, map};
ghost use Rattle.twe_ast.specs.Expression.{expression};
ghost use Rattle.explain_pages.specs.names.Declaring.{stands_before};
ghost use Rattle.explain_pages.specs.names.Variables.{is_same_place};
ghost use Rattle.run_notes.specs.BodyVariables.{body_variables_at, body_variables_of, is_boolean, local_at, locals_by, locals_in, locals_of, parameter, stands_in, stands_in_some};

use explain_pages::{is_same_place, stands_before};
use std::alloc::Global;
use twe_ast::{Args, Arms, Block, Decl, Expr, ExprKind, Item, LocalType, Name, Stmt, StmtKind};
use twe_base::{List, Memory, Place};

/// A parameter or a local of a body.
#[derive(Debug, Drop)]
pub(crate) struct BodyVariable {
    /// Its name, where it is declared.
    pub name: Name,
    /// Whether it holds a truth value, and not a number.
    pub boolean: bool,
    /// Whether it is in scope at the place that was asked for.
    pub in_scope: bool,
}

/// Whether an array, a call or an operator of the expression stands at the place.
#[cycle(standing)]
fn stands_in(expr: &Expr, place: Place) -> bool
    ensures { result ≡ stands_in place expr.now }
{
    match &expr.kind {
        ExprKind::Lit(_) | ExprKind::Truth(_) | ExprKind::Name(_) => false,
        ExprKind::At {
            array,
            index,
            second: None,
        } => is_same_place(array.place, place) || stands_in(index, place),
        ExprKind::At {
            array,
            index,
            second: Some(column),
        } => {
            is_same_place(array.place, place)
                || (stands_in(index, place) || stands_in(column, place))
        }
        ExprKind::Call { method, args } => {
            is_same_place(method.place, place) || stands_in_some(args, place)
        }
        ExprKind::Neg(operand) | ExprKind::Not(operand) => stands_in(operand, place),
        ExprKind::Bin {
            left,
            right,
            place: operator,
            ..
        } => {
            is_same_place(*operator, place) || (stands_in(left, place) || stands_in(right, place))
        }
    }
}

/// The same of one of the arguments.
#[cycle(standing)]
fn stands_in_some(args: &Args, place: Place) -> bool
    ensures { result ≡ stands_in_some place args.now }
{
    for expr in args.items.as_slice() {
        if stands_in(expr, place) {
            return true;
        }
    }
    false
}

/// Whether a local of this type holds a truth value.
fn is_boolean(local_type: LocalType) -> bool
    ensures { result ≡ is_boolean local_type }
{
    match local_type {
        LocalType::Int => false,
        LocalType::Boolean => true,
    }
}

/// A copy of a name.
fn copied(alloc: Global, name: &Name) -> Result<Name, Memory>
    ensures { IfOk result (λ copy. copy ≡ name.now) }
{
    Ok(Name {
        text: name.text.copy(alloc)?,
        place: name.place,
    })
}

/// A local of a block that ends at `close`; `within` says whether the place stands in its declaration.
fn local_at(
    alloc: Global,
    place: Place,
    close: Place,
    name: &Name,
    boolean: bool,
    within: bool,
) -> Result<BodyVariable, Memory>
    ensures { IfOk result (λ local. local ≡ local_at place close name.now boolean within) }
{
    let in_scope = stands_before(name.place, place) && (stands_before(place, close) && !within);
    Ok(BodyVariable {
        name: copied(alloc, name)?,
        boolean,
        in_scope,
    })
}

/// Adds the locals that a statement declares, in a block that ends at `close`.
#[cycle(declaring)]
fn add_locals(
    stmt: &Stmt,
    variables: &mut List<BodyVariable>,
    alloc: Global,
    place: Place,
    close: Place,
) -> Result<(), Memory>
    ensures { OnOk result (variables.new ≡ variables.old ++ locals_of place close stmt.now) }
{
    match &stmt.kind {
        StmtKind::Block(body) => add_locals_in(body, variables, alloc, place),
        StmtKind::Let {
            local_type,
            name,
            value,
            ..
        } => {
            let within = stands_in(value, place);
            let boolean = is_boolean(*local_type);
            variables.push(local_at(alloc, place, close, name, boolean, within)?)
        }
        StmtKind::If(arms) => add_locals_by(arms, variables, alloc, place),
        StmtKind::While { body, .. } => add_locals_in(body, variables, alloc, place),
        StmtKind::LetWait { name, wait, .. } => {
            let within = is_same_place(wait.future.place, place);
            variables.push(local_at(alloc, place, close, name, false, within)?)
        }
        _ => Ok(()),
    }
}

/// Adds those of a block.
#[cycle(declaring)]
#[tactic(auto, using(name_check::proofs::Bodies::close_is))]
fn add_locals_in(
    block: &Block,
    variables: &mut List<BodyVariable>,
    alloc: Global,
    place: Place,
) -> Result<(), Memory>
    ensures { OnOk result (variables.new ≡ variables.old ++ locals_in place block.now) }
{
    for stmt in block.stmts.as_slice() {
        add_locals(stmt, variables, alloc, place, block.close)?;
    }
    Ok(())
}

/// Adds those of the arms of an `if`.
#[cycle(declaring)]
fn add_locals_by(
    arms: &Arms,
    variables: &mut List<BodyVariable>,
    alloc: Global,
    place: Place,
) -> Result<(), Memory>
    ensures { OnOk result (variables.new ≡ variables.old ++ locals_by place arms.now) }
{
    for arm in arms.arms.as_slice() {
        add_locals_in(&arm.body, variables, alloc, place)?;
    }
    match &arms.last {
        Some(body) => add_locals_in(body, variables, alloc, place),
        None => Ok(()),
    }
}

/// A parameter, which is an `int`.
fn parameter(alloc: Global, name: &Name) -> Result<BodyVariable, Memory>
    ensures { IfOk result (λ variable. variable ≡ parameter name.now) }
{
    Ok(BodyVariable {
        name: copied(alloc, name)?,
        boolean: false,
        in_scope: true,
    })
}

/// Adds parameters.
fn add_parameters(
    variables: &mut List<BodyVariable>,
    alloc: Global,
    names: &[Name],
) -> Result<(), Memory>
    ensures { OnOk result (variables.new ≡ variables.old ++ map parameter names.now) }
{
    for name in names {
        variables.push(parameter(alloc, name)?)?;
    }
    Ok(())
}

/// The variables of a declaration by their numbers: its parameters, and then its locals.
fn body_variables_of(alloc: Global, place: Place, decl: &Decl) -> Result<List<BodyVariable>, Memory>
    ensures { IfOk result (λ variables. variables ≡ body_variables_of place decl.now) }
{
    let mut variables = List::new(alloc);
    add_parameters(&mut variables, alloc, decl.params.as_slice())?;
    add_locals_in(&decl.body, &mut variables, alloc, place)?;
    Ok(variables)
}

/// Those of the first declaration whose name is at the place `declared`; none if there is none.
pub(crate) fn body_variables_at(
    alloc: Global,
    place: Place,
    declared: Place,
    items: &[Item],
) -> Result<List<BodyVariable>, Memory>
    ensures { IfOk result (λ variables. variables ≡ body_variables_at place declared items.now) }
{
    for item in items {
        match item {
            Item::Method(decl) | Item::Task { decl, .. } => {
                if is_same_place(decl.name.place, declared) {
                    return body_variables_of(alloc, place, decl);
                }
            }
            Item::Regions(_) | Item::Cell(_) => {}
        }
    }
    Ok(List::new(alloc))
}
