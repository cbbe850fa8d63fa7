//! The resolver, for statements that have no others inside them and declare nothing.
ghost use Rattle.std.specs.Prelude.{◌≡◌, true, IfOk, Option};
ghost use Rattle.twe_program.specs.Statement.{SetArray, SetGrid, Wait};
ghost use Rattle.name_check.specs.Names.{binding_of};
ghost use Rattle.twe_names.specs.BodyMeaning.{cells_number, expression_of, future_number, set_of, statement_of, value_if};
ghost use Rattle.twe_names.specs.inner.Kinds.{is_simple};

use crate::expressions::{arguments, expression};
use crate::numbers::{cells_number, future_number, method_number};
use name_check::{Binding, BodyScope, Globals, Local, Locals, look_up};
use std::alloc::Global;
use twe_ast::{Expr as WrittenExpr, Name, Stmt as Written, StmtKind as Kind, WaitCall};
use twe_base::{Memory, Place};
use twe_program::{Expr, Stmt, StmtKind};

/// The assignment of a value to the binding of a name.
fn assignment(point: u32, binding: Option<Binding>, value: Expr, place: Place) -> Stmt
    ensures { result ≡ set_of point binding value place }
{
    match binding {
        Some(Binding::Local(Local::Variable { number, .. })) => Stmt {
            point,
            kind: StmtKind::Set { var: number, value },
        },
        other => Stmt {
            point,
            kind: StmtKind::SetCell {
                cell: cells_number(other),
                value,
                place,
            },
        },
    }
}

/// The assignment to an element of an array.
fn array_assignment(
    alloc: Global,
    globals: &Globals,
    scope: &BodyScope,
    array: &Name,
    index: &WrittenExpr,
    value: &WrittenExpr,
) -> Result<Stmt, Memory>
    ensures { IfOk result (λ s. s ≡ SetArray scope.now.points
        (cells_number (binding_of globals.now scope.now.locals array.now.text))
        (expression_of globals.now scope.now.locals index.now) (expression_of globals.now scope.now.locals value.now)
        array.now.place) }
{
    let kind = StmtKind::SetAt {
        array: cells_number(look_up(globals, &scope.locals, &array.text)),
        index: expression(index, alloc, globals, &scope.locals)?,
        second: None,
        value: expression(value, alloc, globals, &scope.locals)?,
        place: array.place,
    };
    Ok(Stmt {
        point: scope.points,
        kind,
    })
}

/// The assignment to an element of a grid.
fn grid_assignment(
    alloc: Global,
    globals: &Globals,
    scope: &BodyScope,
    array: &Name,
    row: &WrittenExpr,
    column: &WrittenExpr,
    value: &WrittenExpr,
) -> Result<Stmt, Memory>
    ensures { IfOk result (λ s. s ≡ SetGrid scope.now.points
        (cells_number (binding_of globals.now scope.now.locals array.now.text))
        (expression_of globals.now scope.now.locals row.now) (expression_of globals.now scope.now.locals column.now)
        (expression_of globals.now scope.now.locals value.now) array.now.place) }
{
    let kind = StmtKind::SetAt {
        array: cells_number(look_up(globals, &scope.locals, &array.text)),
        index: expression(row, alloc, globals, &scope.locals)?,
        second: Some(expression(column, alloc, globals, &scope.locals)?),
        value: expression(value, alloc, globals, &scope.locals)?,
        place: array.place,
    };
    Ok(Stmt {
        point: scope.points,
        kind,
    })
}

/// The value that is returned, if there is one.
fn returned(
    value: &Option<WrittenExpr>,
    alloc: Global,
    globals: &Globals,
    locals: &Locals,
) -> Result<Option<Expr>, Memory>
    ensures { IfOk result (λ v. v ≡ value_if globals.now locals.now value.now) }
{
    match value {
        None => Ok(None),
        Some(value) => Ok(Some(expression(value, alloc, globals, locals)?)),
    }
}

/// The statement that waits for a task, with the local that takes its value, if one does.
pub fn waiting(
    globals: &Globals,
    locals: &Locals,
    point: u32,
    wait: &WaitCall,
    into: Option<u32>,
) -> Stmt
    ensures { result ≡ Wait point
        (future_number (binding_of globals.now locals.now wait.now.future.text))
        wait.now.join into wait.now.future.place }
{
    let kind = StmtKind::Wait {
        future: future_number(look_up(globals, locals, &wait.future.text)),
        join: wait.join,
        into,
        place: wait.future.place,
    };
    Stmt { point, kind }
}

/// The meaning of a statement that has no others inside it and declares nothing.
pub fn simple_statement(
    written: &Written,
    alloc: Global,
    globals: &Globals,
    scope: &BodyScope,
) -> Result<Stmt, Memory>
    requires { is_simple written.now ≡ true }
    ensures { IfOk result (λ s. s ≡ statement_of globals.now scope.now written.now) }
{
    let point = scope.points;
    let locals = &scope.locals;
    match &written.kind {
        Kind::Set { name, value } => {
            let binding = look_up(globals, locals, &name.text);
            let value = expression(value, alloc, globals, locals)?;
            Ok(assignment(point, binding, value, name.place))
        }
        Kind::SetAt {
            array,
            index,
            second: None,
            value,
        } => array_assignment(alloc, globals, scope, array, index, value),
        Kind::SetAt {
            array,
            index,
            second: Some(column),
            value,
        } => grid_assignment(alloc, globals, scope, array, index, column, value),
        Kind::Return { value, .. } => {
            let kind = StmtKind::Return(returned(value, alloc, globals, locals)?);
            Ok(Stmt { point, kind })
        }
        Kind::Print { place, value } => {
            let value = expression(value, alloc, globals, locals)?;
            let kind = StmtKind::Print {
                value,
                place: *place,
            };
            Ok(Stmt { point, kind })
        }
        Kind::Call { method, args } => {
            let kind = StmtKind::Call {
                method: method_number(look_up(globals, locals, &method.text)),
                args: arguments(args, alloc, globals, locals)?,
                place: method.place,
            };
            Ok(Stmt { point, kind })
        }
        Kind::Wait(wait) => Ok(waiting(globals, locals, point, wait, None)),
        _ => unreachable!(),
    }
}
