//! What statements without others inside them need, and what is there; and the scope after them.
ghost use Rattle.std.specs.Prelude.{◌≡◌, ◌∷◌, ◌++◌, OnOk};
ghost use Rattle.twe_ast.specs.Statement.{Return};
ghost use Rattle.name_check.specs.declared.binding.NameUse.TheVariants.{Task as TaskUse};
ghost use Rattle.name_check.specs.Asks.{asks_of_all, declares, uses};
ghost use Rattle.name_check.specs.Sites.{sites_in, target_type};
ghost use Rattle.name_check.specs.Types.{argument_count};
ghost use Rattle.name_check.specs.inner.Room.{HasRoom};
ghost use Rattle.name_check.specs.inner.Simple.{after_simple, set_sites, simple_sites, task_sites};
ghost use Rattle.name_causes.specs.Needs.{needs_at_sites, needs_of_asks};

use crate::expressions::{add_arguments, add_expression, add_new, add_use, count_of};
use crate::need::{NameNeed, PlacedNeed, PlacedNeeds};
use name_check::{Binding, BodyScope, Globals, Local, Locals, NameUse, look_up};
use std::alloc::Global;
use twe_ast::{Args, Expr, LocalType, Name, ReturnType, Stmt, StmtKind};
use twe_base::{Memory, Place};

/// The type that is needed of a value that is assigned to this.
fn target_type(target: Option<Binding>) -> LocalType
    ensures { result ≡ target_type target }
{
    if let Some(Binding::Local(Local::Variable { local_type, .. })) = target {
        local_type
    } else {
        LocalType::Int
    }
}

/// Adds what is needed by a future of this name with a task of this name and these arguments.
fn add_make(
    needs: &mut PlacedNeeds,
    globals: &Globals,
    locals: &Locals,
    returns: ReturnType,
    future: &Name,
    task: &Name,
    args: &Args,
) -> Result<(), Memory>
    ensures { OnOk result (needs.new ≡ needs.old ++ needs_of_asks globals.now locals.now returns
        (declares future.now ∷ uses task.now (TaskUse (argument_count args.now)) ∷ asks_of_all globals.now locals.now args.now)) }
{
    let name_use = NameUse::Task {
        args: count_of(args),
    };
    add_new(needs, globals, locals, returns, future)?;
    add_use(needs, globals, locals, returns, task, name_use)?;
    add_arguments(needs, globals, locals, returns, args)?;
    Ok(())
}

/// Adds what a statement needs that makes a task or waits for one.
#[tactic(auto, using(crate::proofs::Listing::listed))]
fn add_task(
    needs: &mut PlacedNeeds,
    globals: &Globals,
    returns: ReturnType,
    scope: &BodyScope,
    stmt: &Stmt,
) -> Result<(), Memory>
    ensures { OnOk result (needs.new ≡ needs.old
        ++ needs_at_sites globals.now (task_sites globals.now returns scope.now stmt.now)) }
{
    let locals = &scope.locals;
    match &stmt.kind {
        StmtKind::Make {
            future,
            task,
            args,
            ..
        } => add_make(needs, globals, locals, returns, future, task, args)?,
        StmtKind::LetWait { name, wait, .. } => {
            let name_use = NameUse::Future {
                join: wait.join,
                valued: true,
            };
            add_new(needs, globals, locals, returns, name)?;
            add_use(needs, globals, locals, returns, &wait.future, name_use)?;
        }
        StmtKind::Wait(wait) => {
            let name_use = NameUse::Future {
                join: wait.join,
                valued: false,
            };
            add_use(needs, globals, locals, returns, &wait.future, name_use)?;
        }
        _ => {}
    }
    Ok(())
}

/// Adds what a statement needs that assigns a value.
#[tactic(auto, using(crate::proofs::Listing::listed))]
fn add_assignment(
    needs: &mut PlacedNeeds,
    globals: &Globals,
    returns: ReturnType,
    scope: &BodyScope,
    stmt: &Stmt,
) -> Result<(), Memory>
    ensures { OnOk result (needs.new ≡ needs.old
        ++ needs_at_sites globals.now (set_sites globals.now returns scope.now stmt.now)) }
{
    let locals = &scope.locals;
    let int = Some(LocalType::Int);
    match &stmt.kind {
        StmtKind::Set { name, value } => {
            let wanted = Some(target_type(look_up(globals, locals, &name.text)));
            add_use(needs, globals, locals, returns, name, NameUse::Target)?;
            add_expression(needs, globals, locals, returns, value, wanted)?;
        }
        StmtKind::SetAt {
            array,
            index,
            second: None,
            value,
        } => {
            let name_use = NameUse::Array { indexes: 1 };
            add_use(needs, globals, locals, returns, array, name_use)?;
            add_expression(needs, globals, locals, returns, index, int)?;
            add_expression(needs, globals, locals, returns, value, int)?;
        }
        StmtKind::SetAt {
            array,
            index,
            second: Some(column),
            value,
        } => {
            let name_use = NameUse::Array { indexes: 2 };
            add_use(needs, globals, locals, returns, array, name_use)?;
            add_expression(needs, globals, locals, returns, index, int)?;
            add_expression(needs, globals, locals, returns, column, int)?;
            add_expression(needs, globals, locals, returns, value, int)?;
        }
        _ => {}
    }
    Ok(())
}

/// Adds what a `return` at this place needs.
#[tactic(auto, using(crate::proofs::Listing::listed))]
fn add_return(
    needs: &mut PlacedNeeds,
    globals: &Globals,
    returns: ReturnType,
    scope: &BodyScope,
    place: Place,
    value: &Option<Expr>,
) -> Result<(), Memory>
    ensures { OnOk result (needs.new ≡ needs.old
        ++ needs_at_sites globals.now (sites_in globals.now returns scope.now (Return place value.now))) }
{
    match value {
        Some(value) => {
            let valued = true;
            let need = NameNeed::Returned { valued, returns };
            needs.push(PlacedNeed {
                place: value.place,
                need,
            })?;
            let wanted = Some(LocalType::Int);
            add_expression(needs, globals, &scope.locals, returns, value, wanted)?;
            Ok(())
        }
        None => {
            let valued = false;
            let need = NameNeed::Returned { valued, returns };
            needs.push(PlacedNeed { place, need })
        }
    }
}

/// Adds what a statement needs that has no others inside it.
#[tactic(auto, using(crate::proofs::Listing::listed))]
pub(crate) fn add_simple(
    needs: &mut PlacedNeeds,
    globals: &Globals,
    returns: ReturnType,
    scope: &BodyScope,
    stmt: &Stmt,
) -> Result<(), Memory>
    ensures { OnOk result (needs.new ≡ needs.old ++ needs_at_sites globals.now
        (simple_sites globals.now returns scope.now stmt.now)) }
{
    let locals = &scope.locals;
    match &stmt.kind {
        StmtKind::Let {
            local_type,
            name,
            value,
            ..
        } => {
            let wanted = Some(*local_type);
            add_new(needs, globals, locals, returns, name)?;
            add_expression(needs, globals, locals, returns, value, wanted)?;
            Ok(())
        }
        StmtKind::Print { value, .. } => {
            let wanted = Some(LocalType::Int);
            add_expression(needs, globals, locals, returns, value, wanted)?;
            Ok(())
        }
        StmtKind::Return { place, value } => {
            add_return(needs, globals, returns, scope, *place, value)
        }
        StmtKind::Call { method, args } => {
            let name_use = NameUse::Method {
                args: count_of(args),
                valued: false,
            };
            add_use(needs, globals, locals, returns, method, name_use)?;
            add_arguments(needs, globals, locals, returns, args)?;
            Ok(())
        }
        StmtKind::Set { .. } | StmtKind::SetAt { .. } => {
            add_assignment(needs, globals, returns, scope, stmt)
        }
        _ => add_task(needs, globals, returns, scope, stmt),
    }
}

/// Advances the scope past a statement that has no others inside it.
pub(crate) fn leave_simple(
    scope: &mut BodyScope,
    alloc: Global,
    globals: &Globals,
    stmt: &Stmt,
) -> Result<(), Memory>
    requires { HasRoom scope.old 1 }
    ensures { OnOk result (scope.new ≡ after_simple globals.now scope.old stmt.now) }
{
    match &stmt.kind {
        StmtKind::Block(_) | StmtKind::If(_) | StmtKind::While { .. } => return Ok(()),
        _ => scope.count(),
    }
    match &stmt.kind {
        StmtKind::LetWait { is_final, name, .. } => {
            scope.declare_variable(alloc, &name.text, LocalType::Int, *is_final)
        }
        StmtKind::Make {
            future,
            task,
            spawned,
            ..
        } => scope.declare_future(alloc, globals, &future.text, &task.text, *spawned),
        StmtKind::Let {
            is_final,
            local_type,
            name,
            ..
        } => scope.declare_variable(alloc, &name.text, *local_type, *is_final),
        _ => Ok(()),
    }
}
