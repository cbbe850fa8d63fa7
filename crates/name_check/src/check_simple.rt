//! The rules of names in statements that have no others inside them.
ghost use Rattle.std.specs.Prelude.{◌≡◌, not, OnOk};
ghost use Rattle.twe_ast.specs.Statement.{Return};
ghost use Rattle.name_check.specs.Sites.{sites_in, target_type};
ghost use Rattle.name_check.specs.inner.Failures.{first_of_sites, is_void};
ghost use Rattle.name_check.specs.inner.Room.{HasRoom};
ghost use Rattle.name_check.specs.inner.Simple.{after_simple, set_sites, simple_sites, task_sites};

use crate::binding::{Binding, Local, NameUse};
use crate::check_expr::{check_args, check_expr, count};
use crate::look::look_up;
use crate::names::Globals;
use crate::rule::NRule;
use crate::scope::BodyScope;
use crate::uses::{check_declared, check_use};
use std::alloc::Global;
use twe_ast::{Expr, LocalType, ReturnType, Stmt, StmtKind};
use twe_base::{Failure, Memory, Place, report_if};

/// The type that an assigned value needs: that of the local, and otherwise `int`.
fn target_type(binding: Option<Binding>) -> LocalType
    ensures { result ≡ target_type binding }
{
    match binding {
        Some(Binding::Local(Local::Variable { local_type, .. })) => local_type,
        _ => LocalType::Int,
    }
}

/// Whether nothing is returned.
pub fn is_void(returns: ReturnType) -> bool
    ensures { result ≡ is_void returns }
{
    match returns {
        ReturnType::Void => true,
        ReturnType::Int => false,
    }
}

/// Checks a statement that makes a task or waits for one.
#[tactic(auto, using(crate::proofs::FirstSites::sites))]
fn check_task(
    stmt: &Stmt,
    globals: &Globals,
    returns: ReturnType,
    scope: &BodyScope,
    first: &mut Option<Failure<NRule>>,
)
    ensures { first.new ≡ first_of_sites globals.now first.old (task_sites globals.now returns scope.now stmt.now) }
{
    let locals = &scope.locals;
    match &stmt.kind {
        StmtKind::Wait(wait) => {
            let name_use = NameUse::Future {
                join: wait.join,
                valued: false,
            };
            check_use(&wait.future, name_use, globals, locals, first);
        }
        StmtKind::Make {
            future,
            task,
            args,
            ..
        } => {
            let name_use = NameUse::Task { args: count(args) };
            check_declared(future, globals, locals, first);
            check_use(task, name_use, globals, locals, first);
            check_args(args, globals, locals, first);
        }
        StmtKind::LetWait { name, wait, .. } => {
            let name_use = NameUse::Future {
                join: wait.join,
                valued: true,
            };
            check_declared(name, globals, locals, first);
            check_use(&wait.future, name_use, globals, locals, first);
        }
        _ => {}
    }
}

/// Checks a statement that assigns a value.
#[tactic(auto, using(crate::proofs::FirstSites::sites))]
fn check_set(
    stmt: &Stmt,
    globals: &Globals,
    returns: ReturnType,
    scope: &BodyScope,
    first: &mut Option<Failure<NRule>>,
)
    ensures { first.new ≡ first_of_sites globals.now first.old (set_sites globals.now returns scope.now stmt.now) }
{
    let locals = &scope.locals;
    match &stmt.kind {
        StmtKind::Set { name, value } => {
            let wanted = target_type(look_up(globals, locals, &name.text));
            check_use(name, NameUse::Target, globals, locals, first);
            check_expr(value, Some(wanted), globals, locals, first);
        }
        StmtKind::SetAt {
            array,
            index,
            second: None,
            value,
        } => {
            check_use(array, NameUse::Array { indexes: 1 }, globals, locals, first);
            check_expr(index, Some(LocalType::Int), globals, locals, first);
            check_expr(value, Some(LocalType::Int), globals, locals, first);
        }
        StmtKind::SetAt {
            array,
            index,
            second: Some(second),
            value,
        } => {
            check_use(array, NameUse::Array { indexes: 2 }, globals, locals, first);
            check_expr(index, Some(LocalType::Int), globals, locals, first);
            check_expr(second, Some(LocalType::Int), globals, locals, first);
            check_expr(value, Some(LocalType::Int), globals, locals, first);
        }
        _ => {}
    }
}

/// Checks a `return` at this place.
#[tactic(auto, using(crate::proofs::FirstSites::sites))]
fn check_return(
    place: Place,
    value: &Option<Expr>,
    globals: &Globals,
    returns: ReturnType,
    scope: &BodyScope,
    first: &mut Option<Failure<NRule>>,
)
    ensures { first.new ≡ first_of_sites globals.now first.old (sites_in globals.now returns scope.now (Return place value.now)) }
{
    match value {
        None => report_if(first, !is_void(returns), NRule::N3, place),
        Some(value) => {
            report_if(first, is_void(returns), NRule::N3, value.place);
            check_expr(value, Some(LocalType::Int), globals, &scope.locals, first);
        }
    }
}

/// Checks a statement that has no others inside it.
#[tactic(auto, using(crate::proofs::FirstSites::sites))]
pub fn check_simple(
    stmt: &Stmt,
    globals: &Globals,
    returns: ReturnType,
    scope: &BodyScope,
    first: &mut Option<Failure<NRule>>,
)
    ensures { first.new ≡ first_of_sites globals.now first.old (simple_sites globals.now returns scope.now stmt.now) }
{
    let locals = &scope.locals;
    match &stmt.kind {
        StmtKind::Let {
            local_type,
            name,
            value,
            ..
        } => {
            check_declared(name, globals, locals, first);
            check_expr(value, Some(*local_type), globals, locals, first);
        }
        StmtKind::Return { place, value } => {
            check_return(*place, value, globals, returns, scope, first);
        }
        StmtKind::Print { value, .. } => {
            check_expr(value, Some(LocalType::Int), globals, locals, first);
        }
        StmtKind::Call { method, args } => {
            let name_use = NameUse::Method {
                args: count(args),
                valued: false,
            };
            check_use(method, name_use, globals, locals, first);
            check_args(args, globals, locals, first);
        }
        StmtKind::Set { .. } | StmtKind::SetAt { .. } => {
            check_set(stmt, globals, returns, scope, first);
        }
        _ => check_task(stmt, globals, returns, scope, first),
    }
}

/// Advances the scope past a statement that has no others inside it.
pub fn pass_simple(
    stmt: &Stmt,
    alloc: Global,
    globals: &Globals,
    scope: &mut BodyScope,
) -> Result<(), Memory>
    requires { HasRoom scope.old 1 }
    ensures { OnOk result (scope.new ≡ after_simple globals.now scope.old stmt.now) }
{
    match &stmt.kind {
        StmtKind::Block(_) | StmtKind::If(_) | StmtKind::While { .. } => Ok(()),
        StmtKind::Let {
            is_final,
            local_type,
            name,
            ..
        } => {
            scope.count();
            scope.declare_variable(alloc, &name.text, *local_type, *is_final)
        }
        StmtKind::LetWait { is_final, name, .. } => {
            scope.count();
            scope.declare_variable(alloc, &name.text, LocalType::Int, *is_final)
        }
        StmtKind::Make {
            future,
            task,
            spawned,
            ..
        } => {
            scope.count();
            scope.declare_future(alloc, globals, &future.text, &task.text, *spawned)
        }
        _ => {
            scope.count();
            Ok(())
        }
    }
}
