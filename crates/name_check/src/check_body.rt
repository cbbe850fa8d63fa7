//! The rules of names in the statements of a body.
#![tactic(auto, using(crate::proofs::Bodies::body_steps))]

ghost use Rattle.std.specs.Prelude.{◌≡◌, OnOk};
ghost use Rattle.name_check.specs.BodyScope.{after, after_arms, after_block};
ghost use Rattle.name_check.specs.Size.{statements_in, statements_in_all, statements_in_arms};
ghost use Rattle.name_check.specs.Sites.{sites_in, sites_in_all, sites_in_arms};
ghost use Rattle.name_check.specs.inner.Failures.{first_of_sites};
ghost use Rattle.name_check.specs.inner.Room.{HasRoom};

use crate::check_expr::check_expr;
use crate::check_simple::{check_simple, pass_simple};
use crate::names::Globals;
use crate::rule::NRule;
use crate::scope::BodyScope;
use std::alloc::Global;
use twe_ast::{Arms, Block, LocalType, ReturnType, Stmt, StmtKind};
use twe_base::{Failure, Memory};

/// Checks a statement with all of its parts, and advances the scope past it.
#[cycle(body)]
fn check_stmt(
    stmt: &Stmt,
    alloc: Global,
    globals: &Globals,
    returns: ReturnType,
    scope: &mut BodyScope,
    first: &mut Option<Failure<NRule>>,
) -> Result<(), Memory>
    requires { HasRoom scope.old (statements_in stmt.now) }
    ensures passed { OnOk result (scope.new ≡ after globals.now scope.old stmt.now) }
    ensures reported { OnOk result (first.new ≡ first_of_sites globals.now first.old
        (sites_in globals.now returns scope.old stmt.now)) }
{
    match &stmt.kind {
        StmtKind::Block(body) => {
            scope.count();
            check_block(body, alloc, globals, returns, scope, first)
        }
        StmtKind::If(arms) => {
            scope.count();
            check_arms(arms, alloc, globals, returns, scope, first)
        }
        StmtKind::While {
            condition,
            body,
            ..
        } => {
            let boolean = Some(LocalType::Boolean);
            check_expr(condition, boolean, globals, &scope.locals, first);
            scope.count();
            check_block(body, alloc, globals, returns, scope, first)
        }
        _ => {
            check_simple(stmt, globals, returns, scope, first);
            pass_simple(stmt, alloc, globals, scope)
        }
    }
}

/// Checks the statements of a block. What they declare is out of scope after it.
#[cycle(body)]
pub fn check_block(
    block: &Block,
    alloc: Global,
    globals: &Globals,
    returns: ReturnType,
    scope: &mut BodyScope,
    first: &mut Option<Failure<NRule>>,
) -> Result<(), Memory>
    requires { HasRoom scope.old (statements_in_all block.now) }
    ensures passed { OnOk result (scope.new ≡ after_block globals.now scope.old block.now) }
    ensures reported { OnOk result (first.new ≡ first_of_sites globals.now first.old
        (sites_in_all globals.now returns scope.old block.now)) }
{
    let mark = scope.mark();
    for stmt in block.stmts.as_slice() {
        check_stmt(stmt, alloc, globals, returns, scope, first)?;
    }
    scope.leave(mark);
    Ok(())
}

/// The same for the arms of an `if`.
#[cycle(body)]
fn check_arms(
    arms: &Arms,
    alloc: Global,
    globals: &Globals,
    returns: ReturnType,
    scope: &mut BodyScope,
    first: &mut Option<Failure<NRule>>,
) -> Result<(), Memory>
    requires { HasRoom scope.old (statements_in_arms arms.now) }
    ensures passed { OnOk result (scope.new ≡ after_arms globals.now scope.old arms.now) }
    ensures reported { OnOk result (first.new ≡ first_of_sites globals.now first.old
        (sites_in_arms globals.now returns scope.old arms.now)) }
{
    for arm in arms.arms.as_slice() {
        let boolean = Some(LocalType::Boolean);
        check_expr(&arm.condition, boolean, globals, &scope.locals, first);
        check_block(&arm.body, alloc, globals, returns, scope, first)?;
    }
    match &arms.last {
        Some(body) => check_block(body, alloc, globals, returns, scope, first),
        None => Ok(()),
    }
}
