//! What the statements of a body need, with all of their parts, and what is there.
#![tactic(auto, using(crate::proofs::Walking::body_steps))]

ghost use Rattle.std.specs.Prelude.{◌≡◌, ◌++◌, OnOk, Some};
ghost use Rattle.twe_ast.specs.declared.stmt.LocalType.TheVariants.{Boolean as BooleanType};
ghost use Rattle.name_check.specs.Asks.{asks_of};
ghost use Rattle.name_check.specs.BodyScope.{after, after_arms, after_block};
ghost use Rattle.name_check.specs.Size.{statements_in, statements_in_all, statements_in_arms};
ghost use Rattle.name_check.specs.Sites.{sites_at, sites_in, sites_in_all, sites_in_arms};
ghost use Rattle.name_check.specs.inner.Room.{HasRoom};
ghost use Rattle.name_causes.specs.Needs.{needs_at_sites};

use crate::expressions::add_expression;
use crate::need::PlacedNeeds;
use crate::statements::{add_simple, leave_simple};
use name_check::{BodyScope, Globals};
use std::alloc::Global;
use twe_ast::{Arms, Block, Expr, LocalType, ReturnType, Stmt, StmtKind};
use twe_base::Memory;

/// Adds what a condition needs.
fn add_condition(
    needs: &mut PlacedNeeds,
    globals: &Globals,
    returns: ReturnType,
    scope: &BodyScope,
    condition: &Expr,
) -> Result<(), Memory>
    ensures { OnOk result (needs.new ≡ needs.old ++ needs_at_sites globals.now
        (sites_at scope.now.locals returns (asks_of globals.now scope.now.locals (Some BooleanType) condition.now))) }
{
    let wanted = Some(LocalType::Boolean);
    add_expression(needs, globals, &scope.locals, returns, condition, wanted)?;
    Ok(())
}

/// Adds what a statement needs, and advances the scope past it.
#[cycle(body)]
fn add_statement(
    needs: &mut PlacedNeeds,
    scope: &mut BodyScope,
    alloc: Global,
    globals: &Globals,
    returns: ReturnType,
    stmt: &Stmt,
) -> Result<(), Memory>
    requires { HasRoom scope.old (statements_in stmt.now) }
    ensures passed { OnOk result (scope.new ≡ after globals.now scope.old stmt.now) }
    ensures listed { OnOk result (needs.new ≡ needs.old
        ++ needs_at_sites globals.now (sites_in globals.now returns scope.old stmt.now)) }
{
    match &stmt.kind {
        StmtKind::While {
            condition,
            body,
            ..
        } => {
            add_condition(needs, globals, returns, scope, condition)?;
            scope.count();
            add_block(needs, scope, alloc, globals, returns, body)
        }
        StmtKind::If(arms) => {
            scope.count();
            add_arms(needs, scope, alloc, globals, returns, arms)
        }
        StmtKind::Block(body) => {
            scope.count();
            add_block(needs, scope, alloc, globals, returns, body)
        }
        _ => {
            add_simple(needs, globals, returns, scope, stmt)?;
            leave_simple(scope, alloc, globals, stmt)
        }
    }
}

/// Adds what the statements of a block need. What they declare is out of scope after it.
#[cycle(body)]
pub(crate) fn add_block(
    needs: &mut PlacedNeeds,
    scope: &mut BodyScope,
    alloc: Global,
    globals: &Globals,
    returns: ReturnType,
    block: &Block,
) -> Result<(), Memory>
    requires { HasRoom scope.old (statements_in_all block.now) }
    ensures passed { OnOk result (scope.new ≡ after_block globals.now scope.old block.now) }
    ensures listed { OnOk result (needs.new ≡ needs.old
        ++ needs_at_sites globals.now (sites_in_all globals.now returns scope.old block.now)) }
{
    let mark = scope.mark();
    for stmt in block.stmts.as_slice() {
        add_statement(needs, scope, alloc, globals, returns, stmt)?;
    }
    scope.leave(mark);
    Ok(())
}

/// The same of the arms of an `if`.
#[cycle(body)]
fn add_arms(
    needs: &mut PlacedNeeds,
    scope: &mut BodyScope,
    alloc: Global,
    globals: &Globals,
    returns: ReturnType,
    arms: &Arms,
) -> Result<(), Memory>
    requires { HasRoom scope.old (statements_in_arms arms.now) }
    ensures passed { OnOk result (scope.new ≡ after_arms globals.now scope.old arms.now) }
    ensures listed { OnOk result (needs.new ≡ needs.old ++ needs_at_sites globals.now
        (sites_in_arms globals.now returns scope.old arms.now)) }
{
    for arm in arms.arms.as_slice() {
        add_condition(needs, globals, returns, scope, &arm.condition)?;
        add_block(needs, scope, alloc, globals, returns, &arm.body)?;
    }
    match &arms.last {
        None => Ok(()),
        Some(body) => add_block(needs, scope, alloc, globals, returns, body),
    }
}
