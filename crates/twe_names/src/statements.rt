//! The resolver, for statements, blocks and the arms of an `if`. Each call advances the scope past the part.
ghost use Rattle.std.specs.Prelude.{◌≡◌, IfOk, OnOk};
ghost use Rattle.name_check.specs.BodyScope.{after, after_all, after_arms, after_block};
ghost use Rattle.name_check.specs.Size.{statements_in, statements_in_all, statements_in_arms};
ghost use Rattle.name_check.specs.inner.Room.{HasRoom};
ghost use Rattle.twe_names.specs.BodyMeaning.{arms_of, statement_of, statements_of};

use crate::declaring::declaring_statement;
use crate::expressions::expression;
use crate::simple::simple_statement;
use name_check::{BodyScope, Globals};
use std::alloc::Global;
use twe_ast::{Arms as WrittenArms, Block as WrittenBlock, Stmt as Written, StmtKind as Kind};
use twe_base::Memory;
use twe_program::{Arm, Arms, Block, Stmt, StmtKind};

/// The meaning of a statement.
#[cycle(body)]
fn statement(
    written: &Written,
    alloc: Global,
    globals: &Globals,
    scope: &mut BodyScope,
) -> Result<Stmt, Memory>
    requires { HasRoom scope.old (statements_in written.now) }
    ensures meant { IfOk result (λ s. s ≡ statement_of globals.now scope.old written.now) }
    ensures walked { OnOk result (scope.new ≡ after globals.now scope.old written.now) }
{
    let point = scope.points;
    match &written.kind {
        Kind::Block(body) => {
            scope.count();
            let kind = StmtKind::Block(block(body, alloc, globals, scope)?);
            Ok(Stmt { point, kind })
        }
        Kind::If(choice) => {
            scope.count();
            let kind = StmtKind::If(arms(choice, alloc, globals, scope)?);
            Ok(Stmt { point, kind })
        }
        Kind::While {
            place,
            condition,
            body,
        } => {
            let condition = expression(condition, alloc, globals, &scope.locals)?;
            scope.count();
            let body = block(body, alloc, globals, scope)?;
            let kind = StmtKind::While {
                condition,
                body,
                place: *place,
            };
            Ok(Stmt { point, kind })
        }
        Kind::Let { .. } | Kind::Make { .. } | Kind::LetWait { .. } => {
            declaring_statement(written, alloc, globals, scope)
        }
        _ => {
            let stmt = simple_statement(written, alloc, globals, scope)?;
            scope.count();
            Ok(stmt)
        }
    }
}

/// The meaning of a block. After it, what it declares is out of scope.
#[cycle(body)]
#[tactic(auto, using(name_check::proofs::Rooms::seen_outside))]
fn block(
    written: &WrittenBlock,
    alloc: Global,
    globals: &Globals,
    scope: &mut BodyScope,
) -> Result<Block, Memory>
    requires { HasRoom scope.old (statements_in_all written.now) }
    ensures meant { IfOk result (λ block. block ≡ statements_of globals.now scope.old written.now) }
    ensures walked { OnOk result (scope.new ≡ after_block globals.now scope.old written.now) }
{
    let mark = scope.mark();
    let block = statements(written, alloc, globals, scope)?;
    scope.leave(mark);
    Ok(block)
}

/// The meaning of the statements of a block. What it declares is still in scope at their end.
#[cycle(body)]
pub fn statements(
    written: &WrittenBlock,
    alloc: Global,
    globals: &Globals,
    scope: &mut BodyScope,
) -> Result<Block, Memory>
    requires { HasRoom scope.old (statements_in_all written.now) }
    ensures meant { IfOk result (λ block. block ≡ statements_of globals.now scope.old written.now) }
    ensures walked { OnOk result (scope.new ≡ after_all globals.now scope.old written.now) }
{
    let mut stmts = Vec::with_capacity(alloc, written.stmts.len())?;
    for stmt in written.stmts.as_slice() {
        stmts.push(statement(stmt, alloc, globals, scope)?)?;
    }
    // The proof reads the parts of the block up to here.
    let _ = &written.close;
    Ok(Block { stmts })
}

/// The meaning of the arms of an `if`.
#[cycle(body)]
fn arms(
    written: &WrittenArms,
    alloc: Global,
    globals: &Globals,
    scope: &mut BodyScope,
) -> Result<Arms, Memory>
    requires { HasRoom scope.old (statements_in_arms written.now) }
    ensures meant { IfOk result (λ choice. choice ≡ arms_of globals.now scope.old written.now) }
    ensures walked { OnOk result (scope.new ≡ after_arms globals.now scope.old written.now) }
{
    let mut arms = Vec::with_capacity(alloc, written.arms.len())?;
    for arm in written.arms.as_slice() {
        let condition = expression(&arm.condition, alloc, globals, &scope.locals)?;
        let body = block(&arm.body, alloc, globals, scope)?;
        arms.push(Arm { condition, body })?;
    }
    match &written.last {
        None => Ok(Arms { arms, last: None }),
        Some(body) => {
            let last = Some(block(body, alloc, globals, scope)?);
            Ok(Arms { arms, last })
        }
    }
}
