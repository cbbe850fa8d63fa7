//! Which bodies can't end without a `return`.
ghost use Rattle.std.specs.Prelude.{◌≡◌};
ghost use Rattle.name_check.specs.Ends as ends;

use twe_ast::{Arms, Block, Expr, ExprKind, Stmt, StmtKind};
use twe_base::Place;

/// Whether an expression is the literal `true`.
fn is_true(expr: &Expr) -> bool
    ensures { result ≡ ends.is_literal_true expr.now }
{
    match &expr.kind {
        ExprKind::Truth(value) => *value,
        _ => false,
    }
}

/// Whether a statement ends the body.
#[cycle(ends)]
fn stmt_ends(stmt: &Stmt) -> bool
    ensures { result ≡ ends.always_returns stmt.now }
{
    match &stmt.kind {
        StmtKind::Block(body) => block_ends(body),
        StmtKind::If(arms) => arms_end(arms),
        StmtKind::While { condition, .. } => is_true(condition),
        StmtKind::Return { .. } => true,
        _ => false,
    }
}

/// Whether a statement of the block ends the body.
#[cycle(ends)]
#[tactic(auto, using(crate::proofs::Bodies::close_is))]
pub fn block_ends(block: &Block) -> bool
    ensures { result ≡ ends.one_ends block.now }
{
    for stmt in block.stmts.as_slice() {
        if stmt_ends(stmt) {
            return true;
        }
    }
    false
}

/// Whether there is a last `else`, and each block ends the body.
#[cycle(ends)]
fn arms_end(arms: &Arms) -> bool
    ensures { result ≡ ends.all_end arms.now }
{
    for arm in arms.arms.as_slice() {
        if !block_ends(&arm.body) {
            return false;
        }
    }
    match &arms.last {
        Some(body) => block_ends(body),
        None => false,
    }
}

/// The place of the brace that closes a block.
#[tactic(auto, using(crate::proofs::Bodies::close_is))]
pub fn close_of(block: &Block) -> Place
    ensures { result ≡ ends.close_of block.now }
{
    block.close
}
