//! The ways through statements.
ghost use Rattle.std.specs.Prelude.{◌≡◌};
ghost use Rattle.refusal_causes.specs.inner.Traced.{nowhere, traced, traced_all, traced_one};

use crate::ways::OutWays;
use twe_program::{Arms, Block, Stmt, StmtKind};

/// The shortest ways through a statement, from those before it. After a loop they are those before it or
/// by one turn.
#[cycle(trace)]
pub fn trace_statement(stmt: &Stmt, future: u32, ways: OutWays) -> OutWays
    ensures { result ≡ traced future stmt.now ways }
{
    match &stmt.kind {
        StmtKind::Block(body) => trace_block(body, future, ways),
        StmtKind::If(arms) => trace_arms(arms, future, ways),
        StmtKind::While { body, .. } => {
            let turned = trace_block(body, future, ways.step(stmt, future));
            ways.or(turned)
        }
        StmtKind::Return(_) => OutWays::nowhere(),
        _ => ways.step(stmt, future),
    }
}

/// Does the same for the statements of a block.
#[cycle(trace)]
pub fn trace_block(block: &Block, future: u32, ways: OutWays) -> OutWays
    ensures { result ≡ traced_all future block.now ways }
{
    let mut ways = ways;
    for stmt in block.stmts.as_slice() {
        ways = trace_statement(stmt, future, ways);
    }
    ways
}

/// Does the same for the branches: the ways through any of them.
#[cycle(trace)]
fn trace_arms(arms: &Arms, future: u32, ways: OutWays) -> OutWays
    ensures { result ≡ traced_one future nowhere arms.now ways }
{
    let mut after = OutWays::nowhere();
    for arm in arms.arms.as_slice() {
        after = after.or(trace_block(&arm.body, future, ways));
    }
    match &arms.last {
        Some(body) => after.or(trace_block(body, future, ways)),
        None => after.or(ways),
    }
}
