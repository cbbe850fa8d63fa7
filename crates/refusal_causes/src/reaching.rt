//! The ways to a point within statements.
ghost use Rattle.std.specs.Prelude.{◌≡◌};
ghost use Rattle.refusal_causes.specs.inner.Reached.{noted, reached, reached_all, reached_one};
ghost use Rattle.refusal_causes.specs.inner.Traced.{nowhere, traced, traced_all, traced_one};

use crate::tracing::trace_statement;
use crate::ways::OutWays;
use twe_program::{Arms, Block, Stmt, StmtKind};

/// The future, the point, and the point to which a return goes.
#[derive(Clone, Copy)]
pub struct Aim {
    /// The number of the future.
    pub future: u32,
    /// The number of the point.
    pub point: u32,
    /// The number of the point at the end of the body.
    pub end: u32,
}

/// Takes the shorter ones of the ways found and of these, if these are at the point.
pub fn note_ways(found: &mut OutWays, at: u32, aim: Aim, ways: OutWays)
    ensures { found.new ≡ noted aim.point at ways found.old }
{
    if at == aim.point {
        *found = found.or(ways);
    }
}

/// Adds the ways that come to the point within a statement to those found. Returns the ways through it.
#[cycle(reach)]
fn reach_statement(found: &mut OutWays, stmt: &Stmt, aim: Aim, ways: OutWays) -> OutWays
    ensures after { result ≡ traced aim.future stmt.now ways }
    ensures found { found.new ≡ reached aim.future aim.point aim.end stmt.now ways found.old }
{
    match &stmt.kind {
        StmtKind::Block(body) => {
            note_ways(found, stmt.point, aim, ways);
            reach_block(found, body, aim, ways)
        }
        StmtKind::If(arms) => {
            note_ways(found, stmt.point, aim, ways);
            reach_arms(found, arms, aim, ways)
        }
        StmtKind::While { body, .. } => {
            let head = trace_statement(stmt, aim.future, ways);
            note_ways(found, stmt.point, aim, head);
            reach_block(found, body, aim, head.step(stmt, aim.future));
            head
        }
        StmtKind::Return(_) => {
            note_ways(found, stmt.point, aim, ways);
            note_ways(found, aim.end, aim, ways);
            OutWays::nowhere()
        }
        _ => {
            note_ways(found, stmt.point, aim, ways);
            ways.step(stmt, aim.future)
        }
    }
}

/// Does the same for the statements of a block.
#[cycle(reach)]
pub fn reach_block(found: &mut OutWays, block: &Block, aim: Aim, ways: OutWays) -> OutWays
    ensures after { result ≡ traced_all aim.future block.now ways }
    ensures found { found.new ≡ reached_all aim.future aim.point aim.end block.now ways found.old }
{
    let mut ways = ways;
    for stmt in block.stmts.as_slice() {
        ways = reach_statement(found, stmt, aim, ways);
    }
    ways
}

/// Does the same for the branches.
#[cycle(reach)]
fn reach_arms(found: &mut OutWays, arms: &Arms, aim: Aim, ways: OutWays) -> OutWays
    ensures after { result ≡ traced_one aim.future nowhere arms.now ways }
    ensures found { found.new ≡ reached_one aim.future aim.point aim.end arms.now ways found.old }
{
    let mut after = OutWays::nowhere();
    for arm in arms.arms.as_slice() {
        after = after.or(reach_block(found, &arm.body, aim, ways));
    }
    match &arms.last {
        Some(body) => after.or(reach_block(found, body, aim, ways)),
        None => after.or(ways),
    }
}
