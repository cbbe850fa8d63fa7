//! How the positions of a body are turned back into a continuation.
ghost use Rattle.std.specs.Prelude.{◌≡◌, IfOk, drop, option_copied, slice_get};
ghost use Rattle.twe_program.specs.Statement.{statements_of};
ghost use Rattle.seg_meaning.specs.Remaining.{block_at, block_of, branch_of, last_of_first};
ghost use Rattle.seg_exec.specs.inner.steps.Unfolded.{again_in, with_unfolded};
ghost use Rattle.seg_exec.specs.inner.steps.Views.{config_of};

use crate::steps::continuation::Continuation;
use crate::steps::machine::Machine;
use seg_meaning::Position;
use twe_base::Memory;
use twe_program::{Arm, Arms, Block, Stmt, StmtKind};

/// The statement at an index of a block, if there is one.
fn statement_at(stmts: &[Stmt], at: usize) -> Option<&Stmt>
    ensures { option_copied result ≡ slice_get stmts.now at }
{
    stmts.get(at)
}

/// The last of the first statements of a block, if there is one.
fn last_of_first(stmts: &[Stmt], count: usize) -> Option<&Stmt>
    ensures { option_copied result ≡ last_of_first count (statements_of stmts.now) }
{
    if count == 0 {
        None
    } else {
        statement_at(stmts, count - 1)
    }
}

/// The arm of this number, if there is one.
fn arm_at(arms: &[Arm], block: usize) -> Option<&Arm>
    ensures { option_copied result ≡ slice_get arms.now block }
{
    arms.get(block)
}

/// The statements of a block.
fn statements_in(block: &Block) -> &[Stmt]
    ensures { statements_of result.now ≡ block.now }
{
    block.stmts.as_slice()
}

/// The branch of this number of an `if`.
fn branch(arms: &Arms, block: usize) -> &[Stmt]
    ensures { statements_of result.now ≡ branch_of block arms.now }
{
    match arm_at(arms.arms.as_slice(), block) {
        Some(arm) => statements_in(&arm.body),
        None => match &arms.last {
            Some(body) => statements_in(body),
            None => &[],
        },
    }
}

/// The block of this number in a statement.
fn block_in(stmt: Option<&Stmt>, block: usize) -> &[Stmt]
    ensures { statements_of result.now ≡ block_of block (option_copied stmt.entry) }
{
    let Some(stmt) = stmt else {
        return &[];
    };
    match &stmt.kind {
        StmtKind::Block(body) => statements_in(body),
        StmtKind::While { body, .. } => statements_in(body),
        StmtKind::If(arms) => branch(arms, block),
        _ => &[],
    }
}

/// The number of the block of the first position; 0 if there is none.
fn block_at(positions: &[Position]) -> usize
    ensures { result ≡ block_at positions.now }
{
    match positions {
        [] => 0,
        [position, ..] => position.block,
    }
}

/// The first position, if there is one.
fn first_of(positions: &[Position]) -> Option<Position>
    ensures { result ≡ slice_get positions.now 0 }
{
    positions.first().copied()
}

/// The positions after the first.
fn after_first(positions: &[Position]) -> &[Position]
    ensures { result.now ≡ drop 1 positions.now }
{
    if positions.is_empty() {
        positions
    } else {
        &positions[1..]
    }
}

impl<'a> Machine<'a> {
    /// If `stmt` is a loop that has an open block, schedules its next test.
    fn again(&mut self, inner: &[Position], stmt: Option<&'a Stmt>) -> Result<(), Memory>
        ensures { IfOk result (λ _. config_of self.new ≡ again_in inner.now (option_copied stmt.entry) (config_of self.old)) }
    {
        if !inner.is_empty() {
            if let Some(stmt) = stmt {
                if let StmtKind::While { .. } = &stmt.kind {
                    self.push(Continuation::Execute(stmt))?;
                }
            }
        }
        Ok(())
    }

    /// Pushes what remains of a body, the innermost block on top.
    pub(crate) fn unfold(&mut self, stmts: &'a [Stmt], positions: &[Position]) -> Result<(), Memory>
        ensures { IfOk result (λ _. config_of self.new ≡
            with_unfolded (statements_of stmts.now) positions.now (config_of self.old)) }
    {
        let mut block = stmts;
        let mut rest = positions;
        'positions: loop {
            let Some(position) = first_of(rest) else {
                return Ok(());
            };
            let inner = after_first(rest);
            self.push(Continuation::Rest {
                block: position.block,
                at: position.after,
                stmts: block,
            })?;
            let stmt = last_of_first(block, position.after);
            self.again(inner, stmt)?;
            block = block_in(stmt, block_at(inner));
            rest = inner;
        }
    }
}
