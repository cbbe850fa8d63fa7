//! What a turn of each loop does, the loops in the order of the text.
ghost use Rattle.std.specs.Prelude.{◌≡◌, ◌++◌, ◌∷◌, IfOk, OnOk};
ghost use Rattle.cover_flow.specs.inner.Transfers.{Turns, nothing_passes, passed, passed_all, passed_one, transfers_looped, turns_of, turns_of_all, turns_of_one, unchanged};

use crate::facts::mask;
use crate::transfer::Transfer;
use twe_base::{List, Memory};
use twe_program::{Arms, Block, Stmt, StmtKind};

/// Adds the turns of the loops within a statement. Returns the transfer that goes through it after the one before.
#[cycle(pass)]
pub fn pass_statement(
    stmt: &Stmt,
    first: u32,
    before: Transfer,
    turns: &mut List<Transfer>,
) -> Result<Transfer, Memory>
    ensures after { IfOk result (λ after. after ≡ passed first stmt.now before) }
    ensures turns { OnOk result (turns.new ≡ turns.old ++ turns_of first stmt.now) }
{
    match &stmt.kind {
        StmtKind::Block(body) => pass_block(body, first, before, turns),
        StmtKind::If(arms) => pass_arms(arms, first, before, turns),
        StmtKind::While { body, .. } => {
            let turn = pass_loop(body, first, turns)?;
            Ok(before.looped(turn))
        }
        StmtKind::Return(_) => Ok(Transfer::nowhere()),
        StmtKind::Make {
            future,
            spawned: true,
            ..
        } => Ok(before.put_out(mask(first, *future))),
        StmtKind::Wait {
            future,
            join: true,
            ..
        } => Ok(before.taken_in(mask(first, *future))),
        _ => Ok(before),
    }
}

/// Adds the turn of a loop with this body, and those of the loops within it. Returns the loop's turn.
#[cycle(pass)]
fn pass_loop(body: &Block, first: u32, turns: &mut List<Transfer>) -> Result<Transfer, Memory>
    ensures turn { IfOk result (λ turn. turn ≡ passed_all first body.now unchanged) }
    ensures turns { OnOk result (turns.new ≡ turns.old ++ passed_all first body.now unchanged ∷ turns_of_all first body.now) }
{
    let at = turns.len();
    turns.push(Transfer::unchanged())?;
    let turn = pass_block(body, first, Transfer::unchanged(), turns)?;
    turns.set(at, turn);
    Ok(turn)
}

/// Does the same for the statements of a block.
#[cycle(pass)]
pub fn pass_block(
    block: &Block,
    first: u32,
    before: Transfer,
    turns: &mut List<Transfer>,
) -> Result<Transfer, Memory>
    ensures after { IfOk result (λ after. after ≡ passed_all first block.now before) }
    ensures turns { OnOk result (turns.new ≡ turns.old ++ turns_of_all first block.now) }
{
    let mut after = before;
    for stmt in block.stmts.as_slice() {
        after = pass_statement(stmt, first, after, turns)?;
    }
    Ok(after)
}

/// Does the same for the branches.
#[cycle(pass)]
fn pass_arms(
    arms: &Arms,
    first: u32,
    before: Transfer,
    turns: &mut List<Transfer>,
) -> Result<Transfer, Memory>
    ensures after { IfOk result (λ after. after ≡ passed_one first nothing_passes arms.now before) }
    ensures turns { OnOk result (turns.new ≡ turns.old ++ turns_of_one first arms.now) }
{
    let mut after = Transfer::nowhere();
    for arm in arms.arms.as_slice() {
        after = after.joined(pass_block(&arm.body, first, before, turns)?);
    }
    match &arms.last {
        Some(body) => Ok(after.joined(pass_block(body, first, before, turns)?)),
        None => Ok(after.joined(before)),
    }
}
