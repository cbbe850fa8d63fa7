//! The facts of 128 futures at each point within statements.
ghost use Rattle.std.specs.Prelude.{◌≡◌};
ghost use Rattle.cover_flow.specs.inner.MarkedWords.{led, led_all, led_one, led_simple, left, left_all, left_one, marked_words, marked_words_all, marked_words_one, noted_words};
ghost use Rattle.cover_flow.specs.inner.Words.{none_come};

use crate::facts::{Facts, mask};
use crate::transfer::Transfer;
use twe_base::Stack;
use twe_program::{Arms, Block, Stmt, StmtKind};

/// The futures that are followed, and the point to which a return goes.
#[derive(Clone, Copy)]
pub struct Walk {
    /// The number of the first of the 128 futures.
    pub first: u32,
    /// The point at the end of the body.
    pub end: u32,
}

/// Joins facts into those of a point, if the rows have the point.
pub fn note(rows: &mut [Facts], point: u32, facts: Facts)
    ensures { rows.new ≡ noted_words rows.old point facts }
{
    let at = point as usize;
    if at < rows.len() {
        rows[at] = rows[at].joined(facts);
    }
}

/// The facts after a statement that has no others inside it, and is no return.
fn after_simple(stmt: &Stmt, first: u32, facts: Facts) -> Facts
    ensures { result ≡ led_simple first stmt.now facts }
{
    match &stmt.kind {
        StmtKind::Make {
            future,
            spawned: true,
            ..
        } => facts.put_out(mask(first, *future)),
        StmtKind::Wait {
            future,
            join: true,
            ..
        } => facts.taken_in(mask(first, *future)),
        _ => facts,
    }
}

/// Joins the facts at each point within a statement into the rows, and those of its returns into the end. It takes the
/// turns of its loops from the stack. Returns the facts after the statement.
#[cycle(mark)]
pub fn mark_statement(
    rows: &mut [Facts],
    turns: &mut Stack<Transfer>,
    stmt: &Stmt,
    walk: Walk,
    facts: Facts,
) -> Facts
    ensures after { result ≡ led walk.first stmt.now facts turns.old }
    ensures rows { rows.new ≡ marked_words walk.first walk.end stmt.now facts turns.old rows.old }
    ensures turns { turns.new ≡ left stmt.now turns.old }
{
    match &stmt.kind {
        StmtKind::Block(body) => {
            note(rows, stmt.point, facts);
            mark_block(rows, turns, body, walk, facts)
        }
        StmtKind::If(arms) => {
            note(rows, stmt.point, facts);
            mark_arms(rows, turns, arms, walk, facts)
        }
        StmtKind::While { body, .. } => {
            let head = turns.pop_or(Transfer::unchanged()).enter(facts);
            note(rows, stmt.point, head);
            mark_block(rows, turns, body, walk, head);
            head
        }
        StmtKind::Return(_) => {
            note(rows, stmt.point, facts);
            note(rows, walk.end, facts);
            Facts::nowhere()
        }
        _ => {
            note(rows, stmt.point, facts);
            after_simple(stmt, walk.first, facts)
        }
    }
}

/// Does the same for the statements of a block.
#[cycle(mark)]
pub fn mark_block(
    rows: &mut [Facts],
    turns: &mut Stack<Transfer>,
    block: &Block,
    walk: Walk,
    facts: Facts,
) -> Facts
    ensures after { result ≡ led_all walk.first block.now facts turns.old }
    ensures rows { rows.new ≡ marked_words_all walk.first walk.end block.now facts turns.old rows.old }
    ensures turns { turns.new ≡ left_all block.now turns.old }
{
    let mut facts = facts;
    for stmt in block.stmts.as_slice() {
        facts = mark_statement(rows, turns, stmt, walk, facts);
    }
    facts
}

/// Does the same for the branches.
#[cycle(mark)]
fn mark_arms(
    rows: &mut [Facts],
    turns: &mut Stack<Transfer>,
    arms: &Arms,
    walk: Walk,
    facts: Facts,
) -> Facts
    ensures after { result ≡ led_one walk.first none_come arms.now facts turns.old }
    ensures rows { rows.new ≡ marked_words_one walk.first walk.end arms.now facts turns.old rows.old }
    ensures turns { turns.new ≡ left_one arms.now turns.old }
{
    let mut after = Facts::nowhere();
    for arm in arms.arms.as_slice() {
        after = after.joined(mark_block(rows, turns, &arm.body, walk, facts));
    }
    match &arms.last {
        Some(body) => after.joined(mark_block(rows, turns, body, walk, facts)),
        None => after.joined(facts),
    }
}
