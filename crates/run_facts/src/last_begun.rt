//! The statement of a body that began last, and the task operation that a task has come to.
ghost use Rattle.std.specs.Prelude.{◌≡◌, Some, option_copied, slice_get};
ghost use Rattle.twe_program.specs.Statement.{statements_of};
ghost use Rattle.seg_meaning.specs.Meaning.{body_of};
ghost use Rattle.seg_meaning.specs.Remaining.{block_of, branch_of, last_of_first};
ghost use Rattle.run_facts.specs.LastBegun.{closing_place, last_begun, last_begun_inside, operation_place, stands_at, stands_in};

use machine_state::TaskRow;
use seg_meaning::{OpenBody, Position};
use twe_base::Place;
use twe_program::{Arm, Arms, Block, Decl, Prog, Stmt, StmtKind};

/// The body of a declaration; no statements if there is none.
fn body_of(decl: Option<&Decl>) -> &[Stmt]
    ensures { statements_of result.now ≡ body_of (option_copied decl.entry) }
{
    match decl {
        Some(decl) => decl.body.block.stmts.as_slice(),
        None => &[],
    }
}

/// The statements of a block.
fn all_of(block: &Block) -> &[Stmt]
    ensures { statements_of result.now ≡ block.now }
{
    block.stmts.as_slice()
}

/// The arm of this number, if there is one.
fn numbered(arms: &[Arm], number: usize) -> Option<&Arm>
    ensures { option_copied result ≡ slice_get arms.now number }
{
    arms.get(number)
}

/// The branch of this number of an `if`; no statements if there is none.
fn branch_of(arms: &Arms, number: usize) -> &[Stmt]
    ensures { statements_of result.now ≡ branch_of number arms.now }
{
    match numbered(arms.arms.as_slice(), number) {
        Some(arm) => all_of(&arm.body),
        None => match &arms.last {
            Some(body) => all_of(body),
            None => &[],
        },
    }
}

/// The block of this number of a statement; no statements if it has none.
fn block_of(number: usize, stmt: Option<&Stmt>) -> &[Stmt]
    ensures { statements_of result.now ≡ block_of number (option_copied stmt.entry) }
{
    let Some(stmt) = stmt else {
        return &[];
    };
    match &stmt.kind {
        StmtKind::If(arms) => branch_of(arms, number),
        StmtKind::While { body, .. } => all_of(body),
        StmtKind::Block(body) => all_of(body),
        _ => &[],
    }
}

/// The statement at this index, if there is one.
fn indexed(stmts: &[Stmt], at: usize) -> Option<&Stmt>
    ensures { option_copied result ≡ slice_get stmts.now at }
{
    stmts.get(at)
}

/// The last of so many first statements, if there is one.
fn last_of(count: usize, stmts: &[Stmt]) -> Option<&Stmt>
    ensures { option_copied result ≡ last_of_first count (statements_of stmts.now) }
{
    if count == 0 {
        return None;
    }
    indexed(stmts, count - 1)
}

/// The statement that began last in these open blocks inside a statement.
fn last_begun_inside<'a>(outer: Option<&'a Stmt>, inner: &[Position]) -> Option<&'a Stmt>
    ensures { option_copied result ≡ last_begun_inside (option_copied outer.entry) inner.now }
{
    let mut stmt = outer;
    for position in inner {
        stmt = last_of(position.after, block_of(position.block, stmt));
    }
    stmt
}

/// The statement of a body that began last, if one did.
fn last_begun<'a>(stmts: &'a [Stmt], positions: &[Position]) -> Option<&'a Stmt>
    ensures { option_copied result ≡ last_begun (statements_of stmts.now) positions.now }
{
    match positions {
        [] => None,
        [position, inner @ ..] => last_begun_inside(last_of(position.after, stmts), inner),
    }
}

/// The place of the name of the task that the statement makes, or of the future that it waits for.
fn operation_place(stmt: Option<&Stmt>) -> Option<Place>
    ensures { result ≡ operation_place (option_copied stmt.entry) }
{
    match &stmt?.kind {
        StmtKind::Make { place, .. } => Some(*place),
        StmtKind::Wait { place, .. } => Some(*place),
        _ => None,
    }
}

/// The place of the closing brace of a declaration.
fn closing_place(decl: Option<&Decl>) -> Option<Place>
    ensures { result ≡ closing_place (option_copied decl.entry) }
{
    match decl {
        None => None,
        Some(decl) => Some(decl.body.close),
    }
}

/// The place of the task operation that an open body of this declaration has come to, if it has come to one.
fn stands_in(decl: Option<&Decl>, body: &OpenBody) -> Option<Place>
    ensures { result ≡ stands_in (option_copied decl.entry) (Some body.now) }
{
    operation_place(last_begun(body_of(decl), body.open_blocks.as_slice()))
}

/// The place of the task operation that a task has come to: of the name of the task that it made last, or of the future that it
/// waits for; or that of the closing brace of its body, if that has ended. Before its first task operation it has come to none.
pub fn stands_at(p: &Prog, row: &TaskRow) -> Option<Place>
    ensures { result ≡ stands_at p.now row.now }
{
    let decl = p.tasks.get(row.frame.decl as usize);
    match &row.frame.body {
        None => closing_place(decl),
        Some(body) => stands_in(decl, body),
    }
}
