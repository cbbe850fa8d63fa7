//! Whether the next segment of a task is short, so that little is lost if the others lie still meanwhile.

use crate::ahead::{LookAhead, SegmentWay};
use machine_state::State;
use seg_meaning::{Frame, Position};
use twe_program::{Arms, Block, Decl, Prog, Stmt, StmtKind};

/// Whether the first segment of a task with this declaration is known to be short.
pub(crate) fn starts_brief(decl: &Decl) -> bool {
    let mut ahead = LookAhead::new();
    ahead.through_rest(&decl.body.block, 0) != SegmentWay::Unknown
}

/// Whether no statement of a task has begun.
pub(crate) fn is_at_start(st: &State, task: u32) -> bool {
    match st.tasks.get(task as usize) {
        Some(row) => has_not_begun(&row.frame),
        None => false,
    }
}

/// Whether no statement of the body with this frame has begun.
fn has_not_begun(frame: &Frame) -> bool {
    let Some(body) = &frame.body else {
        return false;
    };
    let positions = body.open_blocks.as_slice();
    match positions.first() {
        Some(position) => positions.len() == 1 && position.after == 0,
        None => false,
    }
}

/// Whether the next segment of a task is known to be short.
pub(crate) fn is_next_brief(p: &Prog, st: &State, task: u32) -> bool {
    match st.tasks.get(task as usize) {
        Some(row) => is_brief(p, &row.frame),
        None => false,
    }
}

/// Whether the next segment of a task with this frame is known to be short: it takes no longer than its text, which is short, or
/// the body has ended. If not, nothing is known of the segment.
pub(crate) fn is_brief(p: &Prog, frame: &Frame) -> bool {
    let Some(body) = &frame.body else {
        return true;
    };
    match p.tasks.get(frame.decl as usize) {
        Some(decl) => is_short(&decl.body.block, body.open_blocks.as_slice()),
        None => false,
    }
}

/// Whether the next segment of a body with these open blocks is known to be short. What is left of the innermost block comes
/// first, and then what is left of those around it, as far as the segment may go on.
fn is_short(body: &Block, positions: &[Position]) -> bool {
    let mut ahead = LookAhead::new();
    for depth in (0..positions.len()).rev() {
        match way_at(&mut ahead, body, positions, depth) {
            SegmentWay::Ends => return true,
            SegmentWay::GoesOn => {}
            SegmentWay::Unknown => return false,
        }
    }
    true
}

/// The way through what is left of the open block at this depth, once the blocks in it have ended.
fn way_at(ahead: &mut LookAhead, body: &Block, positions: &[Position], depth: usize) -> SegmentWay {
    let Some(block) = open_block(body, positions, depth) else {
        return SegmentWay::Unknown;
    };
    ahead.through_rest(block, first_left(block, positions, depth))
}

/// The open block at this depth, which is 0 for the body itself.
fn open_block<'a>(body: &'a Block, positions: &[Position], depth: usize) -> Option<&'a Block> {
    let mut block = body;
    for outer in 0..depth {
        let stmt = last_begun(block, positions.get(outer)?.after)?;
        block = block_in(stmt, positions.get(outer + 1)?.block)?;
    }
    Some(block)
}

/// The index of the first statement that is left of the open block at this depth. If a loop in it is open, that is the loop: its
/// condition comes next.
fn first_left(block: &Block, positions: &[Position], depth: usize) -> usize {
    let after = match positions.get(depth) {
        Some(position) => position.after,
        None => 0,
    };
    let is_innermost = depth.saturating_add(1) >= positions.len();
    match last_begun(block, after) {
        Some(stmt) if !is_innermost && is_loop(stmt) => after.saturating_sub(1),
        _ => after,
    }
}

/// The last of the statements of a block of which so many have begun.
fn last_begun(block: &Block, begun: usize) -> Option<&Stmt> {
    block.stmts.get(begun.checked_sub(1)?)
}

/// Whether a statement is a loop.
fn is_loop(stmt: &Stmt) -> bool {
    match &stmt.kind {
        StmtKind::While { .. } => true,
        _ => false,
    }
}

/// The block of this number in a statement.
fn block_in(stmt: &Stmt, block: usize) -> Option<&Block> {
    match &stmt.kind {
        StmtKind::Block(body) => Some(body),
        StmtKind::While { body, .. } => Some(body),
        StmtKind::If(arms) => branch(arms, block),
        _ => None,
    }
}

/// The branch of this number of an `if`.
fn branch(arms: &Arms, block: usize) -> Option<&Block> {
    match arms.arms.get(block) {
        Some(arm) => Some(&arm.body),
        None => arms.last.as_ref(),
    }
}
