//! The result of the analysis of a body: which futures may be out at its points, and which surely are.
ghost use Rattle.std.specs.Prelude.{◌≡◌, ℕ, false, IfOk, IsFalse};
ghost use Rattle.cover_flow.specs.Flow.{IsFlowOf, fact_at, facts_at, is_among, may_at, surely_at};
ghost use Rattle.cover_flow.specs.inner.MarkedWords.{filled_words, rows_of};
ghost use Rattle.cover_flow.specs.inner.Transfers.{turns_of_all};

use crate::facts::{Fact, Facts, is_among};
use crate::mark::{Walk, mark_block, note};
use crate::transfer::Transfer;
use crate::turns::pass_block;
use std::alloc::Global;
use twe_base::{List, Memory, Stack};
use twe_program::Body;

/// For each of 128 futures and each point of a body, whether the future is out on some control path to the point, and
/// whether on every one.
#[derive(Debug, Drop)]
pub struct Points {
    /// The first of the 128 futures.
    first: u32,
    /// The facts at each point.
    rows: List<Facts>,
}

impl Points {
    /// Whether the future is one of the 128.
    pub fn follows(&self, future: u32) -> bool
        ensures { result ≡ is_among self.now.first future }
    {
        is_among(self.first, future)
    }

    /// Whether on some control path to the point the last spawn or join of the future is a spawn. It is false if the body
    /// has no such point, and if the future is none of the 128.
    pub fn may(&self, point: u32, future: u32) -> bool
        ensures { result ≡ may_at self.now point future }
    {
        self.fact(point, future).out
    }

    /// Whether on every control path to the point the last spawn or join of the future is a spawn. It is true if no path
    /// comes there, if the body has no such point, and if the future is none of the 128.
    pub fn surely(&self, point: u32, future: u32) -> bool
        ensures { result ≡ surely_at self.now point future }
    {
        !self.fact(point, future).not_out
    }

    /// Whether some of the 128 may be out at the point.
    pub fn some_may(&self, point: u32) -> bool
        ensures { IsFalse result → (future : ℕ) → may_at self.now point future ≡ false }
    {
        self.facts(point).out != 0
    }

    /// The facts at the point.
    fn facts(&self, point: u32) -> Facts
        ensures { result ≡ facts_at self.now point }
    {
        self.rows
            .get(point as usize)
            .copied()
            .unwrap_or(Facts::nowhere())
    }

    /// The dataflow fact of the future at the point.
    fn fact(&self, point: u32, future: u32) -> Fact
        ensures { result ≡ fact_at self.now point future }
    {
        if is_among(self.first, future) {
            self.facts(point).fact(future - self.first)
        } else {
            Fact::nowhere()
        }
    }
}

/// Fills in the facts of the futures at each point of the body, by the turns of its loops.
fn fill_in(rows: &mut [Facts], turns: &mut Stack<Transfer>, body: &Body, first: u32)
    ensures { rows.new ≡ filled_words rows.old turns.old body.now first }
{
    let end = body.points.saturating_sub(1);
    let walk = Walk { first, end };
    let last = mark_block(rows, turns, &body.block, walk, Facts::at_start());
    note(rows, end, last);
}

/// The turns of the loops of the body, the first one on top.
fn turns_for(alloc: Global, body: &Body, first: u32) -> Result<Stack<Transfer>, Memory>
    ensures { IfOk result (λ turns. turns ≡ turns_of_all first body.now.block) }
{
    let mut turns = List::new(alloc);
    pass_block(&body.block, first, Transfer::unchanged(), &mut turns)?;
    let mut stack = Stack::new(alloc);
    stack.push_all(turns)?;
    Ok(stack)
}

/// The facts of the futures at each point of the body.
fn rows_for(alloc: Global, body: &Body, first: u32) -> Result<List<Facts>, Memory>
    ensures { IfOk result (λ rows. rows ≡ rows_of body.now first) }
{
    let mut turns = turns_for(alloc, body, first)?;
    let mut rows = vec![in alloc; Facts::nowhere(); body.points as usize]?;
    fill_in(rows.as_mut_slice(), &mut turns, body, first);
    Ok(List::from(rows))
}

/// The dataflow facts of the body for the 128 futures from the first one on, exactly as its control paths say. It goes
/// through the body twice: first it finds what a turn of each loop does, and then the facts at the points.
pub fn flow(alloc: Global, body: &Body, first: u32) -> Result<Points, Memory>
    ensures first { IfOk result (λ points. points.first ≡ first) }
    ensures exact { IfOk result (λ points. IsFlowOf points body.now) }
{
    let rows = rows_for(alloc, body, first)?;
    Ok(Points { first, rows })
}
