//! The continuation frames of the evaluator, with the number of the active calls among them.
ghost use Rattle.std.specs.Prelude.{◌≡◌, [], ◌∷◌, length, IfOk, OnOk, MatchOption};
ghost use Rattle.seg_exec.specs.inner.steps.Calls.{calls_of};

use crate::steps::continuation::Continuation;
use crate::steps::pushdown::Pushdown;
use seg_meaning::ActiveCall;
use std::alloc::Global;
use std::marker::Model;
use twe_base::{List, Memory};

/// The continuation frames. Contracts see a list whose first frame is the one on top.
#[derive(Debug, Drop)]
pub(crate) struct Frames<'a> {
    /// The frames.
    items: Pushdown<Continuation<'a>>,
    /// How many of them leave an active call.
    calls: usize,
}

impl<'a> Model for Frames<'a> {
    ghost use Rattle.std.specs.Prelude.{◌≡◌, List, length};
    ghost use Rattle.seg_exec.specs.declared.steps.continuation.Continuation.{Continuation};
    ghost use Rattle.seg_exec.specs.inner.steps.Calls.{calls_of};

    ghost Value = { List Continuation };

    ghost use Rattle.std.specs.Coded.{codes};
    ghost use Rattle.twe_program.specs.contracts.expr.Expr as expr;
    ghost use Rattle.twe_program.specs.contracts.stmt.Block as block;
    ghost use Rattle.twe_program.specs.contracts.stmt.Stmt as stmt;

    ghost coded = { Prim.hlevel (codes, expr.the_row.coded, stmt.the_row.coded, block.the_row.coded) };

    ghost view = { λ frames. frames.items };

    ghost invariant = { λ frames. frames.calls ≡ length (calls_of frames.items) };
}

impl<'a> Frames<'a> {
    /// No frames. They take no memory.
    pub(crate) fn new(alloc: Global) -> Self
        ensures { result ≡ [] }
    {
        Frames {
            items: Pushdown::new(alloc),
            calls: 0,
        }
    }

    /// Pushes a frame on top.
    #[inline(always)]
    pub(crate) fn push(&mut self, work: Continuation<'a>) -> Result<(), Memory>
        ensures { OnOk result (self.new ≡ work.entry ∷ self.old) }
    {
        let call = work.call();
        self.items.push(work)?;
        if let Some(_) = call {
            let _all = self.items.len();
            self.calls += 1;
        }
        Ok(())
    }

    /// Removes and returns the frame on top, if there is one.
    #[inline(always)]
    pub(crate) fn pop(&mut self) -> Option<Continuation<'a>>
        ensures { MatchOption result ((self.old ≡ []) × (self.new ≡ [])) (λ work. self.old ≡ work ∷ self.new) }
    {
        let Some(work) = self.items.pop() else {
            return None;
        };
        if let Some(_) = work.call() {
            self.calls -= 1;
        }
        Some(work)
    }

    /// How many calls are active.
    #[inline(always)]
    pub(crate) fn calls(&self) -> usize
        ensures { result ≡ length (calls_of self.now) }
    {
        self.calls
    }

    /// The active calls, the latest first.
    pub(crate) fn into_calls(self, alloc: Global) -> Result<List<ActiveCall>, Memory>
        ensures { IfOk result (λ calls. calls ≡ calls_of self.entry) }
    {
        let Frames { mut items, .. } = self;
        let mut calls = List::new(alloc);
        'frames: loop {
            let Some(work) = items.pop() else {
                return Ok(calls);
            };
            if let Some(call) = work.call() {
                calls.push(call)?;
            }
        }
    }
}
