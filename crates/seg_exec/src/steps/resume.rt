//! How blocks, arms and loops continue, and how a body is left.
ghost use Rattle.std.specs.Prelude.{◌≡◌, IfOk, drop, pos};
ghost use Rattle.seg_meaning.specs.declared.active.ActiveCall.{ActiveCall};
ghost use Rattle.twe_program.specs.Statement.{statements_of};
ghost use Rattle.twe_program.specs.inner.StatementView.{arms_of};
ghost use Rattle.seg_exec.specs.declared.steps.continuation.Continuation.TheVariants.{Leave};
ghost use Rattle.seg_exec.specs.inner.steps.Bodies.{last_of};
ghost use Rattle.seg_exec.specs.inner.steps.Continuations.{Suspend, Unwind, to_do, top, with_operand, without_operand};
ghost use Rattle.seg_exec.specs.inner.steps.Steps.{back_with, chosen_next, choosing, is_return, on, rested, returned, suspended, turned_next, unwound, with_rest};
ghost use Rattle.seg_exec.specs.inner.steps.Views.{config_of, config_under};

use crate::arithmetic::is_true;
use crate::steps::continuation::{Continuation, Recovered, ValueUse};
use crate::steps::held::Held;
use crate::steps::machine::{Machine, fault};
use crate::steps::request::{Ending, Request};
use seg_meaning::FaultCause;
use twe_base::{Memory, Place};
use twe_program::{Arm, Block, Stmt, StmtKind};

/// Whether a statement is a `return`.
#[inline(always)]
fn is_return(stmt: &Stmt) -> bool
    ensures { result ≡ is_return stmt.now }
{
    match &stmt.kind {
        StmtKind::Return(_) => true,
        StmtKind::SetAt { second: None, .. } => false,
        StmtKind::SetAt {
            second: Some(_),
            ..
        } => false,
        StmtKind::Block(_) => false,
        StmtKind::Let { .. } => false,
        StmtKind::Set { .. } => false,
        StmtKind::SetCell { .. } => false,
        StmtKind::If(_) => false,
        StmtKind::While { .. } => false,
        StmtKind::Print { .. } => false,
        StmtKind::Call { .. } => false,
        StmtKind::Make { .. } => false,
        StmtKind::Wait { .. } => false,
    }
}

impl<'a> Machine<'a> {
    /// Schedules the statements of a block from the one at `at` on, below the statement before it. A `return` has none below it.
    #[inline(always)]
    pub(crate) fn push_rest(
        &mut self,
        before: &'a Stmt,
        block: usize,
        at: usize,
        stmts: &'a [Stmt],
    ) -> Result<(), Memory>
        ensures { IfOk result (λ _. config_of self.new ≡
            with_rest (is_return before.now) block at (statements_of (drop at stmts.now)) (config_of self.old)) }
    {
        if is_return(before) {
            return Ok(());
        }
        self.push(Continuation::Rest { block, at, stmts })
    }

    /// Schedules the statements of a block from the one at `at` on.
    pub(crate) fn rest(
        &mut self,
        block: usize,
        at: usize,
        stmts: &'a [Stmt],
    ) -> Result<Request, Memory>
        ensures { IfOk result (λ request. (request, config_of self.new) ≡
            rested block at (statements_of (drop at stmts.now)) (config_of self.old)) }
    {
        if at < stmts.len() {
            let stmt = &stmts[at];
            self.push_rest(stmt, block, at + 1, stmts)?;
            self.push(Continuation::Execute(stmt))?;
        }
        Ok(Request::Nothing)
    }

    /// Schedules the arms of an `if` from the one numbered `block` on.
    #[inline(always)]
    pub(crate) fn choose(
        &mut self,
        block: usize,
        arms: &'a [Arm],
        last: &'a Option<Block>,
    ) -> Result<Request, Memory>
        ensures { IfOk result (λ request. (request, config_of self.new) ≡
            choosing block (arms_of (drop block arms.now) last.now) (config_of self.old)) }
    {
        if block < arms.len() {
            let arm = &arms[block];
            self.push(Continuation::UseValue(ValueUse::Chosen {
                block,
                next: block + 1,
                body: &arm.body,
                arms,
                last,
            }))?;
            self.push(Continuation::Evaluate(&arm.condition))?;
        } else if let Some(body) = last {
            self.push(Continuation::Rest {
                block,
                at: 0,
                stmts: body.stmts.as_slice(),
            })?;
        }
        Ok(Request::Nothing)
    }

    /// Schedules the body of an arm if its condition is true, and the arms after it otherwise.
    #[inline(always)]
    pub(crate) fn chosen(
        &mut self,
        block: usize,
        next: usize,
        body: &'a Block,
        arms: &'a [Arm],
        last: &'a Option<Block>,
    ) -> Result<Request, Memory>
        ensures { IfOk result (λ request. (request, config_of self.new) ≡
            chosen_next block next body.now (arms_of (drop next arms.now) last.now) (config_of self.old)) }
    {
        if is_true(self.pop_operand()) {
            self.push(Continuation::Rest {
                block,
                at: 0,
                stmts: body.stmts.as_slice(),
            })?;
        } else {
            self.push(Continuation::Choose {
                block: next,
                arms,
                last,
            })?;
        }
        Ok(Request::Nothing)
    }

    /// Schedules a turn of a loop if its condition is true. A turn takes a unit of fuel; it is a fault if none is left.
    #[inline(always)]
    pub(crate) fn turn(
        &mut self,
        again: &'a Stmt,
        body: &'a Block,
        place: Place,
    ) -> Result<Request, Memory>
        ensures { IfOk result (λ request. (request, config_of self.new) ≡
            turned_next again.now body.now place (config_of self.old)) }
    {
        if is_true(self.pop_operand()) {
            if self.fuel == 0 {
                return Ok(fault(FaultCause::Fuel, place));
            }
            self.fuel -= 1;
            self.push(Continuation::Execute(again))?;
            self.push(Continuation::Rest {
                block: 0,
                at: 0,
                stmts: body.stmts.as_slice(),
            })?;
        }
        Ok(Request::Nothing)
    }

    /// Returns to the caller of a method, which has `count` variables, with a value.
    #[inline(always)]
    pub(crate) fn back(&mut self, value: i32, count: usize) -> Result<(), Memory>
        ensures { (call : ActiveCall) → IfOk result (λ _. config_of self.new
            ≡ back_with value (last_of count self.old.vars.callers) (config_under (Leave count call) self.old)) }
    {
        self.vars.leave(count);
        self.push_operand(value)
    }

    /// Returns from a method at the end of its body, with 0.
    #[inline(always)]
    pub(crate) fn leave(&mut self, count: usize) -> Result<Request, Memory>
        ensures { (call : ActiveCall) → IfOk result (λ request. (request, config_of self.new)
            ≡ on (back_with (pos 0) (last_of count self.old.vars.callers) (config_under (Leave count call) self.old))) }
    {
        self.back(0, count)?;
        Ok(Request::Nothing)
    }

    /// Returns the latest value to the caller of a method, which has `count` variables.
    #[inline(always)]
    fn hand_back(&mut self, count: usize) -> Result<Request, Memory>
        ensures { (call : ActiveCall) → IfOk result (λ request. (request, config_of self.new) ≡
            on (back_with (top self.old.operands) (last_of count self.old.vars.callers)
            (without_operand (config_under (Leave count call) self.old)))) }
    {
        let value = self.operands.pop_or(0);
        self.back(value, count)?;
        Ok(Request::Nothing)
    }

    /// Schedules the return of the latest value from the body.
    #[inline(always)]
    fn push_return(&mut self) -> Result<(), Memory>
        ensures { IfOk result (λ _. config_of self.new ≡ to_do Unwind (config_of self.old)) }
    {
        self.push(Continuation::UseValue(ValueUse::Unwind))
    }

    /// Schedules the rest of a return.
    fn unwind_on(&mut self) -> Result<Request, Memory>
        ensures { IfOk result (λ request. (request, config_of self.new) ≡ on (to_do Unwind (config_of self.old))) }
    {
        self.push_return()?;
        Ok(Request::Nothing)
    }

    /// Schedules the rest of a suspension.
    fn suspend_below(&mut self, suspension: Held) -> Result<Request, Memory>
        ensures { IfOk result (λ request. (request, config_of self.new)
            ≡ on (to_do (Suspend suspension.operation suspension.positions) (config_of self.old))) }
    {
        self.push(Continuation::Suspend(suspension))?;
        Ok(Request::Nothing)
    }

    /// Unwinds the continuation up to the caller of the active method, or to its end, and returns the latest value.
    pub(crate) fn unwind(&mut self) -> Result<Request, Memory>
        ensures { IfOk result (λ request. (request, config_of self.new) ≡
            unwound (config_of self.old).work (config_of self.old)) }
    {
        let Some(work) = self.work.pop() else {
            return Ok(Request::End(Ending::Returned(self.pop_operand())));
        };
        match work.recovered() {
            Recovered::Caller { count, .. } => self.hand_back(count),
            Recovered::Block(_) => self.unwind_on(),
            Recovered::Return => {
                self.push_return()?;
                self.unwind_on()
            }
            Recovered::Nothing => self.unwind_on(),
        }
    }

    /// Returns a value to the caller of the active method, or from the whole body, at once.
    #[inline(always)]
    pub(crate) fn give_back(&mut self, value: i32) -> Result<Request, Memory>
        ensures { IfOk result (λ request. (request, config_of self.new) ≡
            returned (config_of self.old).work (with_operand value (config_of self.old))) }
    {
        'frames: loop {
            let Some(work) = self.work.pop() else {
                return Ok(Request::End(Ending::Returned(value)));
            };
            match work.recovered() {
                Recovered::Caller { count, .. } => {
                    self.back(value, count)?;
                    return Ok(Request::Nothing);
                }
                Recovered::Block(_) => {}
                Recovered::Return => {}
                Recovered::Nothing => {}
            }
        }
    }

    /// Unwinds the continuation up to its end and collects the positions of the open blocks, then ends with the operation.
    pub(crate) fn suspend_on(&mut self, suspension: Held) -> Result<Request, Memory>
        ensures { IfOk result (λ request. (request, config_of self.new) ≡
            suspended suspension.operation suspension.positions (config_of self.old).work (config_of self.old)) }
    {
        let Some(work) = self.work.pop() else {
            return Ok(Request::End(Ending::Suspended(suspension)));
        };
        match work.recovered() {
            Recovered::Caller { count, .. } => self.leave(count),
            Recovered::Block(position) => {
                let mut suspension = suspension;
                suspension.close(position)?;
                self.suspend_below(suspension)
            }
            Recovered::Return => {
                self.push_return()?;
                self.suspend_below(suspension)
            }
            Recovered::Nothing => self.suspend_below(suspension),
        }
    }
}
