//! The state of the evaluator: its continuation, its operand stack, the variables and the counts.
ghost use Rattle.std.specs.Prelude.{◌≡◌, IfOk};
ghost use Rattle.seg_exec.specs.inner.steps.Continuations.{Evaluate, to_do, top, with_operand, without_operand};
ghost use Rattle.seg_exec.specs.inner.steps.Steps.{on};
ghost use Rattle.seg_exec.specs.declared.steps.request.Request.TheVariants.{End};
ghost use Rattle.seg_exec.specs.declared.steps.request.Ending.TheVariants.{Faulted};
ghost use Rattle.seg_exec.specs.inner.steps.Views.{config_of, config_with, use_of};

use crate::steps::continuation::{Continuation, OpenBlock, ValueUse};
use crate::steps::frames::Frames;
use crate::steps::pushdown::Pushdown;
use crate::steps::request::{Ending, Request};
use crate::steps::variables::Variables;
use seg_meaning::FaultCause;
use twe_base::{Memory, Place};
use twe_program::Expr;

/// The request to end with a fault at a place of the text.
pub(crate) fn fault(cause: FaultCause, place: Place) -> Request
    ensures { result ≡ End (Faulted cause place) }
{
    Request::End(Ending::Faulted { cause, place })
}

/// The state of the evaluator.
#[derive(Debug, Drop)]
pub(crate) struct Machine<'a> {
    /// The continuation frames, the next one on top. Those that leave a call have the active calls.
    pub(crate) work: Frames<'a>,
    /// The operand stack: the values that were computed and not yet used, the latest on top.
    pub(crate) operands: Pushdown<i32>,
    /// The values of the variables of the active body and of its callers.
    pub(crate) vars: Variables,
    /// The fuel that is left, in units.
    pub(crate) fuel: u64,
    /// What is left of a block that comes before the continuation frames, at times when such a block comes next. It stands here
    /// so that what the steps return stays small.
    pub(crate) open: OpenBlock<'a>,
    /// How the run has ended, if it has.
    pub(crate) ending: Option<Ending>,
}

impl<'a> Machine<'a> {
    /// Pushes a continuation frame.
    #[inline(always)]
    pub(crate) fn push(&mut self, work: Continuation<'a>) -> Result<(), Memory>
        ensures { IfOk result (λ _. config_of self.new ≡ config_with work.entry self.old) }
    {
        self.work.push(work)
    }

    /// Pushes a value onto the operand stack.
    #[inline(always)]
    pub(crate) fn push_operand(&mut self, value: i32) -> Result<(), Memory>
        ensures { IfOk result (λ _. config_of self.new ≡ with_operand value (config_of self.old)) }
    {
        self.operands.push(value)
    }

    /// A value was evaluated, and nothing is asked for.
    #[inline(always)]
    pub(crate) fn evaluated_to(&mut self, value: i32) -> Result<Request, Memory>
        ensures { IfOk result (λ request. (request, config_of self.new) ≡ on (with_operand value (config_of self.old))) }
    {
        self.push_operand(value)?;
        Ok(Request::Nothing)
    }

    /// Schedules the evaluation of an expression and then `then`, which uses its value.
    pub(crate) fn evaluate_then(
        &mut self,
        expr: &'a Expr,
        then: ValueUse<'a>,
    ) -> Result<Request, Memory>
        ensures { IfOk result (λ request. (request, config_of self.new) ≡
            on (to_do (Evaluate expr.now) (to_do (use_of then.entry) (config_of self.old)))) }
    {
        self.push(Continuation::UseValue(then))?;
        self.push(Continuation::Evaluate(expr))?;
        Ok(Request::Nothing)
    }

    /// Pops the latest value; returns 0 if there is none.
    #[inline(always)]
    pub(crate) fn pop_operand(&mut self) -> i32
        ensures value { result ≡ top self.old.operands }
        ensures config { config_of self.new ≡ without_operand (config_of self.old) }
    {
        self.operands.pop_or(0)
    }
}
