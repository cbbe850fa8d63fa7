//! How blocks, arms, loops and returns begin: what they push onto the continuation.
ghost use Rattle.std.specs.Prelude.{◌≡◌, IfOk};
ghost use Rattle.seg_exec.specs.inner.steps.Continuations.{Choose, Evaluate, Rest, Turn, to_do};
ghost use Rattle.seg_exec.specs.inner.steps.Steps.{on, returning};
ghost use Rattle.seg_exec.specs.inner.steps.Views.{config_of};

use crate::steps::continuation::{Continuation, ValueUse};
use crate::steps::machine::Machine;
use crate::steps::request::Request;
use twe_base::{Memory, Place};
use twe_program::{Arms, Block, Expr, Stmt};

impl<'a> Machine<'a> {
    /// Schedules the statements of a block.
    pub(crate) fn begin_block(&mut self, body: &'a Block) -> Result<Request, Memory>
        ensures { IfOk result (λ request. (request, config_of self.new) ≡ on (to_do (Rest 0 0 body.now) (config_of self.old))) }
    {
        self.push(Continuation::Rest {
            block: 0,
            at: 0,
            stmts: body.stmts.as_slice(),
        })?;
        Ok(Request::Nothing)
    }

    /// Schedules the arms of an `if`, to be tried from the first on.
    pub(crate) fn begin_if(&mut self, arms: &'a Arms) -> Result<Request, Memory>
        ensures { IfOk result (λ request. (request, config_of self.new) ≡ on (to_do (Choose 0 arms.now) (config_of self.old))) }
    {
        self.push(Continuation::Choose {
            block: 0,
            arms: arms.arms.as_slice(),
            last: &arms.last,
        })?;
        Ok(Request::Nothing)
    }

    /// Schedules the test of a loop. `again` is the loop itself.
    pub(crate) fn begin_loop(
        &mut self,
        again: &'a Stmt,
        condition: &'a Expr,
        body: &'a Block,
        place: Place,
    ) -> Result<Request, Memory>
        ensures { IfOk result (λ request. (request, config_of self.new) ≡
            on (to_do (Evaluate condition.now) (to_do (Turn again.now body.now place) (config_of self.old)))) }
    {
        self.evaluate_then(condition, ValueUse::Turn { again, body, place })
    }

    /// Schedules the return from the body, with 0 if the statement returns no value.
    pub(crate) fn begin_return(&mut self, value: &'a Option<Expr>) -> Result<Request, Memory>
        ensures { IfOk result (λ request. (request, config_of self.new) ≡ returning value.now (config_of self.old)) }
    {
        match value {
            None => {
                self.push_operand(0)?;
                self.push(Continuation::UseValue(ValueUse::Unwind))?;
                Ok(Request::Nothing)
            }
            Some(value) => self.evaluate_then(value, ValueUse::Unwind),
        }
    }
}
