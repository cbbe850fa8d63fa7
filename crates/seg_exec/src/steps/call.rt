//! Arguments and what they are evaluated for: to call a method or to make a task.
ghost use Rattle.std.specs.Prelude.{◌≡◌, [], IfOk};
ghost use Rattle.twe_program.specs.Expression.{arguments_of};
ghost use Rattle.seg_exec.specs.inner.steps.Continuations.{Evaluate, Gather, Suspend, Take, to_do};
ghost use Rattle.seg_exec.specs.inner.steps.Steps.{asked_unit, on};
ghost use Rattle.seg_exec.specs.inner.steps.Views.{config_of};
ghost use Rattle.seg_exec.specs.declared.steps.continuation.Goal.TheVariants.{Enter};

use crate::steps::continuation::{Continuation, Gathering, Goal, Suspension};
use crate::steps::held::Held;
use crate::steps::machine::{Machine, fault};
use crate::steps::request::Request;
use seg_meaning::{FaultCause, Operation};
use std::alloc::Global;
use twe_base::{Ints, MAX_ACTIVE_CALLS, Memory, Place, Stack};
use twe_program::{Args, Decl, Expr, Prog};

impl<'a> Machine<'a> {
    /// Schedules the evaluation of arguments.
    #[inline(always)]
    pub(crate) fn gather(&mut self, alloc: Global, args: &'a Args, goal: Goal) -> Result<(), Memory>
        ensures { IfOk result (λ _. config_of self.new ≡ to_do (Gather [] args.now goal) (config_of self.old)) }
    {
        let gathering = Gathering {
            taken: Ints::new(alloc),
            args: args.items.as_slice(),
            goal,
        };
        self.push(Continuation::Gather(Box::new(alloc, gathering)?))
    }

    /// Schedules the call of a method. Its arguments are evaluated first, from the left.
    #[inline(always)]
    pub(crate) fn call(
        &mut self,
        alloc: Global,
        method: u32,
        args: &'a Args,
        place: Place,
    ) -> Result<Request, Memory>
        ensures { IfOk result (λ request. (request, config_of self.new) ≡
            on (to_do (Gather [] args.now (Enter method place)) (config_of self.old))) }
    {
        self.gather(alloc, args, Goal::Enter { method, place })?;
        Ok(Request::Nothing)
    }

    /// Schedules the evaluation of an argument. The arguments before it have values, and `args` are those after it.
    pub(crate) fn argument(
        &mut self,
        alloc: Global,
        taken: Ints,
        first: &'a Expr,
        args: &'a [Expr],
        goal: Goal,
    ) -> Result<Request, Memory>
        ensures { IfOk result (λ request. (request, config_of self.new) ≡
            on (to_do (Evaluate first.now) (to_do (Take taken (arguments_of args.now) goal) (config_of self.old)))) }
    {
        let gathering = Gathering { taken, args, goal };
        self.push(Continuation::Take(Box::new(alloc, gathering)?))?;
        self.push(Continuation::Evaluate(first))?;
        Ok(Request::Nothing)
    }

    /// Schedules the suspension at a task operation, which takes a unit of fuel. It is a fault if no fuel is left.
    pub(crate) fn suspend(
        &mut self,
        alloc: Global,
        operation: Operation,
        place: Place,
    ) -> Result<Request, Memory>
        ensures { IfOk result (λ request. (request, config_of self.new)
            ≡ asked_unit place (config_of self.old) (λ c. on (to_do (Suspend operation []) c))) }
    {
        if self.fuel == 0 {
            return Ok(fault(FaultCause::Fuel, place));
        }
        self.fuel -= 1;
        let suspension = Suspension {
            operation,
            positions: Stack::new(alloc),
        };
        self.push(Continuation::Suspend(Held::new(alloc, suspension)?))?;
        Ok(Request::Nothing)
    }
}
