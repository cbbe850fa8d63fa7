//! The execution of statements that call a method, make a task or wait for one.
ghost use Rattle.std.specs.Prelude.{◌≡◌, [], IfOk};
ghost use Rattle.seg_meaning.specs.declared.operation.Operation.TheVariants.{Wait};
ghost use Rattle.seg_exec.specs.declared.steps.continuation.Goal.TheVariants.{Enter, Make};
ghost use Rattle.seg_exec.specs.inner.steps.Continuations.{Discard, Gather, Suspend, to_do};
ghost use Rattle.seg_exec.specs.inner.steps.Steps.{asked_unit, on};
ghost use Rattle.seg_exec.specs.inner.steps.Views.{config_of};

use crate::steps::continuation::{Continuation, Goal, ValueUse};
use crate::steps::machine::Machine;
use crate::steps::request::Request;
use seg_meaning::Operation;
use std::alloc::Global;
use twe_base::{Memory, Place};
use twe_program::Args;

impl<'a> Machine<'a> {
    /// Schedules the call of a method whose value is dropped.
    pub(crate) fn call_alone(
        &mut self,
        alloc: Global,
        method: u32,
        args: &'a Args,
        place: Place,
    ) -> Result<Request, Memory>
        ensures { IfOk result (λ request. (request, config_of self.new) ≡
            on (to_do (Gather [] args.now (Enter method place)) (to_do Discard (config_of self.old)))) }
    {
        self.push(Continuation::UseValue(ValueUse::Discard))?;
        self.call(alloc, method, args, place)
    }

    /// Schedules the making of a task. Its arguments are evaluated first, from the left.
    pub(crate) fn make(
        &mut self,
        alloc: Global,
        future: u32,
        task: u32,
        args: &'a Args,
        spawned: bool,
        place: Place,
    ) -> Result<Request, Memory>
        ensures { IfOk result (λ request. (request, config_of self.new) ≡
            on (to_do (Gather [] args.now (Make future task spawned place)) (config_of self.old))) }
    {
        let goal = Goal::Make {
            future,
            task,
            spawned,
            place,
        };
        self.gather(alloc, args, goal)?;
        Ok(Request::Nothing)
    }

    /// Schedules the wait for a task, which takes a unit of fuel. It is a fault if no fuel is left.
    pub(crate) fn wait(
        &mut self,
        alloc: Global,
        future: u32,
        join: bool,
        into: Option<u32>,
        place: Place,
    ) -> Result<Request, Memory>
        ensures { IfOk result (λ request. (request, config_of self.new) ≡
            asked_unit place (config_of self.old) (λ c. on (to_do (Suspend (Wait future join into) []) c))) }
    {
        let operation = Operation::Wait { future, join, into };
        self.suspend(alloc, operation, place)
    }
}
