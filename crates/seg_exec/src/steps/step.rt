//! One step of the evaluator.
ghost use Rattle.std.specs.Prelude.{◌≡◌, IfOk};
ghost use Rattle.seg_exec.specs.inner.steps.Steps.{worked};
ghost use Rattle.seg_exec.specs.inner.steps.Views.{config_of, continuation_of, use_of};

use crate::elements::cell_number;
use crate::steps::continuation::{Continuation, Gathering, ValueUse};
use crate::steps::machine::Machine;
use crate::steps::request::Request;
use std::alloc::Global;
use twe_base::Memory;
use twe_program::Prog;

impl<'a> Machine<'a> {
    /// Uses the latest value.
    #[inline(always)]
    pub(crate) fn use_value(&mut self, p: &Prog, then: &ValueUse<'a>) -> Result<Request, Memory>
        ensures { IfOk result (λ request. (request, config_of self.new) ≡ worked p.now (use_of then.now) (config_of self.old)) }
    {
        match *then {
            ValueUse::Chosen {
                block,
                next,
                body,
                arms,
                last,
            } => self.chosen(block, next, body, arms, last),
            ValueUse::Turn { again, body, place } => self.turn(again, body, place),
            ValueUse::Negate => self.negate(),
            ValueUse::Invert => self.invert(),
            ValueUse::Right { op, right, place } => self.right(op, right, place),
            ValueUse::Apply { op, place } => self.apply(op, place),
            ValueUse::ReadElement { array, place } => Ok(self.read_element(p, array, place)),
            ValueUse::ReadGridElement { array, place } => Ok(self.read_grid_element(
                p, array, place,
            )),
            ValueUse::GiveVar(var) => Ok(self.give_var(var)),
            ValueUse::GiveCell(cell) => Ok(Request::Write(
                cell_number(p, cell),
                self.pop_operand(),
            )),
            ValueUse::GiveElement { array, place } => Ok(self.give_element(p, array, place)),
            ValueUse::GiveGridElement { array, place } => Ok(self.give_grid_element(
                p, array, place,
            )),
            ValueUse::PrintValue(place) => Ok(self.print(place)),
            ValueUse::Discard => Ok(self.discard()),
            ValueUse::Unwind => self.unwind(),
        }
    }
}
