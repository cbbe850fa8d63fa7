//! The continuation frames that use values of the operand stack.
ghost use Rattle.std.specs.Prelude.{◌≡◌, IfOk};
ghost use Rattle.seg_meaning.specs.Arithmetic.{negation, negative};
ghost use Rattle.seg_exec.specs.inner.steps.Continuations.{top, with_operand, without_operand};
ghost use Rattle.seg_exec.specs.inner.steps.Steps.{applying, giving_element, giving_grid_element, giving_var};
ghost use Rattle.seg_exec.specs.inner.steps.Steps.{on, printing, reading_element, reading_grid_element, righting};
ghost use Rattle.seg_exec.specs.inner.steps.Views.{config_of};

use crate::arithmetic::{decide, invert, is_true, negate, operate};
use crate::elements::{element_number, grid_element_number};
use crate::steps::continuation::{Continuation, ValueUse};
use crate::steps::machine::{Machine, fault};
use crate::steps::request::Request;
use seg_meaning::FaultCause;
use twe_base::{Memory, Place};
use twe_program::{BinOp, Expr, Prog};

impl<'a> Machine<'a> {
    /// Replaces the latest value by its negative.
    pub(crate) fn negate(&mut self) -> Result<Request, Memory>
        ensures { IfOk result (λ request. (request, config_of self.new) ≡
            on (with_operand (negative (top self.old.operands)) (without_operand (config_of self.old)))) }
    {
        let value = self.pop_operand();
        self.evaluated_to(negate(value))
    }

    /// Replaces the latest value by its negation.
    pub(crate) fn invert(&mut self) -> Result<Request, Memory>
        ensures { IfOk result (λ request. (request, config_of self.new) ≡
            on (with_operand (negation (top self.old.operands)) (without_operand (config_of self.old)))) }
    {
        let value = self.pop_operand();
        self.evaluated_to(invert(value))
    }

    /// Pops the latest value and drops it.
    pub(crate) fn discard(&mut self) -> Request
        ensures { (result, config_of self.new) ≡ on (without_operand (config_of self.old)) }
    {
        let _ = self.pop_operand();
        Request::Nothing
    }

    /// Schedules the right operand, unless the left one on the stack decides the value.
    #[inline(always)]
    pub(crate) fn right(
        &mut self,
        op: BinOp,
        right: &'a Expr,
        place: Place,
    ) -> Result<Request, Memory>
        ensures { IfOk result (λ request. (request, config_of self.new) ≡ righting op right.now place (config_of self.old)) }
    {
        let left = self.pop_operand();
        match decide(op, is_true(left)) {
            Some(value) => self.push_operand(value)?,
            None => {
                self.push_operand(left)?;
                self.push(Continuation::UseValue(ValueUse::Apply { op, place }))?;
                self.push(Continuation::Evaluate(right))?;
            }
        }
        Ok(Request::Nothing)
    }

    /// Replaces the two latest values by the value of an operator on them. It is a fault if the operator divides by zero.
    #[inline(always)]
    pub(crate) fn apply(&mut self, op: BinOp, place: Place) -> Result<Request, Memory>
        ensures { IfOk result (λ request. (request, config_of self.new) ≡ applying op place (config_of self.old)) }
    {
        let right = self.pop_operand();
        let left = self.pop_operand();
        match operate(op, left, right) {
            None => Ok(fault(FaultCause::DivZero, place)),
            Some(value) => {
                self.push_operand(value)?;
                Ok(Request::Nothing)
            }
        }
    }

    /// Requests the value of an element of an array. It is a fault if the index is out of range.
    pub(crate) fn read_element(&mut self, p: &Prog, array: u32, place: Place) -> Request
        ensures { (result, config_of self.new) ≡ reading_element p.now array place (config_of self.old) }
    {
        let index = self.pop_operand();
        match element_number(p, array, index) {
            None => fault(FaultCause::Index(index), place),
            Some(cell) => Request::Read(cell),
        }
    }

    /// Requests the value of an element of a grid. It is a fault if an index is out of range.
    pub(crate) fn read_grid_element(&mut self, p: &Prog, array: u32, place: Place) -> Request
        ensures { (result, config_of self.new) ≡ reading_grid_element p.now array place (config_of self.old) }
    {
        let column = self.pop_operand();
        let row = self.pop_operand();
        match grid_element_number(p, array, row, column) {
            None => fault(FaultCause::GridIndex { row, column }, place),
            Some(cell) => Request::Read(cell),
        }
    }

    /// Assigns the latest value to a variable.
    #[inline(always)]
    pub(crate) fn give_var(&mut self, var: u32) -> Request
        ensures { (result, config_of self.new) ≡ giving_var var (config_of self.old) }
    {
        let value = self.pop_operand();
        let at = var as usize;
        if at < self.vars.len() {
            self.vars.set(at, value);
        }
        Request::Nothing
    }

    /// Requests that an element of an array takes the latest value. It is a fault if the index is out of range.
    pub(crate) fn give_element(&mut self, p: &Prog, array: u32, place: Place) -> Request
        ensures { (result, config_of self.new) ≡ giving_element p.now array place (config_of self.old) }
    {
        let value = self.pop_operand();
        let index = self.pop_operand();
        match element_number(p, array, index) {
            None => fault(FaultCause::Index(index), place),
            Some(cell) => Request::Write(cell, value),
        }
    }

    /// Requests that an element of a grid takes the latest value. It is a fault if an index is out of range.
    pub(crate) fn give_grid_element(&mut self, p: &Prog, array: u32, place: Place) -> Request
        ensures { (result, config_of self.new) ≡ giving_grid_element p.now array place (config_of self.old) }
    {
        let value = self.pop_operand();
        let column = self.pop_operand();
        let row = self.pop_operand();
        match grid_element_number(p, array, row, column) {
            None => fault(FaultCause::GridIndex { row, column }, place),
            Some(cell) => Request::Write(cell, value),
        }
    }

    /// Requests that the latest value is printed, which takes a unit of fuel. It is a fault if none is left.
    #[inline(always)]
    pub(crate) fn print(&mut self, place: Place) -> Request
        ensures { (result, config_of self.new) ≡ printing place (config_of self.old) }
    {
        let value = self.pop_operand();
        if self.fuel == 0 {
            return fault(FaultCause::Fuel, place);
        }
        self.fuel -= 1;
        Request::Print(value)
    }
}
