//! The evaluation of one expression: its value, or the continuation that computes it.
ghost use Rattle.std.specs.Prelude.{◌≡◌, IfOk};
ghost use Rattle.seg_exec.specs.inner.steps.Continuations.{Evaluate, ReadElement, ReadGridElement, Right, to_do, var_value};
ghost use Rattle.seg_exec.specs.inner.steps.Steps.{evaluated, on};
ghost use Rattle.seg_exec.specs.inner.steps.Views.{config_of};

use crate::arithmetic::number_of;
use crate::elements::cell_number;
use crate::steps::continuation::{Continuation, ValueUse};
use crate::steps::machine::Machine;
use crate::steps::request::Request;
use std::alloc::Global;
use twe_base::{Memory, Place};
use twe_program::{BinOp, Expr, ExprKind, Prog};

impl<'a> Machine<'a> {
    /// The value of a variable; 0 if there is no such variable.
    fn var(&self, var: u32) -> i32
        ensures { result ≡ var_value var (config_of self.now) }
    {
        self.vars.as_slice().get(var as usize).copied().unwrap_or(0)
    }

    /// Schedules the read of an element of an array.
    fn element(&mut self, array: u32, index: &'a Expr, place: Place) -> Result<Request, Memory>
        ensures { IfOk result (λ request. (request, config_of self.new) ≡
            on (to_do (Evaluate index.now) (to_do (ReadElement array place) (config_of self.old)))) }
    {
        self.evaluate_then(index, ValueUse::ReadElement { array, place })
    }

    /// Schedules the read of an element of a grid. Its row is evaluated before its column.
    fn grid_element(
        &mut self,
        array: u32,
        row: &'a Expr,
        column: &'a Expr,
        place: Place,
    ) -> Result<Request, Memory>
        ensures { IfOk result (λ request. (request, config_of self.new) ≡
            on (to_do (Evaluate row.now)
            (to_do (Evaluate column.now) (to_do (ReadGridElement array place) (config_of self.old))))) }
    {
        let then = ValueUse::ReadGridElement { array, place };
        self.push(Continuation::UseValue(then))?;
        self.push(Continuation::Evaluate(column))?;
        self.push(Continuation::Evaluate(row))?;
        Ok(Request::Nothing)
    }

    /// Schedules an operator. Its left operand is evaluated before its right one.
    fn operator(
        &mut self,
        op: BinOp,
        left: &'a Expr,
        right: &'a Expr,
        place: Place,
    ) -> Result<Request, Memory>
        ensures { IfOk result (λ request. (request, config_of self.new) ≡
            on (to_do (Evaluate left.now) (to_do (Right op right.now place) (config_of self.old)))) }
    {
        self.evaluate_then(left, ValueUse::Right { op, right, place })
    }

    /// Pushes the value of an expression onto the operand stack, requests the value of a cell, or pushes the continuation
    /// that computes the value.
    pub(crate) fn evaluate(
        &mut self,
        alloc: Global,
        p: &Prog,
        expr: &'a Expr,
    ) -> Result<Request, Memory>
        ensures { IfOk result (λ request. (request, config_of self.new) ≡ evaluated p.now expr.now (config_of self.old)) }
    {
        match &expr.kind {
            ExprKind::Lit(value) => self.evaluated_to(*value),
            ExprKind::Truth(value) => self.evaluated_to(number_of(*value)),
            ExprKind::Var { var, .. } => {
                let value = self.var(*var);
                self.evaluated_to(value)
            }
            ExprKind::Cell { cell, .. } => Ok(Request::Read(cell_number(p, *cell))),
            ExprKind::At {
                array,
                index,
                second: None,
                place,
            } => self.element(*array, index, *place),
            ExprKind::At {
                array,
                index,
                second: Some(second),
                place,
            } => self.grid_element(*array, index, second, *place),
            ExprKind::Call {
                method,
                args,
                place,
            } => self.call(alloc, *method, args, *place),
            ExprKind::Neg(operand) => self.evaluate_then(operand, ValueUse::Negate),
            ExprKind::Not(operand) => self.evaluate_then(operand, ValueUse::Invert),
            ExprKind::Bin {
                op,
                left,
                right,
                place,
            } => self.operator(*op, left, right, *place),
        }
    }
}
