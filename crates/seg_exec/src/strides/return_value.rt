//! The return of the value of an expression from a body. That of an operator whose operands call methods takes one frame.
ghost use Rattle.std.specs.Prelude.{◌≡◌, true, IfOk};
ghost use Rattle.seg_meaning.specs.Access.{ways_of};
ghost use Rattle.seg_exec.specs.inner.steps.Continuations.{Apply, Evaluate, Right, Unwind};
ghost use Rattle.seg_exec.specs.inner.steps.Reached.{standing};
ghost use Rattle.seg_exec.specs.inner.strides.Moving.{Moves, course};
ghost use Rattle.twe_program.specs.Expression.{is_plain};
ghost use Rattle.seg_exec.specs.inner.strides.Strides.{MayGo, doing};

use crate::arithmetic::{decide, is_true, operate};
use crate::steps::continuation::{Continuation, ValueUse};
use crate::steps::machine::Machine;
use crate::steps::request::Ending;
use crate::strides::evaluate::{begin, begin_one, operand};
use crate::strides::onward::Onward;
use crate::strides::serve::leave_with;
use crate::strides::value::value_of;
use seg_meaning::{Cells, FaultCause};
use std::alloc::Global;
use twe_base::{Ints, Memory, Place};
use twe_program::{BinOp, Expr, ExprKind, Prog};

/// Begins to evaluate an expression whose value is returned from the body. If it is an operator, its left operand comes next.
#[inline(never)]
fn begin_return<'a, C: Cells>(
    alloc: Global,
    p: &'a Prog,
    machine: &mut Machine<'a>,
    cells: &mut C,
    prints: &mut Ints,
    expr: &'a Expr,
) -> Result<Onward, Memory>
    requires { MayGo p.now (ways_of C.known C.may_read C.may_write C.rule)
        (doing (Evaluate expr.now) (doing Unwind (standing machine.old cells.old prints.old))) }
    ensures { IfOk result (λ onward. Moves p.now (ways_of C.known C.may_read C.may_write C.rule)
        (doing (Evaluate expr.now) (doing Unwind (standing machine.old cells.old prints.old)))
        (course onward machine.new) (standing machine.new cells.new prints.new)) }
{
    if let ExprKind::Bin {
        op,
        left,
        right,
        place,
    } = &expr.kind
    {
        machine.push(Continuation::RightThenReturn {
            op: *op,
            right,
            place: *place,
        })?;
        return operand(alloc, p, machine, cells, prints, left);
    }
    machine.push(Continuation::UseValue(ValueUse::Unwind))?;
    begin_one(alloc, p, machine, cells, prints, expr)
}

/// Evaluates an expression that calls no method and returns its value from the body.
#[inline(always)]
fn return_at_once<'a, C: Cells>(
    p: &'a Prog,
    machine: &mut Machine<'a>,
    cells: &mut C,
    prints: &mut Ints,
    expr: &'a Expr,
) -> Result<Onward, Memory>
    requires plain { is_plain expr.now ≡ true }
    requires may { MayGo p.now (ways_of C.known C.may_read C.may_write C.rule)
        (doing (Evaluate expr.now) (doing Unwind (standing machine.old cells.old prints.old))) }
    ensures { IfOk result (λ onward. Moves p.now (ways_of C.known C.may_read C.may_write C.rule)
        (doing (Evaluate expr.now) (doing Unwind (standing machine.old cells.old prints.old)))
        (course onward machine.new) (standing machine.new cells.new prints.new)) }
{
    match value_of(expr, p, machine.vars.as_slice(), cells) {
        Err(fault) => {
            machine.ending = Some(fault.ending());
            Ok(Onward::End)
        }
        Ok(value) => leave_with(p, machine, cells, prints, value),
    }
}

/// Evaluates an expression and returns its value from the body. If the expression calls a method, it makes only the first step.
#[inline(always)]
pub(crate) fn return_value<'a, C: Cells>(
    alloc: Global,
    p: &'a Prog,
    machine: &mut Machine<'a>,
    cells: &mut C,
    prints: &mut Ints,
    expr: &'a Expr,
) -> Result<Onward, Memory>
    requires { MayGo p.now (ways_of C.known C.may_read C.may_write C.rule)
        (doing (Evaluate expr.now) (doing Unwind (standing machine.old cells.old prints.old))) }
    ensures { IfOk result (λ onward. Moves p.now (ways_of C.known C.may_read C.may_write C.rule)
        (doing (Evaluate expr.now) (doing Unwind (standing machine.old cells.old prints.old)))
        (course onward machine.new) (standing machine.new cells.new prints.new)) }
{
    if expr.is_plain() {
        return return_at_once(p, machine, cells, prints, expr);
    }
    begin_return(alloc, p, machine, cells, prints, expr)
}

/// Applies an operator to the two latest values and returns its value from the body. It is a fault if it divides by zero.
#[inline(always)]
pub(crate) fn apply_then_return<'a, C: Cells>(
    p: &'a Prog,
    machine: &mut Machine<'a>,
    cells: &mut C,
    prints: &mut Ints,
    op: BinOp,
    place: Place,
) -> Result<Onward, Memory>
    requires { MayGo p.now (ways_of C.known C.may_read C.may_write C.rule)
        (doing (Apply op place) (doing Unwind (standing machine.old cells.old prints.old))) }
    ensures { IfOk result (λ onward. Moves p.now (ways_of C.known C.may_read C.may_write C.rule)
        (doing (Apply op place) (doing Unwind (standing machine.old cells.old prints.old)))
        (course onward machine.new) (standing machine.new cells.new prints.new)) }
{
    let right = machine.pop_operand();
    let left = machine.pop_operand();
    match operate(op, left, right) {
        None => {
            machine.ending = Some(Ending::Faulted {
                cause: FaultCause::DivZero,
                place,
            });
            Ok(Onward::End)
        }
        Some(value) => leave_with(p, machine, cells, prints, value),
    }
}

/// Evaluates the right operand of an operator, applies the operator and returns its value from the body. If the operand calls a
/// method, it makes only its first step.
#[inline(always)]
fn return_right<'a, C: Cells>(
    alloc: Global,
    p: &'a Prog,
    machine: &mut Machine<'a>,
    cells: &mut C,
    prints: &mut Ints,
    op: BinOp,
    right: &'a Expr,
    place: Place,
) -> Result<Onward, Memory>
    requires { MayGo p.now (ways_of C.known C.may_read C.may_write C.rule) (doing (Evaluate right.now)
        (doing (Apply op place) (doing Unwind (standing machine.old cells.old prints.old)))) }
    ensures { IfOk result (λ onward. Moves p.now (ways_of C.known C.may_read C.may_write C.rule)
        (doing (Evaluate right.now) (doing (Apply op place) (doing Unwind (standing machine.old cells.old prints.old))))
        (course onward machine.new) (standing machine.new cells.new prints.new)) }
{
    if !right.is_plain() {
        machine.push(Continuation::ApplyThenReturn { op, place })?;
        return begin(alloc, p, machine, cells, prints, right);
    }
    match value_of(right, p, machine.vars.as_slice(), cells) {
        Err(fault) => {
            machine.ending = Some(fault.ending());
            Ok(Onward::End)
        }
        Ok(value) => {
            machine.push_operand(value)?;
            apply_then_return(p, machine, cells, prints, op, place)
        }
    }
}

/// Evaluates the right operand of an operator, unless the left one decides, and returns the value of the operator from the body.
/// If the right operand calls a method, it makes only its first step.
#[inline(always)]
pub(crate) fn right_then_return<'a, C: Cells>(
    alloc: Global,
    p: &'a Prog,
    machine: &mut Machine<'a>,
    cells: &mut C,
    prints: &mut Ints,
    op: BinOp,
    right: &'a Expr,
    place: Place,
) -> Result<Onward, Memory>
    requires { MayGo p.now (ways_of C.known C.may_read C.may_write C.rule)
        (doing (Right op right.now place) (doing Unwind (standing machine.old cells.old prints.old))) }
    ensures { IfOk result (λ onward. Moves p.now (ways_of C.known C.may_read C.may_write C.rule)
        (doing (Right op right.now place) (doing Unwind (standing machine.old cells.old prints.old)))
        (course onward machine.new) (standing machine.new cells.new prints.new)) }
{
    let left = machine.pop_operand();
    match decide(op, is_true(left)) {
        Some(value) => leave_with(p, machine, cells, prints, value),
        None => {
            machine.push_operand(left)?;
            return_right(alloc, p, machine, cells, prints, op, right, place)
        }
    }
}
