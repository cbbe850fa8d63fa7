//! The evaluation of an expression: at once if it calls no method, and else its first step.
ghost use Rattle.std.specs.Prelude.{◌≡◌, true, IfOk};
ghost use Rattle.seg_exec.specs.inner.steps.Continuations.{Evaluate, Right};
ghost use Rattle.seg_exec.specs.inner.steps.Reached.{standing};
ghost use Rattle.seg_exec.specs.inner.steps.Views.{use_of};
ghost use Rattle.twe_program.specs.Expression.{is_plain};
ghost use Rattle.seg_exec.specs.inner.strides.Moving.{Moves, MovesOn, course};
ghost use Rattle.seg_exec.specs.inner.strides.Strides.{MayGo, MayStride, doing};
ghost use Rattle.seg_meaning.specs.Access.{ways_of};

use crate::arithmetic::{decide, is_true};
use crate::steps::continuation::{Continuation, ValueUse};
use crate::steps::machine::Machine;
use crate::strides::gather::call;
use crate::strides::onward::Onward;
use crate::strides::serve::{serve, use_value};
use crate::strides::value::value_of;
use seg_meaning::Cells;
use std::alloc::Global;
use twe_base::{Ints, Memory, Place};
use twe_program::{BinOp, Expr, ExprKind, Prog};

/// Begins to evaluate an expression: the arguments if it is a call, and else its first step.
#[inline(always)]
pub(crate) fn begin_one<'a, C: Cells>(
    alloc: Global,
    p: &'a Prog,
    machine: &mut Machine<'a>,
    cells: &mut C,
    prints: &mut Ints,
    expr: &'a Expr,
) -> Result<Onward, Memory>
    requires { MayStride p.now C.known C.may_read C.may_write C.rule (Evaluate expr.now) machine.old cells.old prints.old }
    ensures { IfOk result (MovesOn p.now C.known C.may_read C.may_write C.rule (Evaluate expr.now)
        machine.old cells.old prints.old machine.new cells.new prints.new) }
{
    match &expr.kind {
        ExprKind::Call {
            method,
            args,
            place,
        } => call(alloc, p, machine, cells, prints, *method, args, *place),
        _ => {
            let request = machine.evaluate(alloc, p, expr)?;
            serve(machine, cells, prints, request)
        }
    }
}

/// Evaluates an expression that calls no method.
#[inline(always)]
fn evaluate_at_once<'a, C: Cells>(
    p: &'a Prog,
    machine: &mut Machine<'a>,
    cells: &mut C,
    prints: &mut Ints,
    expr: &'a Expr,
) -> Result<Onward, Memory>
    requires plain { is_plain expr.now ≡ true }
    requires may { MayStride p.now C.known C.may_read C.may_write C.rule (Evaluate expr.now) machine.old cells.old prints.old }
    ensures { IfOk result (MovesOn p.now C.known C.may_read C.may_write C.rule (Evaluate expr.now)
        machine.old cells.old prints.old machine.new cells.new prints.new) }
{
    match value_of(expr, p, machine.vars.as_slice(), cells) {
        Err(fault) => {
            machine.ending = Some(fault.ending());
            Ok(Onward::End)
        }
        Ok(value) => {
            machine.push_operand(value)?;
            Ok(Onward::Below)
        }
    }
}

/// Evaluates an operand at once if it calls no method, and makes its first step otherwise.
#[inline(always)]
pub(crate) fn operand<'a, C: Cells>(
    alloc: Global,
    p: &'a Prog,
    machine: &mut Machine<'a>,
    cells: &mut C,
    prints: &mut Ints,
    expr: &'a Expr,
) -> Result<Onward, Memory>
    requires { MayStride p.now C.known C.may_read C.may_write C.rule (Evaluate expr.now) machine.old cells.old prints.old }
    ensures { IfOk result (MovesOn p.now C.known C.may_read C.may_write C.rule (Evaluate expr.now)
        machine.old cells.old prints.old machine.new cells.new prints.new) }
{
    if !expr.is_plain() {
        return begin_one(alloc, p, machine, cells, prints, expr);
    }
    evaluate_at_once(p, machine, cells, prints, expr)
}

/// Begins to evaluate an expression, and the left operand if it is an operator. It stands apart, so that what is inlined
/// for an expression that calls no method stays small.
#[inline(never)]
pub(crate) fn begin<'a, C: Cells>(
    alloc: Global,
    p: &'a Prog,
    machine: &mut Machine<'a>,
    cells: &mut C,
    prints: &mut Ints,
    expr: &'a Expr,
) -> Result<Onward, Memory>
    requires { MayStride p.now C.known C.may_read C.may_write C.rule (Evaluate expr.now) machine.old cells.old prints.old }
    ensures { IfOk result (MovesOn p.now C.known C.may_read C.may_write C.rule (Evaluate expr.now)
        machine.old cells.old prints.old machine.new cells.new prints.new) }
{
    if let ExprKind::Bin {
        op,
        left,
        right,
        place,
    } = &expr.kind
    {
        let then = ValueUse::Right {
            op: *op,
            right,
            place: *place,
        };
        machine.push(Continuation::UseValue(then))?;
        return operand(alloc, p, machine, cells, prints, left);
    }
    begin_one(alloc, p, machine, cells, prints, expr)
}

/// Evaluates an expression at once if it calls no method, and makes its first step otherwise.
pub(crate) fn evaluate<'a, C: Cells>(
    alloc: Global,
    p: &'a Prog,
    machine: &mut Machine<'a>,
    cells: &mut C,
    prints: &mut Ints,
    expr: &'a Expr,
) -> Result<Onward, Memory>
    requires { MayStride p.now C.known C.may_read C.may_write C.rule (Evaluate expr.now) machine.old cells.old prints.old }
    ensures { IfOk result (MovesOn p.now C.known C.may_read C.may_write C.rule (Evaluate expr.now)
        machine.old cells.old prints.old machine.new cells.new prints.new) }
{
    if expr.is_plain() {
        return evaluate_at_once(p, machine, cells, prints, expr);
    }
    begin(alloc, p, machine, cells, prints, expr)
}

/// Evaluates an expression that calls no method and uses its value for `then`.
#[inline(always)]
fn use_at_once<'a, C: Cells>(
    p: &'a Prog,
    machine: &mut Machine<'a>,
    cells: &mut C,
    prints: &mut Ints,
    expr: &'a Expr,
    then: &ValueUse<'a>,
) -> Result<Onward, Memory>
    requires plain { is_plain expr.now ≡ true }
    requires may { MayGo p.now (ways_of C.known C.may_read C.may_write C.rule)
        (doing (Evaluate expr.now) (doing (use_of then.now) (standing machine.old cells.old prints.old))) }
    ensures { IfOk result (λ onward. Moves p.now (ways_of C.known C.may_read C.may_write C.rule)
        (doing (Evaluate expr.now) (doing (use_of then.now) (standing machine.old cells.old prints.old)))
        (course onward machine.new) (standing machine.new cells.new prints.new)) }
{
    match value_of(expr, p, machine.vars.as_slice(), cells) {
        Err(fault) => {
            machine.ending = Some(fault.ending());
            Ok(Onward::End)
        }
        Ok(value) => {
            machine.push_operand(value)?;
            use_value(p, machine, cells, prints, then)
        }
    }
}

/// Evaluates an expression and uses its value for `then`. If the expression calls a method, it makes only the first step.
#[inline(always)]
pub(crate) fn evaluate_then<'a, C: Cells>(
    alloc: Global,
    p: &'a Prog,
    machine: &mut Machine<'a>,
    cells: &mut C,
    prints: &mut Ints,
    expr: &'a Expr,
    then: &ValueUse<'a>,
) -> Result<Onward, Memory>
    requires { MayGo p.now (ways_of C.known C.may_read C.may_write C.rule)
        (doing (Evaluate expr.now) (doing (use_of then.now) (standing machine.old cells.old prints.old))) }
    ensures { IfOk result (λ onward. Moves p.now (ways_of C.known C.may_read C.may_write C.rule)
        (doing (Evaluate expr.now) (doing (use_of then.now) (standing machine.old cells.old prints.old)))
        (course onward machine.new) (standing machine.new cells.new prints.new)) }
{
    if expr.is_plain() {
        return use_at_once(p, machine, cells, prints, expr, then);
    }
    machine.push(Continuation::UseValue(*then))?;
    begin(alloc, p, machine, cells, prints, expr)
}

/// Evaluates the right operand of an operator and applies the operator, unless the left operand decides. If the right operand
/// calls a method, it makes only its first step.
#[inline(always)]
pub(crate) fn right_of<'a, C: Cells>(
    alloc: Global,
    p: &'a Prog,
    machine: &mut Machine<'a>,
    cells: &mut C,
    prints: &mut Ints,
    op: BinOp,
    right: &'a Expr,
    place: Place,
) -> Result<Onward, Memory>
    requires { MayStride p.now C.known C.may_read C.may_write C.rule (Right op right.now place)
        machine.old cells.old prints.old }
    ensures { IfOk result (MovesOn p.now C.known C.may_read C.may_write C.rule (Right op right.now place)
        machine.old cells.old prints.old machine.new cells.new prints.new) }
{
    let left = machine.pop_operand();
    match decide(op, is_true(left)) {
        Some(value) => {
            machine.push_operand(value)?;
            Ok(Onward::Below)
        }
        None => {
            machine.push_operand(left)?;
            let then = ValueUse::Apply { op, place };
            evaluate_then(alloc, p, machine, cells, prints, right, &then)
        }
    }
}
