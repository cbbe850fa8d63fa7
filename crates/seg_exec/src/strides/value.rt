//! The value of an expression that calls no method, by recursion over the expression.
ghost use Rattle.std.specs.Prelude.{◌≡◌, true, Some, slice_get};
ghost use Rattle.seg_meaning.specs.Access.{value_in, ways_of};
ghost use Rattle.seg_meaning.specs.Arithmetic.{operated};
ghost use Rattle.seg_exec.specs.inner.strides.Leaves.{leaf_value, pair_value, value_on};
ghost use Rattle.twe_program.specs.Expression.{is_plain};
ghost use Rattle.seg_exec.specs.inner.strides.Strides.{EvaluatesTo, MayEvaluate, MayReadAt, ReadsAt, fault_ending, quotient_or};

use crate::arithmetic::{decide, invert, is_true, negate, number_of, operate};
use crate::elements::{cell_number, element_number, grid_element_number};
use crate::steps::request::Ending;
use seg_meaning::{Cells, FaultCause};
use twe_base::Place;
use twe_program::{BinOp, Expr, ExprKind, Prog};

/// A fault and its place in the text.
#[derive(Clone, Copy, Debug)]
pub(crate) struct Fault {
    /// What led to it.
    pub(crate) cause: FaultCause,
    /// Its place.
    pub(crate) place: Place,
}

impl Fault {
    /// The end of a run with this fault.
    pub(crate) fn ending(self) -> Ending
        ensures { result ≡ fault_ending self }
    {
        Ending::Faulted {
            cause: self.cause,
            place: self.place,
        }
    }
}

/// The value of a variable; 0 if there is no such variable.
#[inline(always)]
fn var_in(vars: &[i32], var: u32) -> i32
    ensures { result ≡ value_in (slice_get vars.now var) }
{
    match vars.get(var as usize) {
        None => 0,
        Some(value) => *value,
    }
}

/// Reads an element. It is a fault with the cause `missing` if there is no such element.
#[inline(always)]
fn read<C: Cells>(
    cells: &mut C,
    cell: Option<u32>,
    missing: FaultCause,
    place: Place,
) -> Result<i32, Fault>
    requires { MayReadAt (ways_of C.known C.may_read C.may_write C.rule) cells.old cell }
    ensures { ReadsAt (ways_of C.known C.may_read C.may_write C.rule) cell missing place cells.old result cells.new }
{
    match cell {
        None => Err(Fault {
            cause: missing,
            place,
        }),
        Some(cell) => Ok(cells.get(cell)),
    }
}

/// The value of an expression that is an integer literal or a variable; none of another. A variable is looked for first: most
/// operands are variables.
#[inline(always)]
fn leaf_value(expr: &Expr, vars: &[i32]) -> Option<i32>
    ensures { result ≡ leaf_value expr.now vars.now }
{
    if let ExprKind::Var { var, .. } = &expr.kind {
        return Some(var_in(vars, *var));
    }
    match &expr.kind {
        ExprKind::Lit(value) => Some(*value),
        _ => None,
    }
}

/// Applies an operator to its operands. It is a fault if the operator divides by zero.
#[inline(always)]
fn apply(op: BinOp, left: i32, right: i32, place: Place) -> Result<i32, Fault>
    ensures { result ≡ quotient_or (operated op left right) place }
{
    match operate(op, left, right) {
        None => Err(Fault {
            cause: FaultCause::DivZero,
            place,
        }),
        Some(value) => Ok(value),
    }
}

/// The value of an operator on two values, of which the left one may decide it; none if it divides by zero.
#[inline(always)]
fn value_on(op: BinOp, left: i32, right: i32) -> Option<i32>
    ensures { result ≡ value_on op (Some left) (Some right) }
{
    match op {
        BinOp::Or => Some(if is_true(left) { 1 } else { right }),
        BinOp::And => Some(if is_true(left) { right } else { 0 }),
        _ => operate(op, left, right),
    }
}

/// The value of an operator on integer literals and variables; none of another expression, or if it divides by zero.
#[inline(always)]
fn pair_value(expr: &Expr, vars: &[i32]) -> Option<i32>
    ensures { result ≡ pair_value expr.now vars.now }
{
    match &expr.kind {
        ExprKind::Bin {
            op,
            left,
            right,
            ..
        } => match leaf_value(left, vars) {
            None => None,
            Some(left) => match leaf_value(right, vars) {
                None => None,
                Some(right) => value_on(*op, left, right),
            },
        },
        _ => None,
    }
}

/// Evaluates an expression that calls no method. It is inlined, so that literals, variables, and an operator on them cost no
/// call.
#[cycle(value)]
#[inline(always)]
pub(crate) fn value_of<C: Cells>(
    expr: &Expr,
    p: &Prog,
    vars: &[i32],
    cells: &mut C,
) -> Result<i32, Fault>
    requires plain { is_plain expr.now ≡ true }
    requires may { MayEvaluate p.now (ways_of C.known C.may_read C.may_write C.rule) expr.now vars.now cells.old }
    ensures { EvaluatesTo p.now (ways_of C.known C.may_read C.may_write C.rule) expr.now vars.now cells.old result cells.new }
{
    match leaf_value(expr, vars) {
        Some(value) => Ok(value),
        None => match pair_value(expr, vars) {
            Some(value) => Ok(value),
            None => value_by_parts(expr, p, vars, cells),
        },
    }
}

/// Evaluates an expression that calls no method, by the values of its parts. The recursion is as deep as the expression.
#[cycle(value)]
fn value_by_parts<C: Cells>(
    expr: &Expr,
    p: &Prog,
    vars: &[i32],
    cells: &mut C,
) -> Result<i32, Fault>
    requires plain { is_plain expr.now ≡ true }
    requires may { MayEvaluate p.now (ways_of C.known C.may_read C.may_write C.rule) expr.now vars.now cells.old }
    ensures { EvaluatesTo p.now (ways_of C.known C.may_read C.may_write C.rule) expr.now vars.now cells.old result cells.new }
{
    match &expr.kind {
        ExprKind::Lit(value) => Ok(*value),
        ExprKind::Truth(value) => Ok(number_of(*value)),
        ExprKind::Var { var, .. } => Ok(var_in(vars, *var)),
        ExprKind::Cell { cell, .. } => Ok(cells.get(cell_number(p, *cell))),
        ExprKind::At {
            array,
            index,
            second: None,
            place,
        } => {
            let index = value_of(index, p, vars, cells)?;
            let missing = FaultCause::Index(index);
            read(cells, element_number(p, *array, index), missing, *place)
        }
        ExprKind::At {
            array,
            index,
            second: Some(column),
            place,
        } => {
            let row = value_of(index, p, vars, cells)?;
            let column = value_of(column, p, vars, cells)?;
            let cell = grid_element_number(p, *array, row, column);
            read(cells, cell, FaultCause::GridIndex { row, column }, *place)
        }
        ExprKind::Call { .. } => Ok(0),
        ExprKind::Neg(operand) => {
            let value = value_of(operand, p, vars, cells)?;
            Ok(negate(value))
        }
        ExprKind::Not(operand) => {
            let value = value_of(operand, p, vars, cells)?;
            Ok(invert(value))
        }
        ExprKind::Bin {
            op,
            left,
            right,
            place,
        } => {
            let left = value_of(left, p, vars, cells)?;
            match decide(*op, is_true(left)) {
                Some(value) => Ok(value),
                None => {
                    let right = value_of(right, p, vars, cells)?;
                    apply(*op, left, right, *place)
                }
            }
        }
    }
}
