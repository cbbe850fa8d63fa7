//! Collects what is done to evaluate an expression.
ghost use Rattle.std.specs.Prelude.{◌≡◌, ◌∷◌, [], ◌++◌, OnOk};
ghost use Rattle.effect_infer.specs.needs.Steps.{call_step, steps_of, steps_of_all};

use crate::needs::need::{BodyStep, Steps, add_touch};
use effect_check::{accessed_elements, element_of_index, elements_of};
use std::alloc::Global;
use twe_base::Memory;
use twe_program::{Args, CellDecl, Expr, ExprKind};

/// Adds a call of a method.
pub(crate) fn add_call(
    steps: &mut Steps,
    alloc: Global,
    method: u32,
    args: &Args,
) -> Result<(), Memory>
    ensures { OnOk result (steps.new ≡ steps.old ++ call_step method args.now ∷ []) }
{
    let args = elements_of(alloc, args)?;
    steps.push(BodyStep::Call { method, args })
}

/// Adds what is done to evaluate the expression.
#[cycle(expr)]
pub(crate) fn add_expr(
    expr: &Expr,
    steps: &mut Steps,
    alloc: Global,
    cells: &[CellDecl],
) -> Result<(), Memory>
    ensures { OnOk result (steps.new ≡ steps.old ++ steps_of cells.now expr.now) }
{
    match &expr.kind {
        ExprKind::Lit(_) | ExprKind::Truth(_) | ExprKind::Var { .. } => Ok(()),
        ExprKind::Cell { cell, .. } => {
            let elems = accessed_elements(alloc, cells, *cell, &[])?;
            add_touch(steps, false, elems)
        }
        ExprKind::At {
            array,
            index,
            second: None,
            ..
        } => {
            let elems = accessed_elements(alloc, cells, *array, &[element_of_index(index)])?;
            add_touch(steps, false, elems)?;
            add_expr(index, steps, alloc, cells)
        }
        ExprKind::At {
            array,
            index,
            second: Some(second),
            ..
        } => {
            let elems = accessed_elements(
                alloc,
                cells,
                *array,
                &[element_of_index(index), element_of_index(second)],
            )?;
            add_touch(steps, false, elems)?;
            add_expr(index, steps, alloc, cells)?;
            add_expr(second, steps, alloc, cells)
        }
        ExprKind::Call { method, args, .. } => {
            add_call(steps, alloc, *method, args)?;
            add_args(args, steps, alloc, cells)
        }
        ExprKind::Neg(operand) | ExprKind::Not(operand) => add_expr(operand, steps, alloc, cells),
        ExprKind::Bin { left, right, .. } => {
            add_expr(left, steps, alloc, cells)?;
            add_expr(right, steps, alloc, cells)
        }
    }
}

/// Adds what is done to evaluate the arguments.
#[cycle(expr)]
pub(crate) fn add_args(
    args: &Args,
    steps: &mut Steps,
    alloc: Global,
    cells: &[CellDecl],
) -> Result<(), Memory>
    ensures { OnOk result (steps.new ≡ steps.old ++ steps_of_all cells.now args.now) }
{
    for arg in args.items.as_slice() {
        add_expr(arg, steps, alloc, cells)?;
    }
    Ok(())
}
