//! The nodes of expressions.
ghost use Rattle.std.specs.Prelude.{◌≡◌, IfOk};
ghost use Rattle.twe_program.specs.Expression.{ArrayElement, CallValue, GridElement, Negation, Negative, Truth};

use std::alloc::Global;
use twe_base::{Memory, Place};
use twe_program::{Args, Expr, ExprKind};

/// A truth value.
pub fn truth(value: bool) -> Expr
    ensures { result ≡ Truth value }
{
    Expr::new(ExprKind::Truth(value))
}

/// An element of an array.
pub fn array_element(alloc: Global, array: u32, index: Expr, place: Place) -> Result<Expr, Memory>
    ensures { IfOk result (λ e. e ≡ ArrayElement array index place) }
{
    let index = Box::new(alloc, index)?;
    let kind = ExprKind::At {
        array,
        index,
        second: None,
        place,
    };
    Ok(Expr::new(kind))
}

/// An element of a grid.
pub fn grid_element(
    alloc: Global,
    array: u32,
    row: Expr,
    column: Expr,
    place: Place,
) -> Result<Expr, Memory>
    ensures { IfOk result (λ e. e ≡ GridElement array row column place) }
{
    let index = Box::new(alloc, row)?;
    let column = Box::new(alloc, column)?;
    let kind = ExprKind::At {
        array,
        index,
        second: Some(column),
        place,
    };
    Ok(Expr::new(kind))
}

/// A call of a method.
pub fn call(method: u32, args: Args, place: Place) -> Expr
    ensures { result ≡ CallValue method args place }
{
    let kind = ExprKind::Call {
        method,
        args,
        place,
    };
    Expr::new(kind)
}

/// The negative of a number.
pub fn negative(alloc: Global, operand: Expr) -> Result<Expr, Memory>
    ensures { IfOk result (λ e. e ≡ Negative operand) }
{
    let operand = Box::new(alloc, operand)?;
    Ok(Expr::new(ExprKind::Neg(operand)))
}

/// The negation of a truth value.
pub fn negation(alloc: Global, operand: Expr) -> Result<Expr, Memory>
    ensures { IfOk result (λ e. e ≡ Negation operand) }
{
    let operand = Box::new(alloc, operand)?;
    Ok(Expr::new(ExprKind::Not(operand)))
}
