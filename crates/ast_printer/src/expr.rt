//! Expressions, with the parentheses that the grammar requires.
#![tactic(auto, using(crate::proofs::Texts::append_text, std::proofs::lemmas::Grind::common_steps))]

ghost use Rattle.std.specs.Prelude.{◌≡◌, ◌++◌, false, OnOk};
ghost use Rattle.ast_printer.specs.Text.{text_of};
ghost use Rattle.ast_printer.specs.ExpressionTokens.{arguments_tokens, expression_tokens, shape_tokens, truth_token};
ghost use Rattle.twe_ast.specs.Expression.{ArrayElement, Binary, GridElement};
ghost use Rattle.twe_base.specs.declared.place.Place.{Place};

use crate::operator::operator_token;
use crate::token::{push_fixed, push_literal, push_name, push_two, push_when};
use twe_ast::{Args, BinOp, Expr, ExprKind, Name};
use twe_base::{Bytes, Memory};
use twe_lexer::Fixed;

/// The token `true` or `false`.
fn truth_token(value: bool) -> Fixed
    ensures { result ≡ truth_token value }
{
    if value { Fixed::True } else { Fixed::False }
}

/// Writes an element of an array.
#[cycle(expr)]
pub(crate) fn push_element(array: &Name, index: &Expr, text: &mut Bytes) -> Result<(), Memory>
    ensures { OnOk result (text.new ≡ text.old ++ text_of (shape_tokens 0 (ArrayElement array.now index.now))) }
{
    push_name(text, array)?;
    push_fixed(text, Fixed::OpenBracket)?;
    push_expr(index, text, 0)?;
    push_fixed(text, Fixed::CloseBracket)
}

/// Writes an element of a grid.
#[cycle(expr)]
pub(crate) fn push_grid_element(
    array: &Name,
    row: &Expr,
    column: &Expr,
    text: &mut Bytes,
) -> Result<(), Memory>
    ensures { OnOk result (text.new ≡ text.old ++ text_of (shape_tokens 0 (GridElement array.now row.now column.now))) }
{
    push_name(text, array)?;
    push_fixed(text, Fixed::OpenBracket)?;
    push_expr(row, text, 0)?;
    push_two(text, Fixed::CloseBracket, Fixed::OpenBracket)?;
    push_expr(column, text, 0)?;
    push_fixed(text, Fixed::CloseBracket)
}

/// Writes an operator with its two operands, in parentheses if its precedence is below the level.
#[cycle(expr)]
fn push_operands(
    op: BinOp,
    left: &Expr,
    right: &Expr,
    text: &mut Bytes,
    level: u8,
) -> Result<(), Memory>
    ensures { (place : Place)
        → OnOk result (text.new ≡ text.old ++ text_of (shape_tokens level (Binary op left.now right.now place))) }
{
    let own = op.level();
    push_when(text, own < level, Fixed::OpenParen)?;
    push_expr(left, text, own)?;
    push_fixed(text, operator_token(op))?;
    push_expr(right, text, own + 1)?;
    push_when(text, own < level, Fixed::CloseParen)
}

/// Writes an expression, in parentheses if it is an operator with a precedence below the level.
#[cycle(expr)]
pub(crate) fn push_expr(expr: &Expr, text: &mut Bytes, level: u8) -> Result<(), Memory>
    ensures { OnOk result (text.new ≡ text.old ++ text_of (expression_tokens level expr.now)) }
{
    match &expr.kind {
        ExprKind::Lit(value) => push_literal(text, *value),
        ExprKind::Truth(value) => push_fixed(text, truth_token(*value)),
        ExprKind::Name(name) => push_name(text, name),
        ExprKind::At {
            array,
            index,
            second: None,
        } => push_element(array, index, text),
        ExprKind::At {
            array,
            index,
            second: Some(second),
        } => push_grid_element(array, index, second, text),
        ExprKind::Call { method, args } => {
            push_name(text, method)?;
            push_fixed(text, Fixed::OpenParen)?;
            push_args(args, text)
        }
        ExprKind::Neg(operand) => {
            push_fixed(text, Fixed::Minus)?;
            push_expr(operand, text, 6)
        }
        ExprKind::Not(operand) => {
            push_fixed(text, Fixed::Not)?;
            push_expr(operand, text, 6)
        }
        ExprKind::Bin {
            op,
            left,
            right,
            ..
        } => push_operands(*op, left, right, text, level),
    }
}

/// Writes arguments and the `)` after them.
#[cycle(expr)]
pub(crate) fn push_args(args: &Args, text: &mut Bytes) -> Result<(), Memory>
    ensures { OnOk result (text.new ≡ text.old ++ text_of (arguments_tokens false args.now)) }
{
    let mut later = false;
    for arg in args.items.as_slice() {
        push_when(text, later, Fixed::Comma)?;
        push_expr(arg, text, 0)?;
        later = true;
    }
    push_fixed(text, Fixed::CloseParen)
}
