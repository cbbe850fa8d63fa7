//! The rules of names in expressions.
ghost use Rattle.std.specs.Prelude.{◌≡◌, ◌++◌, None, Some};
ghost use Rattle.twe_ast.specs.Expression.{ArrayElement, CallValue, GridElement, Variable};
ghost use Rattle.name_check.specs.Types.{are_ints, argument_count, gives, left_need, operands_agree, right_need, type_if, type_of, type_of_shape};
ghost use Rattle.name_check.specs.Asks.{asks_inside, asks_of, asks_of_all};
ghost use Rattle.name_check.specs.inner.Failures.{failures_of_need, first_of_asks};
ghost use Rattle.name_check.specs.inner.First.{first_from};

use crate::binding::NameUse;
use crate::look::look_up;
use crate::names::Globals;
use crate::rule::NRule;
use crate::scope::Locals;
use crate::types::{
    are_numbers, binary_type, call_type, element_type, is_type, left_need, name_type, right_need,
    unary_type,
};
use crate::uses::check_use;
use twe_ast::{Args, BinOp, Expr, ExprKind, LocalType, Name};
use twe_base::{Failure, Place, report_if};

/// Returns the type that was found, and reports it if it differs from the one that is needed.
fn check_type(
    need: Option<LocalType>,
    found: Option<LocalType>,
    place: Place,
    first: &mut Option<Failure<NRule>>,
) -> Option<LocalType>
    ensures same { result ≡ found }
    ensures reported { first.new ≡ first_from first.old (failures_of_need need found place) }
{
    if let Some(need) = need {
        report_if(
            first,
            found.is_some() && !is_type(found, need),
            NRule::N3,
            place,
        );
    }
    found
}

/// How many arguments there are.
#[tactic(auto, using(crate::proofs::Arguments::count_is))]
pub fn count(args: &Args) -> usize
    ensures { result ≡ argument_count args.now }
{
    args.items.len()
}

/// Checks a name that is used as a value, and returns its type.
fn check_name(
    name: &Name,
    globals: &Globals,
    locals: &Locals,
    first: &mut Option<Failure<NRule>>,
) -> Option<LocalType>
    ensures found { result ≡ type_of_shape globals.now locals.now (Variable name.now) }
    ensures reported { first.new ≡ first_of_asks globals.now locals.now first.old
        (asks_inside globals.now locals.now (Variable name.now)) }
{
    check_use(name, NameUse::Value, globals, locals, first);
    name_type(look_up(globals, locals, &name.text))
}

/// Checks an element of an array, and returns its type.
#[cycle(expr)]
#[tactic(auto, using(crate::proofs::FirstFailures::firsts))]
fn check_element(
    array: &Name,
    index: &Expr,
    globals: &Globals,
    locals: &Locals,
    first: &mut Option<Failure<NRule>>,
) -> Option<LocalType>
    ensures found { result ≡ type_of_shape globals.now locals.now (ArrayElement array.now index.now) }
    ensures reported { first.new ≡ first_of_asks globals.now locals.now first.old
        (asks_inside globals.now locals.now (ArrayElement array.now index.now)) }
{
    check_use(array, NameUse::Array { indexes: 1 }, globals, locals, first);
    let index = check_expr(index, Some(LocalType::Int), globals, locals, first);
    let numbers = is_type(index, LocalType::Int);
    element_type(look_up(globals, locals, &array.text), 1, numbers)
}

/// Checks an element of a grid, and returns its type.
#[cycle(expr)]
#[tactic(auto, using(crate::proofs::FirstFailures::firsts))]
fn check_grid_element(
    array: &Name,
    row: &Expr,
    column: &Expr,
    globals: &Globals,
    locals: &Locals,
    first: &mut Option<Failure<NRule>>,
) -> Option<LocalType>
    ensures found { result ≡ type_of_shape globals.now locals.now (GridElement array.now row.now column.now) }
    ensures reported { first.new ≡ first_of_asks globals.now locals.now first.old
        (asks_inside globals.now locals.now (GridElement array.now row.now column.now)) }
{
    check_use(array, NameUse::Array { indexes: 2 }, globals, locals, first);
    let row = check_expr(row, Some(LocalType::Int), globals, locals, first);
    let column = check_expr(column, Some(LocalType::Int), globals, locals, first);
    let numbers = is_type(row, LocalType::Int) && is_type(column, LocalType::Int);
    element_type(look_up(globals, locals, &array.text), 2, numbers)
}

/// Checks a call of a method, and returns the type of its value.
#[cycle(expr)]
#[tactic(auto, using(crate::proofs::FirstFailures::firsts))]
fn check_call(
    method: &Name,
    args: &Args,
    globals: &Globals,
    locals: &Locals,
    first: &mut Option<Failure<NRule>>,
) -> Option<LocalType>
    ensures found { result ≡ type_of_shape globals.now locals.now (CallValue method.now args.now) }
    ensures reported { first.new ≡ first_of_asks globals.now locals.now first.old
        (asks_inside globals.now locals.now (CallValue method.now args.now)) }
{
    let count = count(args);
    let name_use = NameUse::Method {
        args: count,
        valued: true,
    };
    check_use(method, name_use, globals, locals, first);
    let numbers = check_args(args, globals, locals, first);
    call_type(look_up(globals, locals, &method.text), count, numbers)
}

/// Checks the two operands of an operator, and returns the type of its value.
#[cycle(expr)]
#[tactic(auto, using(crate::proofs::FirstFailures::firsts))]
fn check_operands(
    op: BinOp,
    left: &Expr,
    right: &Expr,
    globals: &Globals,
    locals: &Locals,
    first: &mut Option<Failure<NRule>>,
) -> Option<LocalType>
    ensures found { result ≡ type_if
        (operands_agree op (type_of globals.now locals.now left.now) (type_of globals.now locals.now right.now))
        (Some (gives op)) }
    ensures reported { first.new ≡ first_of_asks globals.now locals.now first.old
        (asks_of globals.now locals.now (left_need op) left.now
        ++ asks_of globals.now locals.now (right_need op (type_of globals.now locals.now left.now)) right.now) }
{
    let left = check_expr(left, left_need(op), globals, locals, first);
    let right = check_expr(right, right_need(op, left), globals, locals, first);
    binary_type(op, left, right)
}

/// Checks the inside of an expression, and returns its type. It has none if a rule fails inside it.
#[cycle(expr)]
#[tactic(auto, using(crate::proofs::FirstFailures::firsts))]
fn check_inside(
    expr: &Expr,
    globals: &Globals,
    locals: &Locals,
    first: &mut Option<Failure<NRule>>,
) -> Option<LocalType>
    ensures found { result ≡ type_of globals.now locals.now expr.now }
    ensures reported { first.new ≡ first_of_asks globals.now locals.now first.old (asks_of globals.now locals.now None expr.now) }
{
    match &expr.kind {
        ExprKind::Lit(_) => Some(LocalType::Int),
        ExprKind::Truth(_) => Some(LocalType::Boolean),
        ExprKind::Name(name) => check_name(name, globals, locals, first),
        ExprKind::At {
            array,
            index,
            second: None,
        } => check_element(array, index, globals, locals, first),
        ExprKind::At {
            array,
            index,
            second: Some(second),
        } => check_grid_element(array, index, second, globals, locals, first),
        ExprKind::Call { method, args } => check_call(method, args, globals, locals, first),
        ExprKind::Neg(operand) => {
            let operand = check_expr(operand, Some(LocalType::Int), globals, locals, first);
            unary_type(LocalType::Int, operand)
        }
        ExprKind::Not(operand) => {
            let operand = check_expr(operand, Some(LocalType::Boolean), globals, locals, first);
            unary_type(LocalType::Boolean, operand)
        }
        ExprKind::Bin {
            op,
            left,
            right,
            ..
        } => check_operands(*op, left, right, globals, locals, first),
    }
}

/// Checks an expression of which this type is needed, if one is, and returns its type. It has none if a rule fails inside
/// it.
#[cycle(expr)]
#[tactic(auto, using(crate::proofs::FirstFailures::firsts))]
pub fn check_expr(
    expr: &Expr,
    need: Option<LocalType>,
    globals: &Globals,
    locals: &Locals,
    first: &mut Option<Failure<NRule>>,
) -> Option<LocalType>
    ensures found { result ≡ type_of globals.now locals.now expr.now }
    ensures reported { first.new ≡ first_of_asks globals.now locals.now first.old (asks_of globals.now locals.now need expr.now) }
{
    let found = check_inside(expr, globals, locals, first);
    check_type(need, found, expr.place, first)
}

/// Checks arguments, and returns whether each is an `int` and no rule fails inside one.
#[cycle(expr)]
#[tactic(auto, using(crate::proofs::FirstFailures::firsts))]
pub fn check_args(
    args: &Args,
    globals: &Globals,
    locals: &Locals,
    first: &mut Option<Failure<NRule>>,
) -> bool
    ensures numbers { result ≡ are_ints globals.now locals.now args.now }
    ensures reported { first.new ≡ first_of_asks globals.now locals.now first.old (asks_of_all globals.now locals.now args.now) }
{
    let mut numbers = true;
    for arg in args.items.as_slice() {
        let found = check_expr(arg, Some(LocalType::Int), globals, locals, first);
        numbers = are_numbers(numbers, found);
    }
    numbers
}
