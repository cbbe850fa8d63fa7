//! What expressions need, and what is there.
ghost use Rattle.std.specs.Prelude.{◌≡◌, ◌∷◌, [], ◌++◌, IfOk, OnOk, None, Some};
ghost use Rattle.twe_ast.specs.Expression.{ArrayElement, CallValue, GridElement};
ghost use Rattle.name_check.specs.Asks.{asks_inside, asks_of, asks_of_all, declares, need, uses};
ghost use Rattle.name_check.specs.FailsName.{binding_as};
ghost use Rattle.name_check.specs.Types.{are_ints, argument_count, gives, left_need, operands_agree, right_need, same_type, type_if, type_of, type_of_shape};
ghost use Rattle.name_causes.specs.Needs.{need_of_ask, needs_of_asks};

use crate::need::{NameNeed, PlacedNeed, PlacedNeeds};
use name_check::{
    Binding, Globals, Locals, NameUse, are_numbers, binary_type, call_type, element_type, is_type,
    left_need, look_up, name_type, right_need, unary_type,
};
use twe_ast::{Args, BinOp, Expr, ExprKind, LocalType, Name, ReturnType};
use twe_base::{Memory, Place, Word};

/// The binding of a name for this use.
fn binding_as(globals: &Globals, locals: &Locals, name_use: NameUse, text: &Word) -> Option<Binding>
    ensures { result ≡ binding_as globals.now locals.now name_use text.now }
{
    if let NameUse::Parameter = name_use {
        match locals.local(text) {
            None => None,
            Some(local) => Some(Binding::Local(local)),
        }
    } else {
        look_up(globals, locals, text)
    }
}

/// Adds what the use of a name at a place needs.
pub(crate) fn add_use_of(
    needs: &mut PlacedNeeds,
    globals: &Globals,
    locals: &Locals,
    returns: ReturnType,
    text: &Word,
    place: Place,
    name_use: NameUse,
) -> Result<(), Memory>
    ensures { OnOk result (needs.new ≡ needs.old
        ++ need_of_ask globals.now locals.now returns (uses (record { text = text.now; place = place }) name_use) ∷ []) }
{
    let _ = returns;
    let found = binding_as(globals, locals, name_use, text);
    let need = NameNeed::Used { name_use, found };
    needs.push(PlacedNeed { place, need })
}

/// Adds what the use of a name needs.
pub(crate) fn add_use(
    needs: &mut PlacedNeeds,
    globals: &Globals,
    locals: &Locals,
    returns: ReturnType,
    name: &Name,
    name_use: NameUse,
) -> Result<(), Memory>
    ensures { OnOk result (needs.new ≡ needs.old ++ need_of_ask globals.now locals.now returns (uses name.now name_use) ∷ []) }
{
    add_use_of(
        needs, globals, locals, returns, &name.text, name.place, name_use,
    )
}

/// Adds what the declaration of a parameter, a local or a future needs.
pub(crate) fn add_new(
    needs: &mut PlacedNeeds,
    globals: &Globals,
    locals: &Locals,
    returns: ReturnType,
    name: &Name,
) -> Result<(), Memory>
    ensures { OnOk result (needs.new ≡ needs.old ++ need_of_ask globals.now locals.now returns (declares name.now) ∷ []) }
{
    let _ = returns;
    let found = look_up(globals, locals, &name.text);
    needs.push(PlacedNeed {
        place: name.place,
        need: NameNeed::New { found },
    })
}

/// Adds that this type is needed of an expression, if one is.
fn add_type(
    needs: &mut PlacedNeeds,
    globals: &Globals,
    locals: &Locals,
    returns: ReturnType,
    expr: &Expr,
    wanted: Option<LocalType>,
    found: Option<LocalType>,
) -> Result<(), Memory>
    requires { found ≡ type_of globals.now locals.now expr.now }
    ensures { OnOk result (needs.new ≡ needs.old ++ needs_of_asks globals.now locals.now returns (need wanted expr.now)) }
{
    let _ = globals;
    let _ = locals;
    let _ = returns;
    match wanted {
        None => Ok(()),
        Some(need) => needs.push(PlacedNeed {
            place: expr.place,
            need: NameNeed::Typed { need, found },
        }),
    }
}

/// How many arguments there are.
#[tactic(auto, using(name_check::proofs::Arguments::count_is))]
pub(crate) fn count_of(args: &Args) -> usize
    ensures { result ≡ argument_count args.now }
{
    args.items.len()
}

/// Adds what an element of an array needs, and returns its type.
#[cycle(expr)]
#[tactic(auto, using(crate::proofs::Listing::listed))]
fn add_element(
    needs: &mut PlacedNeeds,
    globals: &Globals,
    locals: &Locals,
    returns: ReturnType,
    array: &Name,
    index: &Expr,
) -> Result<Option<LocalType>, Memory>
    ensures found { IfOk result (λ type. type ≡ type_of_shape globals.now locals.now (ArrayElement array.now index.now)) }
    ensures listed { OnOk result (needs.new ≡ needs.old
        ++ needs_of_asks globals.now locals.now returns (asks_inside globals.now locals.now (ArrayElement array.now index.now))) }
{
    let name_use = NameUse::Array { indexes: 1 };
    add_use(needs, globals, locals, returns, array, name_use)?;
    let index = add_expression(needs, globals, locals, returns, index, Some(LocalType::Int))?;
    let numbers = is_type(index, LocalType::Int);
    Ok(element_type(look_up(globals, locals, &array.text), 1, numbers))
}

/// Adds what an element of a grid needs, and returns its type.
#[cycle(expr)]
#[tactic(auto, using(crate::proofs::Listing::listed))]
fn add_grid_element(
    needs: &mut PlacedNeeds,
    globals: &Globals,
    locals: &Locals,
    returns: ReturnType,
    array: &Name,
    row: &Expr,
    column: &Expr,
) -> Result<Option<LocalType>, Memory>
    ensures found { IfOk result (λ type. type ≡ type_of_shape globals.now locals.now (GridElement array.now row.now column.now)) }
    ensures listed { OnOk result (needs.new ≡ needs.old
        ++ needs_of_asks globals.now locals.now returns
        (asks_inside globals.now locals.now (GridElement array.now row.now column.now))) }
{
    let name_use = NameUse::Array { indexes: 2 };
    add_use(needs, globals, locals, returns, array, name_use)?;
    let row = add_expression(needs, globals, locals, returns, row, Some(LocalType::Int))?;
    let column = add_expression(
        needs,
        globals,
        locals,
        returns,
        column,
        Some(LocalType::Int),
    )?;
    let numbers = is_type(row, LocalType::Int) && is_type(column, LocalType::Int);
    Ok(element_type(look_up(globals, locals, &array.text), 2, numbers))
}

/// Adds what a call of a method needs, and returns the type of its value.
#[cycle(expr)]
#[tactic(auto, using(crate::proofs::Listing::listed))]
fn add_call(
    needs: &mut PlacedNeeds,
    globals: &Globals,
    locals: &Locals,
    returns: ReturnType,
    method: &Name,
    args: &Args,
) -> Result<Option<LocalType>, Memory>
    ensures found { IfOk result (λ type. type ≡ type_of_shape globals.now locals.now (CallValue method.now args.now)) }
    ensures listed { OnOk result (needs.new ≡ needs.old ++ needs_of_asks globals.now locals.now returns
        (asks_inside globals.now locals.now (CallValue method.now args.now))) }
{
    let count = count_of(args);
    let name_use = NameUse::Method {
        args: count,
        valued: true,
    };
    add_use(needs, globals, locals, returns, method, name_use)?;
    let numbers = add_arguments(needs, globals, locals, returns, args)?;
    Ok(call_type(look_up(globals, locals, &method.text), count, numbers))
}

/// Adds what the two operands of an operator need, and returns the type of its value.
#[cycle(expr)]
#[tactic(auto, using(crate::proofs::Listing::listed))]
fn add_operands(
    needs: &mut PlacedNeeds,
    globals: &Globals,
    locals: &Locals,
    returns: ReturnType,
    op: BinOp,
    left: &Expr,
    right: &Expr,
) -> Result<Option<LocalType>, Memory>
    ensures found { IfOk result (λ type. type ≡ type_if
        (operands_agree op (type_of globals.now locals.now left.now) (type_of globals.now locals.now right.now))
        (Some (gives op))) }
    ensures listed { OnOk result (needs.new ≡ needs.old ++ needs_of_asks globals.now locals.now returns
        (asks_of globals.now locals.now (left_need op) left.now
        ++ asks_of globals.now locals.now (right_need op (type_of globals.now locals.now left.now)) right.now)) }
{
    let left = add_expression(needs, globals, locals, returns, left, left_need(op))?;
    let right = add_expression(needs, globals, locals, returns, right, right_need(op, left))?;
    Ok(binary_type(op, left, right))
}

/// Adds what an operand needs that has the type of the whole, and returns the type of the whole.
#[cycle(expr)]
#[tactic(auto, using(crate::proofs::Listing::listed))]
fn add_operand(
    needs: &mut PlacedNeeds,
    globals: &Globals,
    locals: &Locals,
    returns: ReturnType,
    operand: &Expr,
    both: LocalType,
) -> Result<Option<LocalType>, Memory>
    ensures found { IfOk result (λ type. type ≡ type_if
        (same_type (type_of globals.now locals.now operand.now) (Some both)) (Some both)) }
    ensures listed { OnOk result (needs.new ≡ needs.old ++ needs_of_asks globals.now locals.now returns
        (asks_of globals.now locals.now (Some both) operand.now)) }
{
    let found = add_expression(needs, globals, locals, returns, operand, Some(both))?;
    Ok(unary_type(both, found))
}

/// Adds what the inside of an expression needs, and returns the type of the expression.
#[cycle(expr)]
#[tactic(auto, using(crate::proofs::Listing::listed))]
fn add_inside(
    needs: &mut PlacedNeeds,
    globals: &Globals,
    locals: &Locals,
    returns: ReturnType,
    expr: &Expr,
) -> Result<Option<LocalType>, Memory>
    ensures found { IfOk result (λ type. type ≡ type_of globals.now locals.now expr.now) }
    ensures listed { OnOk result (needs.new ≡ needs.old ++ needs_of_asks globals.now locals.now returns
        (asks_of globals.now locals.now None expr.now)) }
{
    match &expr.kind {
        ExprKind::Lit(_) => Ok(Some(LocalType::Int)),
        ExprKind::Truth(_) => Ok(Some(LocalType::Boolean)),
        ExprKind::Name(name) => {
            add_use(needs, globals, locals, returns, name, NameUse::Value)?;
            Ok(name_type(look_up(globals, locals, &name.text)))
        }
        ExprKind::At {
            array,
            index,
            second: None,
        } => add_element(needs, globals, locals, returns, array, index),
        ExprKind::At {
            array,
            index,
            second: Some(column),
        } => add_grid_element(needs, globals, locals, returns, array, index, column),
        ExprKind::Call { method, args } => add_call(needs, globals, locals, returns, method, args),
        ExprKind::Neg(operand) => {
            add_operand(needs, globals, locals, returns, operand, LocalType::Int)
        }
        ExprKind::Not(operand) => {
            add_operand(needs, globals, locals, returns, operand, LocalType::Boolean)
        }
        ExprKind::Bin {
            op,
            left,
            right,
            ..
        } => add_operands(needs, globals, locals, returns, *op, left, right),
    }
}

/// Adds what an expression needs of which this type is needed, if one is, and returns its type. It has none if a rule fails
/// inside it.
#[cycle(expr)]
#[tactic(auto, using(crate::proofs::Listing::listed))]
pub(crate) fn add_expression(
    needs: &mut PlacedNeeds,
    globals: &Globals,
    locals: &Locals,
    returns: ReturnType,
    expr: &Expr,
    wanted: Option<LocalType>,
) -> Result<Option<LocalType>, Memory>
    ensures found { IfOk result (λ type. type ≡ type_of globals.now locals.now expr.now) }
    ensures listed { OnOk result (needs.new ≡ needs.old ++ needs_of_asks globals.now locals.now returns
        (asks_of globals.now locals.now wanted expr.now)) }
{
    let found = add_inside(needs, globals, locals, returns, expr)?;
    add_type(needs, globals, locals, returns, expr, wanted, found)?;
    Ok(found)
}

/// Adds what arguments need, and returns whether each is an `int` and no rule fails inside one.
#[cycle(expr)]
#[tactic(auto, using(crate::proofs::Listing::listed))]
pub(crate) fn add_arguments(
    needs: &mut PlacedNeeds,
    globals: &Globals,
    locals: &Locals,
    returns: ReturnType,
    args: &Args,
) -> Result<bool, Memory>
    ensures numbers { IfOk result (λ numbers. numbers ≡ are_ints globals.now locals.now args.now) }
    ensures listed { OnOk result (needs.new ≡ needs.old
        ++ needs_of_asks globals.now locals.now returns (asks_of_all globals.now locals.now args.now)) }
{
    let mut numbers = true;
    for arg in args.items.as_slice() {
        let found = add_expression(needs, globals, locals, returns, arg, Some(LocalType::Int))?;
        numbers = are_numbers(numbers, found);
    }
    Ok(numbers)
}
