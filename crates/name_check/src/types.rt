//! The types of expressions.
ghost use Rattle.std.specs.Prelude.{◌≡◌, ◌&&◌, Some};
ghost use Rattle.twe_ast.specs.declared.stmt.LocalType.TheVariants.{Int as IntType};
ghost use Rattle.name_check.specs.Types as types;

use crate::binding::{Binding, Global, Local};
use twe_ast::{BinOp, LocalType, ReturnType};

/// Whether there is a type, and it is this one.
pub fn is_type(found: Option<LocalType>, wanted: LocalType) -> bool
    ensures { result ≡ types.same_type found (Some wanted) }
{
    match (found, wanted) {
        (Some(LocalType::Int), LocalType::Int) => true,
        (Some(LocalType::Boolean), LocalType::Boolean) => true,
        _ => false,
    }
}

/// Whether those so far are numbers, and there is a type, which is that of a number.
pub fn are_numbers(so_far: bool, found: Option<LocalType>) -> bool
    ensures { result ≡ (so_far && types.same_type found (Some IntType)) }
{
    so_far && is_type(found, LocalType::Int)
}

/// What an operator needs on its left; any type, if none.
pub fn left_need(op: BinOp) -> Option<LocalType>
    ensures { result ≡ types.left_need op }
{
    match op {
        BinOp::Or | BinOp::And => Some(LocalType::Boolean),
        BinOp::Equal | BinOp::NotEqual => None,
        _ => Some(LocalType::Int),
    }
}

/// What an operator needs on its right, if its left operand has this type.
pub fn right_need(op: BinOp, left: Option<LocalType>) -> Option<LocalType>
    ensures { result ≡ types.right_need op left }
{
    match op {
        BinOp::Equal | BinOp::NotEqual => left,
        _ => left_need(op),
    }
}

/// The type of the value of an operator.
fn gives(op: BinOp) -> LocalType
    ensures { result ≡ types.gives op }
{
    match op {
        BinOp::Add | BinOp::Sub | BinOp::Mul | BinOp::Div | BinOp::Rem => LocalType::Int,
        _ => LocalType::Boolean,
    }
}

/// Whether there is a type, and it is the one that is needed, if one is.
fn agrees(need: Option<LocalType>, found: Option<LocalType>) -> bool
    ensures { result ≡ types.agrees need found }
{
    match need {
        None => found.is_some(),
        Some(need) => is_type(found, need),
    }
}

/// The type of an operator with operands of these types.
pub fn binary_type(
    op: BinOp,
    left: Option<LocalType>,
    right: Option<LocalType>,
) -> Option<LocalType>
    ensures { result ≡ types.type_if (types.operands_agree op left right) (Some (types.gives op)) }
{
    if agrees(left_need(op), left) && agrees(right_need(op, left), right) {
        Some(gives(op))
    } else {
        None
    }
}

/// The type of an operator whose one operand and whose value have this type.
pub fn unary_type(wanted: LocalType, operand: Option<LocalType>) -> Option<LocalType>
    ensures { result ≡ types.type_if (types.same_type operand (Some wanted)) (Some wanted) }
{
    if is_type(operand, wanted) {
        Some(wanted)
    } else {
        None
    }
}

/// The type of a name that is used as a value.
pub fn name_type(binding: Option<Binding>) -> Option<LocalType>
    ensures { result ≡ types.type_of_name binding }
{
    match binding {
        Some(Binding::Local(Local::Variable { local_type, .. })) => Some(local_type),
        Some(Binding::Global(Global::Cells { indexes: 0, .. })) => Some(LocalType::Int),
        _ => None,
    }
}

/// The type of an element of an array or a grid with `given` indexes, if these are numbers.
pub fn element_type(binding: Option<Binding>, given: u8, numbers: bool) -> Option<LocalType>
    ensures { result ≡ types.type_if numbers (types.type_of_element binding given) }
{
    match binding {
        Some(Binding::Global(Global::Cells { indexes, .. })) if indexes == given && numbers => {
            Some(LocalType::Int)
        }
        _ => None,
    }
}

/// The type of a call with `given` arguments, if these are numbers.
pub fn call_type(binding: Option<Binding>, given: usize, numbers: bool) -> Option<LocalType>
    ensures { result ≡ types.type_if numbers (types.type_of_call binding given) }
{
    match binding {
        Some(
            Binding::Global(
                Global::Method {
                    params,
                    returns: ReturnType::Int,
                    ..
                },
            ),
        ) if params == given && numbers => Some(LocalType::Int),
        _ => None,
    }
}
