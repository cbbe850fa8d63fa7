//! The resolver, for expressions.
ghost use Rattle.std.specs.Prelude.{◌≡◌, IfOk};
ghost use Rattle.twe_names.specs.BodyMeaning.{arguments_of, expression_of};

use crate::nodes::{array_element, call, grid_element, negation, negative, truth};
use crate::numbers::{cells_number, method_number, named_value};
use name_check::{Globals, Locals, look_up};
use std::alloc::Global;
use twe_ast::{Args as WrittenArgs, Expr as Written, ExprKind as Kind};
use twe_base::Memory;
use twe_program::{Args, Expr};

/// The meaning of an expression if these names are in scope.
#[cycle(expr)]
pub fn expression(
    written: &Written,
    alloc: Global,
    globals: &Globals,
    locals: &Locals,
) -> Result<Expr, Memory>
    ensures { IfOk result (λ e. e ≡ expression_of globals.now locals.now written.now) }
{
    match &written.kind {
        Kind::Lit(value) => Ok(Expr::literal(*value)),
        Kind::Truth(value) => Ok(truth(*value)),
        Kind::Name(name) => Ok(named_value(look_up(globals, locals, &name.text), name.place)),
        Kind::At {
            array,
            index,
            second: None,
        } => {
            let number = cells_number(look_up(globals, locals, &array.text));
            let index = expression(index, alloc, globals, locals)?;
            array_element(alloc, number, index, array.place)
        }
        Kind::At {
            array,
            index,
            second: Some(second),
        } => {
            let number = cells_number(look_up(globals, locals, &array.text));
            let row = expression(index, alloc, globals, locals)?;
            let column = expression(second, alloc, globals, locals)?;
            grid_element(alloc, number, row, column, array.place)
        }
        Kind::Call { method, args } => {
            let number = method_number(look_up(globals, locals, &method.text));
            let args = arguments(args, alloc, globals, locals)?;
            Ok(call(number, args, method.place))
        }
        Kind::Neg(operand) => negative(alloc, expression(operand, alloc, globals, locals)?),
        Kind::Not(operand) => negation(alloc, expression(operand, alloc, globals, locals)?),
        Kind::Bin {
            op,
            left,
            right,
            place,
        } => {
            let left = expression(left, alloc, globals, locals)?;
            let right = expression(right, alloc, globals, locals)?;
            Expr::binary(alloc, *op, left, right, *place)
        }
    }
}

/// The meaning of the arguments of a call.
#[cycle(expr)]
#[tactic(auto, using(crate::proofs::Arguments::all_arguments))]
pub fn arguments(
    written: &WrittenArgs,
    alloc: Global,
    globals: &Globals,
    locals: &Locals,
) -> Result<Args, Memory>
    ensures { IfOk result (λ args. args ≡ arguments_of globals.now locals.now written.now) }
{
    let mut items = Vec::new(alloc);
    for arg in written.items.as_slice() {
        items.push(expression(arg, alloc, globals, locals)?)?;
    }
    Ok(Args { items })
}
