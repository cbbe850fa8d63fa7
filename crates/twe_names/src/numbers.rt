//! The numbers of bindings. Each is 0 if a rule of names fails there.
ghost use Rattle.std.specs.Prelude.{◌≡◌};
ghost use Rattle.twe_names.specs.BodyMeaning.{cells_number, future_number, is_fixed, method_number, task_number, value_meaning};

use name_check::{Binding, Global, Local};
use twe_ast::LocalType;
use twe_base::Place;
use twe_program::{Expr, ExprKind};

/// The number of a declaration of cells.
pub fn cells_number(binding: Option<Binding>) -> u32
    ensures { result ≡ cells_number binding }
{
    match binding {
        Some(Binding::Global(Global::Cells { number, .. })) => number,
        _ => 0,
    }
}

/// The number of a method.
pub fn method_number(binding: Option<Binding>) -> u32
    ensures { result ≡ method_number binding }
{
    match binding {
        Some(Binding::Global(Global::Method { number, .. })) => number,
        _ => 0,
    }
}

/// The number of a task.
pub fn task_number(binding: Option<Binding>) -> u32
    ensures { result ≡ task_number binding }
{
    match binding {
        Some(Binding::Global(Global::Task { number, .. })) => number,
        _ => 0,
    }
}

/// The number of a future.
pub fn future_number(binding: Option<Binding>) -> u32
    ensures { result ≡ future_number binding }
{
    match binding {
        Some(Binding::Local(Local::Future { number, .. })) => number,
        _ => 0,
    }
}

/// Whether a parameter or a local is itself in an index: it is an `int` that may not be assigned.
fn is_fixed(local_type: LocalType, constant: bool) -> bool
    ensures { result ≡ is_fixed local_type constant }
{
    match local_type {
        LocalType::Int => constant,
        LocalType::Boolean => false,
    }
}

/// The meaning of a name that is used as a value.
pub fn named_value(binding: Option<Binding>, place: Place) -> Expr
    ensures { result ≡ value_meaning binding place }
{
    match binding {
        Some(
            Binding::Local(
                Local::Variable {
                    number,
                    local_type,
                    constant,
                },
            ),
        ) => Expr::new(ExprKind::Var {
            var: number,
            fixed: is_fixed(local_type, constant),
        }),
        other => Expr::cell(cells_number(other), place),
    }
}
