//! The parameters that stand in paths, with their values.
ghost use Rattle.std.specs.Prelude.{◌≡◌, ◌∷◌, ◌++◌, [], ◌||◌, IfOk, OnOk, if◌then◌else◌};
ghost use Rattle.std.specs.List.{list_any};
ghost use Rattle.effect_meeting.specs.Solutions.{first_by};
ghost use Rattle.effect_meeting.specs.Values.{is_variable, has_variable, values_in};

use crate::equality::{Equality, Term};
use crate::solve::solved_value;
use region_paths::{Elem, Path};
use std::alloc::Global;
use twe_base::{List, Memory};

/// A parameter of a task, and a value of it.
#[derive(Clone, Copy, Debug, PartialEq, Eq)]
pub struct ParamValue {
    /// The number of the parameter.
    pub param: u32,
    /// Its value.
    pub value: i32,
}

/// Parameters with their values, in the order of the parameters.
pub type ParamValues = List<ParamValue>;

/// Whether the element is this variable.
fn is_variable(number: u32, elem: Elem) -> bool
    ensures { result ≡ is_variable number elem }
{
    match elem {
        Elem::Name(_) => false,
        Elem::Index(_) => false,
        Elem::Var(k) => k == number,
        Elem::AnyIndex => false,
    }
}

/// Whether the variable is one of these elements.
fn is_among(number: u32, elems: &[Elem]) -> bool
    ensures { result ≡ list_any (is_variable number) elems.now }
{
    elems.iter().any(|elem| is_variable(number, *elem))
}

/// Whether the variable is one of the elements of the path, before its star or after it.
fn has_variable(number: u32, path: &Path) -> bool
    ensures { result ≡ has_variable number path.now }
{
    is_among(number, path.elems().as_slice()) || is_among(number, path.tail().as_slice())
}

/// Whether the variable stands in one of the paths.
fn either_has_variable(number: u32, first: &Path, second: &Path) -> bool
    ensures { result ≡ (has_variable number first.now || has_variable number second.now) }
{
    has_variable(number, first) || has_variable(number, second)
}

/// Appends a parameter with its value, if it is to be told.
fn push_if(values: &mut ParamValues, told: bool, given: ParamValue) -> Result<(), Memory>
    ensures { OnOk result (values.new ≡ values.old ++ (if told then given ∷ [] else [])) }
{
    if told { values.push(given) } else { Ok(()) }
}

/// The parameters that stand in one of the paths, each with the value that the steps give it.
pub(crate) fn values_by(
    alloc: Global,
    shared: u32,
    first: &Path,
    second: &Path,
    steps: &[Equality],
) -> Result<ParamValues, Memory>
    ensures { IfOk result (λ values. values ≡ values_in shared first.now second.now (first_by steps.now)) }
{
    let mut values = ParamValues::new(alloc);
    for param in 0..shared {
        let told = either_has_variable(param, first, second);
        let value = solved_value(steps, Term::First(param));
        push_if(&mut values, told, ParamValue { param, value })?;
    }
    Ok(values)
}
