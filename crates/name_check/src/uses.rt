//! The rules on the use and the declaration of a name.
ghost use Rattle.std.specs.Prelude.{◌≡◌};
ghost use Rattle.name_check.specs.FailsName.{fits, binding_as};
ghost use Rattle.name_check.specs.inner.Failures.{assigns_constant, failures_here, failures_of_use, has_other_count, lacks_value};
ghost use Rattle.name_check.specs.Asks.{declares, uses};
ghost use Rattle.name_check.specs.inner.First.{first_from};

use crate::binding::{Binding, Global, Local, NameUse};
use crate::look::look_up;
use crate::names::Globals;
use crate::rule::NRule;
use crate::scope::Locals;
use twe_ast::{Name, ReturnType};
use twe_base::{Failure, Place, Word, report_if};

/// The binding of a name for this use. As an index in the path of an effect only parameters are in scope.
fn binding_as(globals: &Globals, locals: &Locals, name_use: NameUse, text: &Word) -> Option<Binding>
    ensures { result ≡ binding_as globals.now locals.now name_use text.now }
{
    match name_use {
        NameUse::Parameter => match locals.local(text) {
            Some(local) => Some(Binding::Local(local)),
            None => None,
        },
        _ => look_up(globals, locals, text),
    }
}

/// Whether a binding is of the kind that the use needs.
fn fits(name_use: NameUse, binding: Binding) -> bool
    ensures { result ≡ fits name_use binding }
{
    match (name_use, binding) {
        (NameUse::Region, Binding::Global(Global::Region(_))) => true,
        (NameUse::Parameter, Binding::Local(Local::Variable { .. })) => true,
        (NameUse::Value | NameUse::Target, Binding::Local(Local::Variable { .. })) => true,
        (NameUse::Value | NameUse::Target, Binding::Global(Global::Cells { indexes, .. })) =>
            indexes == 0,
        (NameUse::Array { indexes: given }, Binding::Global(Global::Cells { indexes, .. })) => {
            indexes == given
        }
        (NameUse::Method { .. }, Binding::Global(Global::Method { .. })) => true,
        (NameUse::Task { .. }, Binding::Global(Global::Task { .. })) => true,
        (NameUse::Future { join, .. }, Binding::Local(Local::Future { spawned, .. })) => join
            == spawned,
        _ => false,
    }
}

/// Whether a value is needed of a method or a task that returns nothing.
fn lacks_value(name_use: NameUse, binding: Binding) -> bool
    ensures { result ≡ lacks_value name_use binding }
{
    match (name_use, binding) {
        (
            NameUse::Method { valued: true, .. },
            Binding::Global(
                Global::Method {
                    returns: ReturnType::Void,
                    ..
                },
            ),
        ) => true,
        (NameUse::Future { valued: true, .. }, Binding::Local(Local::Future { void: true, .. })) =>
            true,
        _ => false,
    }
}

/// Whether a method or a task is given another number of arguments than it has parameters.
fn has_other_count(name_use: NameUse, binding: Binding) -> bool
    ensures { result ≡ has_other_count name_use binding }
{
    match (name_use, binding) {
        (NameUse::Method { args, .. }, Binding::Global(Global::Method { params, .. })) => params
            != args,
        (NameUse::Task { args }, Binding::Global(Global::Task { params, .. })) => params != args,
        _ => false,
    }
}

/// Whether a parameter or a `final` local is assigned.
fn assigns_constant(name_use: NameUse, binding: Binding) -> bool
    ensures { result ≡ assigns_constant name_use binding }
{
    match (name_use, binding) {
        (NameUse::Target, Binding::Local(Local::Variable { constant, .. })) => constant,
        _ => false,
    }
}

/// Reports the failures of the use of a name with this binding.
#[tactic(auto, using(crate::proofs::FirstFailures::firsts))]
fn report_use(
    first: &mut Option<Failure<NRule>>,
    name_use: NameUse,
    binding: Option<Binding>,
    place: Place,
)
    ensures { first.new ≡ first_from first.old (failures_of_use name_use binding place) }
{
    match binding {
        None => report_if(first, true, NRule::N1, place),
        Some(binding) => {
            report_if(first, !fits(name_use, binding), NRule::N3, place);
            report_if(first, lacks_value(name_use, binding), NRule::N3, place);
            report_if(first, has_other_count(name_use, binding), NRule::N4, place);
            report_if(first, assigns_constant(name_use, binding), NRule::N6, place);
        }
    }
}

/// Checks the use of a name at a place.
pub fn check_text(
    text: &Word,
    place: Place,
    name_use: NameUse,
    globals: &Globals,
    locals: &Locals,
    first: &mut Option<Failure<NRule>>,
)
    ensures { first.new ≡ first_from first.old
        (failures_here globals.now locals.now (uses (record { text = text.now; place = place }) name_use)) }
{
    let binding = binding_as(globals, locals, name_use, text);
    report_use(first, name_use, binding, place);
}

/// Checks the use of a name.
pub fn check_use(
    name: &Name,
    name_use: NameUse,
    globals: &Globals,
    locals: &Locals,
    first: &mut Option<Failure<NRule>>,
)
    ensures { first.new ≡ first_from first.old (failures_here globals.now locals.now (uses name.now name_use)) }
{
    check_text(&name.text, name.place, name_use, globals, locals, first);
}

/// Reports a name that is declared although it is in scope.
pub fn check_declared(
    name: &Name,
    globals: &Globals,
    locals: &Locals,
    first: &mut Option<Failure<NRule>>,
)
    ensures { first.new ≡ first_from first.old (failures_here globals.now locals.now (declares name.now)) }
{
    let binding = look_up(globals, locals, &name.text);
    report_if(first, binding.is_some(), NRule::N2, name.place);
}
