//! Whether what is there does for what is needed.
ghost use Rattle.std.specs.Prelude.{◌≡◌};
ghost use Rattle.name_check.specs.FailsName.{fits};
ghost use Rattle.name_check.specs.inner.Failures.{assigns_constant, differs, has_other_count, is_void, lacks_value};
ghost use Rattle.name_causes.specs.Breaking.{breaks, breaks_use, is_numbered, misuses, returns_otherwise};

use crate::need::NameNeed;
use name_check::{Binding, Global, Local, NRule, NameUse, is_type, is_void};
use twe_ast::{LocalType, ReturnType};
use twe_base::Rule;

/// Whether the number in the rule's name is this one.
pub(crate) fn is_numbered(number: u8, rule: NRule) -> bool
    ensures { result ≡ is_numbered number rule }
{
    rule.number() == number
}

/// Whether a binding is of the kind that the use needs.
fn fits(name_use: NameUse, found: Binding) -> bool
    ensures { result ≡ fits name_use found }
{
    match found {
        Binding::Local(Local::Variable { .. }) => match name_use {
            NameUse::Parameter | NameUse::Value | NameUse::Target => true,
            _ => false,
        },
        Binding::Local(Local::Future { spawned, .. }) => match name_use {
            NameUse::Future { join, .. } => join == spawned,
            _ => false,
        },
        Binding::Global(Global::Region(_)) => match name_use {
            NameUse::Region => true,
            _ => false,
        },
        Binding::Global(Global::Cells { indexes, .. }) => match name_use {
            NameUse::Value | NameUse::Target => indexes == 0,
            NameUse::Array { indexes: given } => indexes == given,
            _ => false,
        },
        Binding::Global(Global::Method { .. }) => match name_use {
            NameUse::Method { .. } => true,
            _ => false,
        },
        Binding::Global(Global::Task { .. }) => match name_use {
            NameUse::Task { .. } => true,
            _ => false,
        },
    }
}

/// Whether a value is needed of a method or a task that returns nothing.
fn lacks_value(name_use: NameUse, found: Binding) -> bool
    ensures { result ≡ lacks_value name_use found }
{
    match (name_use, found) {
        (NameUse::Future { valued, .. }, Binding::Local(Local::Future { void, .. })) => valued
            && void,
        (NameUse::Method { valued, .. }, Binding::Global(Global::Method { returns, .. })) => valued
            && is_void(returns),
        _ => false,
    }
}

/// Whether a method or a task is given another number of arguments than it has parameters.
fn has_other_count(name_use: NameUse, found: Binding) -> bool
    ensures { result ≡ has_other_count name_use found }
{
    match (found, name_use) {
        (Binding::Global(Global::Task { params, .. }), NameUse::Task { args }) => params != args,
        (Binding::Global(Global::Method { params, .. }), NameUse::Method { args, .. }) => params
            != args,
        _ => false,
    }
}

/// Whether a parameter or a `final` local is assigned.
fn assigns_constant(name_use: NameUse, found: Binding) -> bool
    ensures { result ≡ assigns_constant name_use found }
{
    match (found, name_use) {
        (Binding::Local(Local::Variable { constant, .. }), NameUse::Target) => constant,
        _ => false,
    }
}

/// Whether by this rule a name with this binding may not be used so.
fn misuses(rule: NRule, name_use: NameUse, found: Binding) -> bool
    ensures { result ≡ misuses rule name_use found }
{
    is_numbered(3, rule) && (!fits(name_use, found) || lacks_value(name_use, found))
        || (is_numbered(4, rule) && has_other_count(name_use, found)
            || is_numbered(6, rule) && assigns_constant(name_use, found))
}

/// The same of a name that has no binding if it is not in scope.
fn breaks_use(rule: NRule, name_use: NameUse, found: Option<Binding>) -> bool
    ensures { result ≡ breaks_use rule name_use found }
{
    match found {
        None => is_numbered(1, rule),
        Some(found) => misuses(rule, name_use, found),
    }
}

/// Whether a `return` does not do for what is returned.
fn returns_otherwise(valued: bool, returns: ReturnType) -> bool
    ensures { result ≡ returns_otherwise valued returns }
{
    if valued {
        is_void(returns)
    } else {
        !is_void(returns)
    }
}

/// Whether there is a type, and it is not the one that is needed.
fn differs(need: LocalType, found: Option<LocalType>) -> bool
    ensures { result ≡ differs need found }
{
    found.is_some() && !is_type(found, need)
}

/// Whether by this rule what is there does not do for what is needed.
pub(crate) fn breaks(rule: NRule, need: NameNeed) -> bool
    ensures { result ≡ breaks rule need }
{
    match need {
        NameNeed::Used { name_use, found } => breaks_use(rule, name_use, found),
        NameNeed::Typed { need, found } => is_numbered(3, rule) && differs(need, found),
        NameNeed::New { found } => is_numbered(2, rule) && found.is_some(),
        NameNeed::Returned { valued, returns } => is_numbered(3, rule)
            && returns_otherwise(valued, returns),
        NameNeed::Again => is_numbered(2, rule),
        NameNeed::NoReturn { .. } => is_numbered(5, rule),
        NameNeed::Over { .. } => is_numbered(7, rule),
        NameNeed::NoMain { .. } => is_numbered(8, rule),
        NameNeed::SecondStar { .. } => is_numbered(9, rule),
    }
}
