//! The check of the names of a tree.
ghost use Rattle.std.specs.Prelude.{◌≡◌, ◌<◌, ◌^◌, IfOk, MatchOption, OnOk};
ghost use Rattle.std.specs.List.{list_any, sum_by};
ghost use Rattle.twe_base.specs.declared.place.Place.{Place as Somewhere};
ghost use Rattle.name_check.specs.declared.rule.NRule.{NRule as Named};
ghost use Rattle.name_check.specs.FailsName.{FailsName, IsFirstNameFailure};
ghost use Rattle.name_check.specs.Names.{globals_of};
ghost use Rattle.name_check.specs.Checked.{IsCheckOf};
ghost use Rattle.name_check.specs.Size.{IsCountable, size_of_item};
ghost use Rattle.name_check.specs.inner.Whole.{first_but_nodes, first_in_items, is_main, is_main_item};

use crate::cell_limits::first_over;
use crate::check_decl::check_item;
use crate::check_simple::is_void;
use crate::limits::report_at;
use crate::names::Globals;
use crate::rule::NRule;
use std::alloc::Global;
use twe_ast::{Ast, Decl, Item};
use twe_base::{Failure, Memory, report_if};

/// Whether a task is `main`, has no parameters and returns nothing.
fn is_main(decl: &Decl) -> bool
    ensures { result ≡ is_main decl.now }
{
    decl.name.text.as_str() == "main" && decl.params.len() == 0 && is_void(decl.returns)
}

/// Whether an item is the task `main`.
fn is_main_item(item: &Item) -> bool
    ensures { result ≡ is_main_item item.now }
{
    match item {
        Item::Task { decl, .. } => is_main(decl),
        _ => false,
    }
}

/// Whether one of the items is the task `main`.
fn has_main(items: &[Item]) -> bool
    ensures { result ≡ list_any is_main_item items.now }
{
    for item in items {
        if is_main_item(item) {
            return true;
        }
    }
    false
}

/// Checks items.
fn check_items(
    items: &[Item],
    alloc: Global,
    globals: &Globals,
    first: &mut Option<Failure<NRule>>,
) -> Result<(), Memory>
    requires { sum_by size_of_item items.now < 2 ^ 32 }
    ensures { OnOk result (first.new ≡ first_in_items globals.now first.old items.now) }
{
    for item in items {
        check_item(item, alloc, globals, first)?;
    }
    Ok(())
}

/// The first failure of a text with these global names, except for the limits on cells and nodes.
fn first_but_nodes(
    alloc: Global,
    ast: &Ast,
    globals: &Globals,
) -> Result<Option<Failure<NRule>>, Memory>
    requires countable { IsCountable ast.now }
    requires names { globals.now ≡ globals_of ast.now }
    ensures { IfOk result (λ found. found ≡ first_but_nodes ast.now) }
{
    let mut first = None;
    check_items(ast.items.as_slice(), alloc, globals, &mut first)?;
    globals.check_again(&mut first);
    report_if(
        &mut first,
        !has_main(ast.items.as_slice()),
        NRule::N8,
        ast.end,
    );
    Ok(first)
}

/// The outcome of checking the names of a tree.
#[derive(Debug, Drop)]
pub enum CheckedNames {
    /// No rule of names fails: the global names of the tree.
    Accepted(Globals),
    /// The first failure of a rule of names.
    Refused(Failure<NRule>),
}

/// Checks the names of a tree. If no rule of names fails it returns the global names of the tree, and otherwise the
/// failure that comes first in the text, and at one place the one with the lowest number.
pub fn check_names(alloc: Global, ast: &Ast) -> Result<CheckedNames, Memory>
    requires { IsCountable ast.now }
    ensures { IfOk result (IsCheckOf ast.now) }
{
    let globals = Globals::of(alloc, ast)?;
    let mut first = first_but_nodes(alloc, ast, &globals)?;
    let over = first_over(alloc, ast.items.as_slice())?;
    report_at(&mut first, NRule::N7, over);
    match first {
        None => Ok(CheckedNames::Accepted(globals)),
        Some(failure) => Ok(CheckedNames::Refused(failure)),
    }
}

/// The failure of a rule of names that comes first in a text, and at one place the one with the lowest number; or
/// nothing if no rule of names fails.
pub fn first_failure(alloc: Global, ast: &Ast) -> Result<Option<Failure<NRule>>, Memory>
    requires { IsCountable ast.now }
    ensures { IfOk result (λ found. MatchOption found
        ((rule : Named) (place : Somewhere) → ¬ FailsName ast.now rule place)
        (λ failure. IsFirstNameFailure ast.now failure.rule failure.place)) }
{
    match check_names(alloc, ast)? {
        CheckedNames::Accepted(_) => Ok(None),
        CheckedNames::Refused(failure) => Ok(Some(failure)),
    }
}
