//! The rules of names in what a text declares.
ghost use Rattle.std.specs.Prelude.{◌≡◌, ◌+◌, ◌<◌, ◌^◌, [], IfOk, OnOk, length};
ghost use Rattle.twe_ast.specs.declared.item.Item.TheVariants as items;
ghost use Rattle.name_check.specs.BodyScope.{params_of};
ghost use Rattle.name_check.specs.Size.{size_of_decl, size_of_item};
ghost use Rattle.name_check.specs.Sites.{sites_of_decl, sites_of_item, sites_of_params};
ghost use Rattle.name_check.specs.inner.Failures.{first_of_sites};
ghost use Rattle.name_check.specs.inner.First.{first_from};
ghost use Rattle.name_check.specs.OtherFailures.{decl_failures, item_failures};

use crate::check_body::check_block;
use crate::check_path::{check_cell_path, check_effects};
use crate::limits::{check_cell_limit, check_limits};
use crate::names::Globals;
use crate::rule::NRule;
use crate::scope::{BodyScope, Locals};
use crate::uses::check_declared;
use std::alloc::Global;
use twe_ast::{CellDecl, Decl, Item};
use twe_base::{Failure, Memory};

/// Checks the names of the parameters of a declaration, and returns the parameters.
#[tactic(auto, using(crate::proofs::FirstSites::decl_sites))]
fn check_params(
    decl: &Decl,
    alloc: Global,
    globals: &Globals,
    first: &mut Option<Failure<NRule>>,
) -> Result<Locals, Memory>
    requires { length decl.now.params < 2 ^ 32 }
    ensures params { IfOk result (λ locals. locals ≡ params_of decl.now) }
    ensures reported { OnOk result (first.new ≡ first_of_sites globals.now first.old
        (sites_of_params decl.now.returns [] 0 decl.now.params)) }
{
    let mut locals = Locals::new(alloc);
    let mut number = 0;
    for name in decl.params.as_slice() {
        check_declared(name, globals, &locals, first);
        locals.push_parameter(alloc, &name.text, number)?;
        number += 1;
    }
    Ok(locals)
}

/// Checks the names that a declaration uses and declares.
#[tactic(auto, using(crate::proofs::FirstSites::decl_sites))]
fn check_names(
    decl: &Decl,
    alloc: Global,
    globals: &Globals,
    first: &mut Option<Failure<NRule>>,
) -> Result<(), Memory>
    requires { size_of_decl decl.now < 2 ^ 32 }
    ensures { OnOk result (first.new ≡ first_of_sites globals.now first.old (sites_of_decl globals.now decl.now)) }
{
    let locals = check_params(decl, alloc, globals, first)?;
    check_effects(decl.effects.as_slice(), globals, &locals, first);
    let mut scope = BodyScope {
        locals,
        points: 0,
        vars: decl.params.len() as u32,
        futures: 0,
    };
    check_block(&decl.body, alloc, globals, decl.returns, &mut scope, first)
}

/// Checks a method or a task.
fn check_decl(
    decl: &Decl,
    alloc: Global,
    globals: &Globals,
    first: &mut Option<Failure<NRule>>,
) -> Result<(), Memory>
    requires { size_of_decl decl.now < 2 ^ 32 }
    ensures { OnOk result (first.new ≡ first_from
        (first_of_sites globals.now first.old (sites_of_decl globals.now decl.now))
        (decl_failures decl.now)) }
{
    check_names(decl, alloc, globals, first)?;
    check_limits(decl, first);
    Ok(())
}

/// Checks the declaration of a cell, except for the limits on cells and nodes.
#[tactic(auto, using(crate::proofs::FirstSites::decl_sites))]
fn check_cell(cell: &CellDecl, alloc: Global, globals: &Globals, first: &mut Option<Failure<NRule>>)
    ensures { first.new ≡ first_from (first_of_sites globals.now first.old (sites_of_item globals.now (items.Cell cell.now)))
        (item_failures (items.Cell cell.now)) }
{
    let nothing = Locals::new(alloc);
    check_cell_path(cell.path.elems.as_slice(), globals, &nothing, first);
    check_cell_limit(&cell.path.elems, first);
}

/// Checks an item, except for the limits on cells and nodes.
pub fn check_item(
    item: &Item,
    alloc: Global,
    globals: &Globals,
    first: &mut Option<Failure<NRule>>,
) -> Result<(), Memory>
    requires { size_of_item item.now < 2 ^ 32 }
    ensures { OnOk result (first.new ≡ first_from
        (first_of_sites globals.now first.old (sites_of_item globals.now item.now))
        (item_failures item.now)) }
{
    match item {
        Item::Regions(_) => Ok(()),
        Item::Cell(cell) => {
            check_cell(cell, alloc, globals, first);
            Ok(())
        }
        Item::Method(decl) => check_decl(decl, alloc, globals, first),
        Item::Task { decl, .. } => check_decl(decl, alloc, globals, first),
    }
}
