//! The body of a declaration: its statements, and its variables at its start.
ghost use Rattle.std.specs.Prelude.{◌≡◌, ◌++◌, pos, replicate, IfOk, OnOk, option_copied};
ghost use Rattle.twe_program.specs.Statement.{statements_of};
ghost use Rattle.seg_meaning.specs.Meaning.{body_of, var_count_of, vars_at_start};
ghost use Rattle.seg_exec.specs.inner.steps.Bodies.{with_active};

use crate::steps::variables::Variables;
use seg_meaning::ShortList;
use std::alloc::Global;
use twe_base::Memory;
use twe_program::{Decl, Stmt};

/// The statements of a declaration; none if there is no such declaration.
#[inline(always)]
pub(crate) fn statements(decl: Option<&Decl>) -> &[Stmt]
    ensures { statements_of result.now ≡ body_of (option_copied decl.entry) }
{
    match decl {
        None => &[],
        Some(decl) => decl.body.block.stmts.as_slice(),
    }
}

/// How many variables a body has; 0 if there is no such declaration.
#[inline(always)]
fn var_count(decl: Option<&Decl>) -> usize
    ensures { result ≡ var_count_of (option_copied decl.entry) }
{
    match decl {
        None => 0,
        Some(decl) => decl.body.vars as usize,
    }
}

/// Appends zeros to the variables of the active body.
#[inline(always)]
fn push_zeros(vars: &mut Variables, count: usize) -> Result<(), Memory>
    ensures { OnOk result (vars.new ≡ with_active (vars.old.active ++ replicate count (pos 0)) vars.old) }
{
    for _ in 0..count {
        vars.push(0)?;
    }
    Ok(())
}

/// Makes the active body one that starts: its variables are the arguments. 0 is appended for each local.
#[inline(always)]
pub(crate) fn start(decl: Option<&Decl>, vars: &mut Variables) -> Result<(), Memory>
    ensures { OnOk result (vars.new
        ≡ with_active (vars_at_start (option_copied decl.entry) vars.old.active) vars.old) }
{
    let locals = var_count(decl).saturating_sub(vars.len());
    push_zeros(vars, locals)
}

/// The variables of a body at its start: the arguments, and then 0 for each local. More than four take one piece of memory.
pub(crate) fn vars_at_start(
    alloc: Global,
    decl: Option<&Decl>,
    args: &[i32],
) -> Result<ShortList<i32, 4>, Memory>
    ensures { IfOk result (λ vars. vars ≡ vars_at_start (option_copied decl.entry) args.now) }
{
    let count = var_count(decl);
    let mut vars = ShortList::with_capacity(alloc, count)?;
    vars.push_all(args)?;
    vars.push_times(0, count.saturating_sub(args.len()))?;
    Ok(vars)
}
