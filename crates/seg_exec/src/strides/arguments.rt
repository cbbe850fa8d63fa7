//! The arguments of a call that call no method, evaluated in place.
//!
//! They see only the variables of the body that calls: the first `count` of the active body. Their values are pushed after these,
//! one for each argument, and so they are the first variables of the method if it is entered next. In `f(x, 2, g(y), 3)` with
//! `x = 5`, the values 5 and 2 are pushed, and `g(y)` and 3 are left: what comes after an argument that calls a method waits for it.
ghost use Rattle.std.specs.Prelude.{◌≤◌, IfOk, length};
ghost use Rattle.twe_program.specs.Expression.{arguments_of};
ghost use Rattle.seg_exec.specs.inner.strides.Taking.{MayTake, Takes};
ghost use Rattle.seg_meaning.specs.Access.{ways_of};

use crate::steps::machine::Machine;
use crate::strides::value::{Fault, value_of};
use seg_meaning::Cells;
use twe_base::Memory;
use twe_program::{Expr, Prog};

/// How far the arguments of a call have values.
#[derive(Clone, Copy, Debug)]
pub(crate) enum Evaluated<'a> {
    /// All of them have values.
    All,
    /// Those before one that calls a method have values.
    Left {
        /// The one that calls a method.
        first: &'a Expr,
        /// Those after it.
        others: &'a [Expr],
    },
    /// One met a fault. The values of those before it are dropped.
    Faulted(Fault),
}

/// Evaluates the arguments up to the first that calls a method, and pushes their values. A fault ends this: the variables of the
/// active body are then the first `count` again.
#[inline(always)]
pub(crate) fn evaluate_plain<'a, C: Cells>(
    p: &Prog,
    machine: &mut Machine<'_>,
    cells: &mut C,
    count: usize,
    args: &'a [Expr],
) -> Result<Evaluated<'a>, Memory>
    requires within { count ≤ length machine.old.vars.active }
    requires may { MayTake p.now (ways_of C.known C.may_read C.may_write C.rule) count (arguments_of args.now)
        machine.old cells.old }
    ensures { IfOk result (λ evaluated. Takes p.now (ways_of C.known C.may_read C.may_write C.rule) count args.now
        machine.old cells.old evaluated machine.new cells.new) }
{
    let mut next = 0;
    while next < args.len() {
        let first = &args[next];
        if !first.is_plain() {
            let others = &args[next + 1..];
            return Ok(Evaluated::Left { first, others });
        }
        match value_of(first, p, machine.vars.first(count), cells) {
            Err(fault) => {
                machine.vars.truncate(count);
                return Ok(Evaluated::Faulted(fault));
            }
            Ok(value) => machine.vars.push(value)?,
        }
        next += 1;
    }
    Ok(Evaluated::All)
}
