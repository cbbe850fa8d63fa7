//! The branch of an `if`: that of the first arm whose condition is true, or the last `else`.
ghost use Rattle.seg_meaning.specs.Access.{ways_of};
ghost use Rattle.seg_exec.specs.inner.strides.Assignments.{MayDo};
ghost use Rattle.seg_exec.specs.inner.strides.Picking.{Picks, choosing_first};

use crate::arithmetic::is_true;
use crate::strides::value::{Fault, value_of};
use seg_meaning::Cells;
use twe_program::{Arm, Block, Prog};

/// Which branch of an `if` is executed.
#[derive(Clone, Copy, Debug)]
pub(crate) enum Picked<'a> {
    /// A condition met a fault.
    Faulted(Fault),
    /// No branch is executed.
    Nothing,
    /// This branch is executed.
    Body {
        /// Its number.
        number: usize,
        /// Its statements.
        body: &'a Block,
    },
    /// The conditions of the arms before the one of this number are false, and its condition calls a method.
    Left(usize),
}

/// Evaluates the conditions of the arms of an `if` from the first on, up to one that is true or calls a method.
#[inline(always)]
pub(crate) fn pick<'a, C: Cells>(
    arms: &'a [Arm],
    last: &'a Option<Block>,
    p: &Prog,
    vars: &[i32],
    cells: &mut C,
) -> Picked<'a>
    requires { MayDo p.now (ways_of C.known C.may_read C.may_write C.rule) (choosing_first arms.now last.now) vars.now cells.old }
    ensures { Picks p.now (ways_of C.known C.may_read C.may_write C.rule) arms.now last.now vars.now cells.old result cells.new }
{
    let mut next = 0;
    while next < arms.len() {
        let arm = &arms[next];
        if !arm.condition.is_plain() {
            return Picked::Left(next);
        }
        match value_of(&arm.condition, p, vars, cells) {
            Err(fault) => return Picked::Faulted(fault),
            Ok(value) => {
                if is_true(value) {
                    return Picked::Body {
                        number: next,
                        body: &arm.body,
                    };
                }
            }
        }
        next += 1;
    }
    match last {
        None => Picked::Nothing,
        Some(body) => Picked::Body { number: next, body },
    }
}
