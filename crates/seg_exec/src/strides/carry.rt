//! Assignments of a block, carried out one after another.
ghost use Rattle.std.specs.Prelude.{◌≡◌};
ghost use Rattle.seg_meaning.specs.Access.{ways_of};
ghost use Rattle.seg_exec.specs.inner.strides.Carrying.{CarriesOut, MayCarry};

use crate::steps::variables::Variables;
use crate::strides::assign::{Carried, assign};
use crate::strides::value::Fault;
use seg_meaning::Cells;
use twe_program::{Prog, Stmt};

/// How far the statements of a block were carried out.
#[derive(Clone, Copy, Debug)]
pub(crate) enum CarriedOut {
    /// All are done.
    Done,
    /// One met a fault.
    Faulted(Fault),
    /// Those before the one at this index are done, and the one at it was left alone.
    Left(usize),
}

/// Carries out the statements of a block from the one at `at` on, up to the first that is no assignment or calls a method.
#[inline(always)]
pub(crate) fn carry_out<C: Cells>(
    stmts: &[Stmt],
    at: usize,
    p: &Prog,
    vars: &mut Variables,
    cells: &mut C,
) -> CarriedOut
    requires { MayCarry p.now (ways_of C.known C.may_read C.may_write C.rule) at stmts.now vars.old.active cells.old }
    ensures does { CarriesOut p.now (ways_of C.known C.may_read C.may_write C.rule) at stmts.now
        vars.old.active cells.old result vars.new.active cells.new }
    ensures callers { vars.new.callers ≡ vars.old.callers }
{
    let mut next = at;
    while next < stmts.len() {
        match assign(&stmts[next], p, vars, cells) {
            Carried::Done => next += 1,
            Carried::Faulted(fault) => return CarriedOut::Faulted(fault),
            Carried::Left => return CarriedOut::Left(next),
        }
    }
    CarriedOut::Done
}
