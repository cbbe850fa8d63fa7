//! The branch of an `if` that comes next.
ghost use Rattle.std.specs.Prelude.{IfOk, drop};
ghost use Rattle.twe_program.specs.Statement.{statements_of};
ghost use Rattle.twe_program.specs.inner.StatementView.{arms_of};
ghost use Rattle.seg_meaning.specs.Access.{ways_of};
ghost use Rattle.seg_exec.specs.inner.steps.Continuations.{Choose, Rest};
ghost use Rattle.seg_exec.specs.inner.steps.Reached.{standing};
ghost use Rattle.seg_exec.specs.inner.strides.Moving.{Passes};
ghost use Rattle.seg_exec.specs.inner.strides.Strides.{MayGo, doing};

use crate::steps::continuation::{Continuation, OpenBlock};
use crate::steps::machine::Machine;
use crate::strides::choose::choose;
use crate::strides::give::give;
use crate::strides::onward::Onward;
use crate::strides::pick::{Picked, pick};
use crate::strides::plain::plain_return;
use seg_meaning::Cells;
use std::alloc::Global;
use twe_base::{Ints, Memory};
use twe_program::{Arm, Arms, Block, Prog, Stmt};

/// Evaluates the conditions of arms of an `if`, as far as they call no method. Its branch comes next, and then the statements of
/// the block around it, from the one at `at` on. A branch that begins with a `return` is left at once, if the value calls no
/// method. If a condition calls a method, it makes only the first step of that condition. Returns what comes next, or `None` if
/// no branch is picked, so that these statements come next.
#[inline(always)]
fn branch_among<'a, C: Cells>(
    alloc: Global,
    p: &'a Prog,
    machine: &mut Machine<'a>,
    cells: &mut C,
    prints: &mut Ints,
    arms: &'a [Arm],
    last: &'a Option<Block>,
    block: usize,
    at: usize,
    stmts: &'a [Stmt],
) -> Result<Option<Onward>, Memory>
    requires { MayGo p.now (ways_of C.known C.may_read C.may_write C.rule) (doing (Choose 0 (arms_of arms.now last.now))
        (doing (Rest block at (statements_of (drop at stmts.now))) (standing machine.old cells.old prints.old))) }
    ensures { IfOk result (Passes p.now (ways_of C.known C.may_read C.may_write C.rule)
        (doing (Choose 0 (arms_of arms.now last.now))
        (doing (Rest block at (statements_of (drop at stmts.now))) (standing machine.old cells.old prints.old)))
        block at stmts.now machine.new cells.new prints.new) }
{
    match pick(arms, last, p, machine.vars.as_slice(), cells) {
        Picked::Faulted(fault) => {
            machine.ending = Some(fault.ending());
            Ok(Some(Onward::End))
        }
        Picked::Nothing => Ok(None),
        Picked::Body { number, body } => {
            let inner = body.stmts.as_slice();
            match plain_return(inner) {
                Some(value) => {
                    let onward = give(p, machine, cells, prints, value, block, at, stmts)?;
                    Ok(Some(onward))
                }
                None => {
                    machine.push(Continuation::Rest { block, at, stmts })?;
                    machine.open = OpenBlock {
                        block: number,
                        at: 0,
                        stmts: inner,
                    };
                    Ok(Some(Onward::Enter))
                }
            }
        }
        Picked::Left(next) => {
            machine.push(Continuation::Rest { block, at, stmts })?;
            let onward = choose(alloc, p, machine, cells, prints, next, arms, last)?;
            Ok(Some(onward))
        }
    }
}

/// Evaluates the conditions of the arms of an `if`. Its branch comes next, and then the statements of the block around it, from
/// the one at `at` on. If a condition calls a method, it makes only the first step of that condition. Returns what comes next, or
/// `None` if no branch is picked, so that these statements come next.
#[inline(always)]
pub(crate) fn branch<'a, C: Cells>(
    alloc: Global,
    p: &'a Prog,
    machine: &mut Machine<'a>,
    cells: &mut C,
    prints: &mut Ints,
    arms: &'a Arms,
    block: usize,
    at: usize,
    stmts: &'a [Stmt],
) -> Result<Option<Onward>, Memory>
    requires { MayGo p.now (ways_of C.known C.may_read C.may_write C.rule) (doing (Choose 0 arms.now)
        (doing (Rest block at (statements_of (drop at stmts.now))) (standing machine.old cells.old prints.old))) }
    ensures { IfOk result (Passes p.now (ways_of C.known C.may_read C.may_write C.rule)
        (doing (Choose 0 arms.now)
        (doing (Rest block at (statements_of (drop at stmts.now))) (standing machine.old cells.old prints.old)))
        block at stmts.now machine.new cells.new prints.new) }
{
    let (first, last) = (arms.arms.as_slice(), &arms.last);
    branch_among(
        alloc, p, machine, cells, prints, first, last, block, at, stmts,
    )
}
