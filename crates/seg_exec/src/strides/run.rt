//! A run of the evaluator up to its end.
ghost use Rattle.std.specs.Prelude.{IfOk};
ghost use Rattle.seg_exec.specs.inner.steps.Reached.{Finishes, MayGoOn, standing};
ghost use Rattle.seg_exec.specs.inner.strides.Moving.{Moves, ahead, course};
ghost use Rattle.seg_exec.specs.inner.strides.Strides.{MayGo};
ghost use Rattle.seg_meaning.specs.Access.{ways_of};

use crate::steps::continuation::OpenBlock;
use crate::steps::machine::Machine;
use crate::steps::request::Ending;
use crate::strides::onward::Onward;
use crate::strides::perform::{go_on, perform};
use seg_meaning::Cells;
use std::alloc::Global;
use std::mem;
use twe_base::{Ints, Memory};
use twe_program::Prog;

/// Does what the continuation frame on top is for. If there is none, the body returns 0. Returns what comes next.
#[inline(always)]
fn proceed<'a, C: Cells>(
    alloc: Global,
    p: &'a Prog,
    machine: &mut Machine<'a>,
    cells: &mut C,
    prints: &mut Ints,
) -> Result<Onward, Memory>
    requires { MayGo p.now (ways_of C.known C.may_read C.may_write C.rule) (standing machine.old cells.old prints.old) }
    ensures { IfOk result (λ onward. Moves p.now (ways_of C.known C.may_read C.may_write C.rule)
        (standing machine.old cells.old prints.old)
        (course onward machine.new) (standing machine.new cells.new prints.new)) }
{
    match machine.work.pop() {
        None => {
            machine.ending = Some(Ending::Returned(0));
            Ok(Onward::End)
        }
        Some(work) => perform(alloc, p, machine, cells, prints, work),
    }
}

/// Does what comes next. Returns what comes after that.
#[inline(always)]
fn advance<'a, C: Cells>(
    alloc: Global,
    p: &'a Prog,
    machine: &mut Machine<'a>,
    cells: &mut C,
    prints: &mut Ints,
    next: Onward,
) -> Result<Onward, Memory>
    requires { MayGo p.now (ways_of C.known C.may_read C.may_write C.rule)
        (ahead (course next machine.old).block (standing machine.old cells.old prints.old)) }
    ensures { IfOk result (λ onward. Moves p.now (ways_of C.known C.may_read C.may_write C.rule)
        (ahead (course next machine.old).block (standing machine.old cells.old prints.old))
        (course onward machine.new) (standing machine.new cells.new prints.new)) }
{
    match next {
        Onward::Enter => {
            let OpenBlock { block, at, stmts } = machine.open;
            go_on(alloc, p, machine, cells, prints, block, at, stmts)
        }
        Onward::Below => proceed(alloc, p, machine, cells, prints),
        Onward::End => proceed(alloc, p, machine, cells, prints),
    }
}

/// Makes all steps and returns how the run ends.
pub(crate) fn run<'a, C: Cells>(
    alloc: Global,
    p: &'a Prog,
    machine: &mut Machine<'a>,
    cells: &mut C,
    prints: &mut Ints,
) -> Result<Ending, Memory>
    requires { MayGoOn p.now (ways_of C.known C.may_read C.may_write C.rule) (standing machine.old cells.old prints.old) }
    ensures { IfOk result (λ ending. Finishes p.now (ways_of C.known C.may_read C.may_write C.rule)
        (standing machine.old cells.old prints.old) ending (standing machine.new cells.new prints.new)) }
{
    let mut next = Onward::Below;
    'units: loop {
        let fuel = machine.fuel;
        while machine.fuel == fuel {
            next = advance(alloc, p, machine, cells, prints, next)?;
            if let Onward::End = next {
                if let Some(ending) = mem::replace(&mut machine.ending, None) {
                    return Ok(ending);
                }
            }
        }
    }
}
