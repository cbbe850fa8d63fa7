//! The turns of a loop.
ghost use Rattle.std.specs.Prelude.{◌≡◌, true, IfOk};
ghost use Rattle.seg_meaning.specs.Access.{ways_of};
ghost use Rattle.seg_exec.specs.inner.steps.Reached.{standing};
ghost use Rattle.seg_exec.specs.inner.strides.Moving.{Moves, course};
ghost use Rattle.twe_program.specs.Expression.{is_plain};
ghost use Rattle.seg_exec.specs.inner.strides.Strides.{MayGo};
ghost use Rattle.seg_exec.specs.inner.strides.Turning.{IsLoop, Turns, looping};

use crate::arithmetic::is_true;
use crate::steps::continuation::{Continuation, OpenBlock, ValueUse};
use crate::steps::machine::Machine;
use crate::steps::request::Ending;
use crate::strides::carry::{CarriedOut, carry_out};
use crate::strides::evaluate::evaluate_then;
use crate::strides::onward::Onward;
use crate::strides::value::value_of;
use seg_meaning::{Cells, FaultCause};
use std::alloc::Global;
use twe_base::{Ints, Memory, Place};
use twe_program::{Block, Expr, Prog, Stmt};

/// Evaluates the condition of a loop, and begins a turn if it is true. A turn takes a unit of fuel; it is a fault if none is
/// left. The assignments that the body begins with are carried out. Returns what comes next, or `None` if the whole body is done,
/// so that the condition comes next again.
#[inline(always)]
fn make_turn<'a, C: Cells>(
    p: &'a Prog,
    machine: &mut Machine<'a>,
    cells: &mut C,
    prints: &mut Ints,
    again: &'a Stmt,
    condition: &'a Expr,
    body: &'a Block,
    place: Place,
) -> Result<Option<Onward>, Memory>
    requires plain { is_plain condition.now ≡ true }
    requires again { IsLoop again.now condition.now body.now place }
    requires may { MayGo p.now (ways_of C.known C.may_read C.may_write C.rule)
        (looping condition.now again.now body.now place (standing machine.old cells.old prints.old)) }
    ensures { IfOk result (Turns p.now (ways_of C.known C.may_read C.may_write C.rule)
        (looping condition.now again.now body.now place) machine.old cells.old prints.old machine.new cells.new prints.new) }
{
    match value_of(condition, p, machine.vars.as_slice(), cells) {
        Err(fault) => {
            machine.ending = Some(fault.ending());
            return Ok(Some(Onward::End));
        }
        Ok(value) => {
            if !is_true(value) {
                return Ok(Some(Onward::Below));
            }
        }
    }
    if machine.fuel == 0 {
        machine.ending = Some(Ending::Faulted {
            cause: FaultCause::Fuel,
            place,
        });
        return Ok(Some(Onward::End));
    }
    machine.fuel -= 1;
    let stmts = body.stmts.as_slice();
    match carry_out(stmts, 0, p, &mut machine.vars, cells) {
        CarriedOut::Done => Ok(None),
        CarriedOut::Faulted(fault) => {
            machine.ending = Some(fault.ending());
            Ok(Some(Onward::End))
        }
        CarriedOut::Left(at) => {
            machine.push(Continuation::Execute(again))?;
            machine.open = OpenBlock {
                block: 0,
                at,
                stmts,
            };
            Ok(Some(Onward::Enter))
        }
    }
}

/// Evaluates the condition of a loop and makes its turns, up to one whose body has other statements than assignments that call no
/// method. If the condition calls a method, it makes only the first step. It stands apart, so that what is inlined for other
/// statements stays small.
#[inline(never)]
pub(crate) fn turn<'a, C: Cells>(
    alloc: Global,
    p: &'a Prog,
    machine: &mut Machine<'a>,
    cells: &mut C,
    prints: &mut Ints,
    again: &'a Stmt,
    condition: &'a Expr,
    body: &'a Block,
    place: Place,
) -> Result<Onward, Memory>
    requires again { IsLoop again.now condition.now body.now place }
    requires may { MayGo p.now (ways_of C.known C.may_read C.may_write C.rule)
        (looping condition.now again.now body.now place (standing machine.old cells.old prints.old)) }
    ensures { IfOk result (λ onward. Moves p.now (ways_of C.known C.may_read C.may_write C.rule)
        (looping condition.now again.now body.now place (standing machine.old cells.old prints.old))
        (course onward machine.new) (standing machine.new cells.new prints.new)) }
{
    if !condition.is_plain() {
        let then = ValueUse::Turn { again, body, place };
        return evaluate_then(alloc, p, machine, cells, prints, condition, &then);
    }
    'turns: loop {
        let next = make_turn(p, machine, cells, prints, again, condition, body, place)?;
        if let Some(onward) = next {
            return Ok(onward);
        }
    }
}
