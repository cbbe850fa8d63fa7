//! What a step requests, served. One step, and the steps that use the latest value.
ghost use Rattle.std.specs.Prelude.{IfOk};
ghost use Rattle.seg_exec.specs.inner.steps.Continuations.{Unwind};
ghost use Rattle.seg_exec.specs.inner.steps.Reached.{MayRequest, standing};
ghost use Rattle.seg_exec.specs.inner.steps.Views.{use_of};
ghost use Rattle.seg_exec.specs.inner.strides.Moving.{Moves, MovesOn, Serves, course};
ghost use Rattle.seg_exec.specs.inner.strides.Strides.{MayGo, MayStride, doing, holding};
ghost use Rattle.seg_meaning.specs.Access.{ways_of};

use crate::steps::continuation::ValueUse;
use crate::steps::machine::Machine;
use crate::steps::request::Request;
use crate::strides::onward::Onward;
use seg_meaning::Cells;
use twe_base::{Ints, Memory};
use twe_program::Prog;

/// Serves what a step requests. The step comes to the end of the run, or the continuation frame on top comes next.
#[inline(always)]
pub(crate) fn serve<C: Cells>(
    machine: &mut Machine<'_>,
    cells: &mut C,
    prints: &mut Ints,
    request: Request,
) -> Result<Onward, Memory>
    requires { MayRequest (ways_of C.known C.may_read C.may_write C.rule) cells.old request }
    ensures { IfOk result (λ onward. Serves (ways_of C.known C.may_read C.may_write C.rule)
        request (standing machine.old cells.old prints.old) (course onward machine.new)
        (standing machine.new cells.new prints.new)) }
{
    match request {
        Request::Nothing => {}
        Request::Read(cell) => {
            let value = cells.get(cell);
            machine.push_operand(value)?;
        }
        Request::Write(cell, value) => cells.set(cell, value),
        Request::Print(value) => prints.push(value)?,
        Request::End(ending) => {
            machine.ending = Some(ending);
            return Ok(Onward::End);
        }
    }
    Ok(Onward::Below)
}

/// Returns a value from the active body.
#[inline(always)]
pub(crate) fn leave_with<'a, C: Cells>(
    p: &'a Prog,
    machine: &mut Machine<'a>,
    cells: &mut C,
    prints: &mut Ints,
    value: i32,
) -> Result<Onward, Memory>
    requires { MayGo p.now (ways_of C.known C.may_read C.may_write C.rule)
        (doing Unwind (holding value (standing machine.old cells.old prints.old))) }
    ensures { IfOk result (λ onward. Moves p.now (ways_of C.known C.may_read C.may_write C.rule)
        (doing Unwind (holding value (standing machine.old cells.old prints.old)))
        (course onward machine.new) (standing machine.new cells.new prints.new)) }
{
    let _program = p;
    let request = machine.give_back(value)?;
    serve(machine, cells, prints, request)
}

/// Returns the latest value from the active body.
#[inline(always)]
fn leave<'a, C: Cells>(
    p: &'a Prog,
    machine: &mut Machine<'a>,
    cells: &mut C,
    prints: &mut Ints,
) -> Result<Onward, Memory>
    requires { MayStride p.now C.known C.may_read C.may_write C.rule Unwind machine.old cells.old prints.old }
    ensures { IfOk result (MovesOn p.now C.known C.may_read C.may_write C.rule Unwind machine.old cells.old prints.old
        machine.new cells.new prints.new) }
{
    let _program = p;
    let value = machine.pop_operand();
    let request = machine.give_back(value)?;
    serve(machine, cells, prints, request)
}

/// Makes the one step that uses the latest value.
#[inline(always)]
fn use_now<'a, C: Cells>(
    p: &'a Prog,
    machine: &mut Machine<'a>,
    cells: &mut C,
    prints: &mut Ints,
    then: &ValueUse<'a>,
) -> Result<Onward, Memory>
    requires { MayStride p.now C.known C.may_read C.may_write C.rule (use_of then.now) machine.old cells.old prints.old }
    ensures { IfOk result (MovesOn p.now C.known C.may_read C.may_write C.rule (use_of then.now) machine.old cells.old prints.old
        machine.new cells.new prints.new) }
{
    let request = machine.use_value(p, then)?;
    serve(machine, cells, prints, request)
}

/// Uses the latest value.
#[inline(always)]
pub(crate) fn use_value<'a, C: Cells>(
    p: &'a Prog,
    machine: &mut Machine<'a>,
    cells: &mut C,
    prints: &mut Ints,
    then: &ValueUse<'a>,
) -> Result<Onward, Memory>
    requires { MayStride p.now C.known C.may_read C.may_write C.rule (use_of then.now) machine.old cells.old prints.old }
    ensures { IfOk result (MovesOn p.now C.known C.may_read C.may_write C.rule (use_of then.now) machine.old cells.old prints.old
        machine.new cells.new prints.new) }
{
    match then {
        ValueUse::Unwind => leave(p, machine, cells, prints),
        then => use_now(p, machine, cells, prints, then),
    }
}
