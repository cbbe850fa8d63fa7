//! Entering a method whose arguments have values.
//!
//! Their values are the variables of the active body after the first `count`, which are those of the caller. So the method takes
//! them over where they stand, and no value is copied.
ghost use Rattle.std.specs.Prelude.{◌≡◌, ◌≤◌, IfOk, drop, length, option_copied};
ghost use Rattle.seg_exec.specs.inner.steps.Steps.{entering, faulted};
ghost use Rattle.seg_exec.specs.inner.steps.Views.{config_before, config_of};
ghost use Rattle.seg_exec.specs.inner.strides.Moving.{course, step_on};

use crate::body::{start, statements};
use crate::steps::continuation::{Continuation, OpenBlock};
use crate::steps::machine::Machine;
use crate::steps::request::Ending;
use crate::strides::onward::Onward;
use seg_meaning::{ActiveCall, FaultCause};
use twe_base::{MAX_ACTIVE_CALLS, Memory, Place};
use twe_program::Decl;

/// Ends the run with a fault, and drops the values of the arguments.
#[inline(always)]
fn end_with_fault(
    machine: &mut Machine<'_>,
    count: usize,
    cause: FaultCause,
    place: Place,
) -> Onward
    requires { count ≤ length machine.old.vars.active }
    ensures { step_on (course result machine.new) (config_of machine.new)
        ≡ faulted cause place (config_before count machine.old) }
{
    machine.vars.truncate(count);
    machine.ending = Some(Ending::Faulted { cause, place });
    Onward::End
}

/// Enters the method of a call, which takes a unit of fuel: its body comes next. It is a fault if no fuel is left, or if
/// `MAX_ACTIVE_CALLS` calls are active already; fuel is looked at first.
#[inline(always)]
pub(crate) fn enter<'a>(
    machine: &mut Machine<'a>,
    decl: Option<&'a Decl>,
    count: usize,
    call: ActiveCall,
) -> Result<Onward, Memory>
    requires { count ≤ length machine.old.vars.active }
    ensures { IfOk result (λ onward. step_on (course onward machine.new) (config_of machine.new)
        ≡ entering (option_copied decl.entry) (drop count machine.old.vars.active) call (config_before count machine.old)) }
{
    if machine.fuel == 0 {
        return Ok(end_with_fault(machine, count, FaultCause::Fuel, call.place));
    }
    machine.fuel -= 1;
    if machine.work.calls() >= MAX_ACTIVE_CALLS as usize {
        return Ok(end_with_fault(machine, count, FaultCause::Depth, call.place));
    }
    machine.vars.enter(count);
    start(decl, &mut machine.vars)?;
    machine.push(Continuation::Leave { count, call })?;
    machine.open = OpenBlock {
        block: 0,
        at: 0,
        stmts: statements(decl),
    };
    Ok(Onward::Enter)
}
