//! The arms of an `if`: the first arm whose condition is true, or the last `else`.
ghost use Rattle.std.specs.Prelude.{IfOk, drop};
ghost use Rattle.twe_program.specs.inner.StatementView.{arms_of};
ghost use Rattle.seg_exec.specs.inner.steps.Continuations.{Choose};
ghost use Rattle.seg_exec.specs.inner.strides.Moving.{MovesOn};
ghost use Rattle.seg_exec.specs.inner.strides.Strides.{MayStride};

use crate::steps::continuation::ValueUse;
use crate::steps::machine::Machine;
use crate::strides::evaluate::evaluate_then;
use crate::strides::onward::Onward;
use crate::strides::serve::serve;
use seg_meaning::Cells;
use std::alloc::Global;
use twe_base::{Ints, Memory};
use twe_program::{Arm, Arms, Block, Prog};

/// Tries the arms of an `if` from the one numbered `block` on, and uses the condition of that arm if it calls no method.
#[inline(always)]
pub(crate) fn choose<'a, C: Cells>(
    alloc: Global,
    p: &'a Prog,
    machine: &mut Machine<'a>,
    cells: &mut C,
    prints: &mut Ints,
    block: usize,
    arms: &'a [Arm],
    last: &'a Option<Block>,
) -> Result<Onward, Memory>
    requires { MayStride p.now C.known C.may_read C.may_write C.rule
        (Choose block (arms_of (drop block arms.now) last.now)) machine.old cells.old prints.old }
    ensures { IfOk result (MovesOn p.now C.known C.may_read C.may_write C.rule
        (Choose block (arms_of (drop block arms.now) last.now)) machine.old cells.old prints.old
        machine.new cells.new prints.new) }
{
    if block < arms.len() {
        let arm = &arms[block];
        let then = ValueUse::Chosen {
            block,
            next: block + 1,
            body: &arm.body,
            arms,
            last,
        };
        return evaluate_then(alloc, p, machine, cells, prints, &arm.condition, &then);
    }
    let request = machine.choose(block, arms, last)?;
    serve(machine, cells, prints, request)
}

/// Tries the arms of an `if` from the first on.
#[inline(always)]
pub(crate) fn choose_first<'a, C: Cells>(
    alloc: Global,
    p: &'a Prog,
    machine: &mut Machine<'a>,
    cells: &mut C,
    prints: &mut Ints,
    arms: &'a Arms,
) -> Result<Onward, Memory>
    requires { MayStride p.now C.known C.may_read C.may_write C.rule (Choose 0 arms.now) machine.old cells.old prints.old }
    ensures { IfOk result (MovesOn p.now C.known C.may_read C.may_write C.rule (Choose 0 arms.now)
        machine.old cells.old prints.old machine.new cells.new prints.new) }
{
    choose(
        alloc,
        p,
        machine,
        cells,
        prints,
        0,
        arms.arms.as_slice(),
        &arms.last,
    )
}
