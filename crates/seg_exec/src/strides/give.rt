//! The return of a value from a body.
ghost use Rattle.std.specs.Prelude.{◌≡◌, true, IfOk, drop};
ghost use Rattle.twe_program.specs.Statement.{statements_of};
ghost use Rattle.seg_meaning.specs.Access.{ways_of};
ghost use Rattle.seg_exec.specs.inner.steps.Continuations.{Evaluate, Rest, Unwind};
ghost use Rattle.seg_exec.specs.inner.steps.Reached.{standing};
ghost use Rattle.seg_exec.specs.inner.strides.Moving.{Moves, course};
ghost use Rattle.twe_program.specs.Expression.{is_plain};
ghost use Rattle.seg_exec.specs.inner.strides.Strides.{MayGo, doing};

use crate::steps::machine::Machine;
use crate::strides::onward::Onward;
use crate::strides::serve::leave_with;
use crate::strides::value::value_of;
use seg_meaning::Cells;
use twe_base::{Ints, Memory};
use twe_program::{Expr, Prog, Stmt};

/// Returns the value of an expression that calls no method, past the statements that follow in the block around the `return`.
#[inline(always)]
pub(crate) fn give<'a, C: Cells>(
    p: &'a Prog,
    machine: &mut Machine<'a>,
    cells: &mut C,
    prints: &mut Ints,
    value: &'a Expr,
    block: usize,
    at: usize,
    stmts: &'a [Stmt],
) -> Result<Onward, Memory>
    requires plain { is_plain value.now ≡ true }
    requires may { MayGo p.now (ways_of C.known C.may_read C.may_write C.rule) (doing (Evaluate value.now) (doing Unwind
        (doing (Rest block at (statements_of (drop at stmts.now))) (standing machine.old cells.old prints.old)))) }
    ensures { IfOk result (λ onward. Moves p.now (ways_of C.known C.may_read C.may_write C.rule)
        (doing (Evaluate value.now) (doing Unwind
        (doing (Rest block at (statements_of (drop at stmts.now))) (standing machine.old cells.old prints.old))))
        (course onward machine.new) (standing machine.new cells.new prints.new)) }
{
    let _block = block;
    let _at = at;
    let _stmts = stmts;
    match value_of(value, p, machine.vars.as_slice(), cells) {
        Err(fault) => {
            machine.ending = Some(fault.ending());
            Ok(Onward::End)
        }
        Ok(value) => leave_with(p, machine, cells, prints, value),
    }
}
