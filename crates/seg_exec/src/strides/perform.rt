//! What a continuation frame is for, done in one step or in several.
ghost use Rattle.std.specs.Prelude.{◌+◌, ◌<◌, IfOk, drop, length};
ghost use Rattle.twe_program.specs.Statement.{statements_of};
ghost use Rattle.seg_exec.specs.inner.steps.Continuations.{Evaluate, Execute, GiveVar, Rest};
ghost use Rattle.seg_exec.specs.inner.strides.Moving.{Moves, MovesOn, Passes, course};
ghost use Rattle.seg_exec.specs.inner.strides.Strides.{MayGo, MayStride, doing};
ghost use Rattle.seg_exec.specs.inner.steps.Reached.{standing, standing_with};
ghost use Rattle.seg_meaning.specs.Access.{ways_of};

use crate::steps::continuation::{Continuation, Gathering, ValueUse};
use crate::steps::machine::Machine;
use crate::strides::branch::branch;
use crate::strides::carry::{CarriedOut, carry_out};
use crate::strides::choose::{choose, choose_first};
use crate::strides::evaluate::{evaluate, evaluate_then, right_of};
use crate::strides::gather::{gather_more, make, take};
use crate::strides::onward::Onward;
use crate::strides::return_value::{apply_then_return, return_value, right_then_return};
use crate::strides::serve::{serve, use_value};
use crate::strides::turn::turn;
use seg_meaning::Cells;
use std::alloc::Global;
use twe_base::{Ints, Memory};
use twe_program::{Expr, Prog, Stmt, StmtKind};

/// Executes a statement that is no loop as far as its expressions call no method. Of a loop it makes the first step.
#[inline(always)]
fn execute<'a, C: Cells>(
    alloc: Global,
    p: &'a Prog,
    machine: &mut Machine<'a>,
    cells: &mut C,
    prints: &mut Ints,
    stmt: &'a Stmt,
) -> Result<Onward, Memory>
    requires { MayStride p.now C.known C.may_read C.may_write C.rule (Execute stmt.now) machine.old cells.old prints.old }
    ensures { IfOk result (MovesOn p.now C.known C.may_read C.may_write C.rule (Execute stmt.now) machine.old cells.old prints.old
        machine.new cells.new prints.new) }
{
    match &stmt.kind {
        StmtKind::Let { var, value } => give_var(alloc, p, machine, cells, prints, *var, value),
        StmtKind::Set { var, value } => give_var(alloc, p, machine, cells, prints, *var, value),
        StmtKind::SetCell { cell, value, .. } => {
            let then = ValueUse::GiveCell(*cell);
            evaluate_then(alloc, p, machine, cells, prints, value, &then)
        }
        StmtKind::If(arms) => choose_first(alloc, p, machine, cells, prints, arms),
        StmtKind::Return(Some(value)) => { return_value(alloc, p, machine, cells, prints, value) }
        StmtKind::Print { value, place } => {
            let then = ValueUse::PrintValue(*place);
            evaluate_then(alloc, p, machine, cells, prints, value, &then)
        }
        StmtKind::Make {
            future,
            task,
            args,
            spawned,
            place,
            ..
        } => make(
            alloc, p, machine, cells, prints, *future, *task, args, *spawned, *place,
        ),
        _ => {
            let request = machine.execute(alloc, stmt)?;
            serve(machine, cells, prints, request)
        }
    }
}

/// Evaluates an expression as far as it calls no method; its value is assigned to a variable.
#[inline(always)]
fn give_var<'a, C: Cells>(
    alloc: Global,
    p: &'a Prog,
    machine: &mut Machine<'a>,
    cells: &mut C,
    prints: &mut Ints,
    var: u32,
    value: &'a Expr,
) -> Result<Onward, Memory>
    requires { MayGo p.now (ways_of C.known C.may_read C.may_write C.rule)
        (doing (Evaluate value.now) (doing (GiveVar var) (standing machine.old cells.old prints.old))) }
    ensures { IfOk result (λ onward. Moves p.now (ways_of C.known C.may_read C.may_write C.rule)
        (doing (Evaluate value.now) (doing (GiveVar var) (standing machine.old cells.old prints.old)))
        (course onward machine.new) (standing machine.new cells.new prints.new)) }
{
    let then = ValueUse::GiveVar(var);
    evaluate_then(alloc, p, machine, cells, prints, value, &then)
}

/// Executes a statement as far as its expressions call no method; a loop up to its first turn.
#[inline(always)]
fn begin_execution<'a, C: Cells>(
    alloc: Global,
    p: &'a Prog,
    machine: &mut Machine<'a>,
    cells: &mut C,
    prints: &mut Ints,
    stmt: &'a Stmt,
) -> Result<Onward, Memory>
    requires { MayStride p.now C.known C.may_read C.may_write C.rule (Execute stmt.now) machine.old cells.old prints.old }
    ensures { IfOk result (MovesOn p.now C.known C.may_read C.may_write C.rule (Execute stmt.now) machine.old cells.old prints.old
        machine.new cells.new prints.new) }
{
    match &stmt.kind {
        StmtKind::While {
            condition,
            body,
            place,
        } => turn(
            alloc, p, machine, cells, prints, stmt, condition, body, *place,
        ),
        _ => execute(alloc, p, machine, cells, prints, stmt),
    }
}

/// Executes the next statement of a block as far as its expressions call no method; a loop up to its first turn.
#[inline(always)]
fn begin_statement<'a, C: Cells>(
    alloc: Global,
    p: &'a Prog,
    block: usize,
    at: usize,
    stmts: &'a [Stmt],
    machine: &mut Machine<'a>,
    cells: &mut C,
    prints: &mut Ints,
) -> Result<Onward, Memory>
    requires within { at < length stmts.now }
    requires may { MayStride p.now C.known C.may_read C.may_write C.rule (Rest block at (statements_of (drop at stmts.now)))
        machine.old cells.old prints.old }
    ensures { IfOk result (MovesOn p.now C.known C.may_read C.may_write C.rule (Rest block at (statements_of (drop at stmts.now)))
        machine.old cells.old prints.old machine.new cells.new prints.new) }
{
    let stmt = &stmts[at];
    machine.push_rest(stmt, block, at + 1, stmts)?;
    begin_execution(alloc, p, machine, cells, prints, stmt)
}

/// Executes the next statement of a block: the branch of an `if` comes next, and below a `return` nothing of the block is kept.
/// Returns what comes next, or `None` if it is an `if` of which no branch is picked, so that the statement after it comes next.
#[inline(always)]
fn enter_statement<'a, C: Cells>(
    alloc: Global,
    p: &'a Prog,
    machine: &mut Machine<'a>,
    cells: &mut C,
    prints: &mut Ints,
    block: usize,
    at: usize,
    stmts: &'a [Stmt],
) -> Result<Option<Onward>, Memory>
    requires within { at < length stmts.now }
    requires may { MayStride p.now C.known C.may_read C.may_write C.rule (Rest block at (statements_of (drop at stmts.now)))
        machine.old cells.old prints.old }
    ensures { IfOk result (Passes p.now (ways_of C.known C.may_read C.may_write C.rule)
        (doing (Rest block at (statements_of (drop at stmts.now))) (standing machine.old cells.old prints.old))
        block (at + 1) stmts.now machine.new cells.new prints.new) }
{
    let stmt = &stmts[at];
    match &stmt.kind {
        StmtKind::If(arms) => {
            branch(alloc, p, machine, cells, prints, arms, block, at + 1, stmts)
        }
        StmtKind::Return(Some(value)) => {
            let onward = return_value(alloc, p, machine, cells, prints, value)?;
            Ok(Some(onward))
        }
        _ => {
            let onward = begin_statement(alloc, p, block, at, stmts, machine, cells, prints)?;
            Ok(Some(onward))
        }
    }
}

/// Executes the statements of a block from the one at `at` on: assignments at once, and past each `if` of which no branch is
/// picked, up to the first other statement.
#[inline(always)]
pub(crate) fn go_on<'a, C: Cells>(
    alloc: Global,
    p: &'a Prog,
    machine: &mut Machine<'a>,
    cells: &mut C,
    prints: &mut Ints,
    block: usize,
    at: usize,
    stmts: &'a [Stmt],
) -> Result<Onward, Memory>
    requires { MayStride p.now C.known C.may_read C.may_write C.rule (Rest block at (statements_of (drop at stmts.now)))
        machine.old cells.old prints.old }
    ensures { IfOk result (MovesOn p.now C.known C.may_read C.may_write C.rule (Rest block at (statements_of (drop at stmts.now)))
        machine.old cells.old prints.old machine.new cells.new prints.new) }
{
    let mut next = at;
    'statements: loop {
        match carry_out(stmts, next, p, &mut machine.vars, cells) {
            CarriedOut::Done => return Ok(Onward::Below),
            CarriedOut::Faulted(fault) => {
                machine.ending = Some(fault.ending());
                return Ok(Onward::End);
            }
            CarriedOut::Left(left) => {
                let passed = enter_statement(alloc, p, machine, cells, prints, block, left, stmts)?;
                if let Some(onward) = passed {
                    return Ok(onward);
                }
                next = left + 1;
            }
        }
    }
}

/// Does what a continuation frame is for, in one step or in several. Returns what comes next.
#[inline(always)]
pub(crate) fn perform<'a, C: Cells>(
    alloc: Global,
    p: &'a Prog,
    machine: &mut Machine<'a>,
    cells: &mut C,
    prints: &mut Ints,
    work: Continuation<'a>,
) -> Result<Onward, Memory>
    requires { MayGo p.now (ways_of C.known C.may_read C.may_write C.rule) (standing_with work machine.old cells.old prints.old) }
    ensures { IfOk result (λ onward. Moves p.now (ways_of C.known C.may_read C.may_write C.rule)
        (standing_with work.entry machine.old cells.old prints.old)
        (course onward machine.new) (standing machine.new cells.new prints.new)) }
{
    match work {
        Continuation::Evaluate(expr) => evaluate(alloc, p, machine, cells, prints, expr),
        Continuation::Execute(stmt) => begin_execution(alloc, p, machine, cells, prints, stmt),
        Continuation::Rest { block, at, stmts } => {
            go_on(alloc, p, machine, cells, prints, block, at, stmts)
        }
        Continuation::Choose { block, arms, last } => {
            choose(alloc, p, machine, cells, prints, block, arms, last)
        }
        Continuation::UseValue(ValueUse::Right { op, right, place }) => {
            right_of(alloc, p, machine, cells, prints, op, right, place)
        }
        Continuation::RightThenReturn { op, right, place } => {
            right_then_return(alloc, p, machine, cells, prints, op, right, place)
        }
        Continuation::ApplyThenReturn { op, place } => {
            apply_then_return(p, machine, cells, prints, op, place)
        }
        Continuation::UseValue(then) => use_value(p, machine, cells, prints, &then),
        Continuation::Gather(gathering) => {
            let Gathering { taken, args, goal } = Box::into_inner(gathering);
            gather_more(alloc, p, machine, cells, prints, taken, args, goal)
        }
        Continuation::Take(gathering) => {
            take(alloc, p, machine, cells, prints, Box::into_inner(gathering))
        }
        Continuation::Suspend(stop) => {
            let request = machine.suspend_on(stop)?;
            serve(machine, cells, prints, request)
        }
        Continuation::Leave { count, .. } => {
            let request = machine.leave(count)?;
            serve(machine, cells, prints, request)
        }
    }
}
