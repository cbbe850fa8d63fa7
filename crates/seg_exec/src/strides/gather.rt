//! Gathering the values of arguments, for a method that is called or for a task that is made.
//!
//! Those that call no method are evaluated in place (`arguments`), and their values are the variables of the active body after the
//! first `count`, which are those of the body that calls. In `f(x, 2, g(y), 3)` with `x = 5`:
//!
//! 1. `call` evaluates `x` and 2 in place. At `g(y)`, `begin_argument` moves 5 and 2 into a frame `Take` with what is left, 3, and
//!    the evaluation of `g(y)` comes next.
//! 2. Once `g` has returned 7, `take` pushes 5, 2 and 7 after the variables again, and evaluates 3 in place.
//! 3. All have values, so `use_arguments` enters `f`, whose first variables are 5, 2, 7 and 3.
//!
//! If no argument calls a method, as in `f(x, 2)`, no frame is made and no value is moved.
ghost use Rattle.std.specs.Prelude.{◌≤◌, [], IfOk, length};
ghost use Rattle.twe_program.specs.Expression.{argument, arguments_of, no_more};
ghost use Rattle.seg_exec.specs.declared.steps.continuation.Goal.TheVariants.{Enter, Make};
ghost use Rattle.seg_exec.specs.inner.steps.Continuations.{Gather, Take};
ghost use Rattle.seg_exec.specs.inner.strides.Moving.{Moves, MovesOn, course, gathering_from};
ghost use Rattle.seg_exec.specs.inner.strides.Strides.{MayGo, MayStride};
ghost use Rattle.seg_exec.specs.inner.steps.Reached.{standing};
ghost use Rattle.seg_meaning.specs.Access.{ways_of};

use crate::steps::continuation::{Gathering, Goal};
use crate::steps::machine::Machine;
use crate::strides::arguments::{Evaluated, evaluate_plain};
use crate::strides::enter::enter;
use crate::strides::onward::Onward;
use crate::strides::serve::serve;
use seg_meaning::{ActiveCall, Cells, Operation};
use std::alloc::Global;
use twe_base::{Ints, Memory, Place};
use twe_program::{Args, Expr, Prog};

/// Does what the arguments are for, once all of them have values: enters a method, or stops at the making of a task.
#[inline(always)]
fn use_arguments<'a, C: Cells>(
    alloc: Global,
    p: &'a Prog,
    machine: &mut Machine<'a>,
    cells: &mut C,
    prints: &mut Ints,
    count: usize,
    goal: Goal,
) -> Result<Onward, Memory>
    requires within { count ≤ length machine.old.vars.active }
    requires may { MayGo p.now (ways_of C.known C.may_read C.may_write C.rule)
        (gathering_from count no_more goal machine.old cells.old prints.old) }
    ensures { IfOk result (λ onward. Moves p.now (ways_of C.known C.may_read C.may_write C.rule)
        (gathering_from count no_more goal machine.old cells.old prints.old)
        (course onward machine.new) (standing machine.new cells.new prints.new)) }
{
    match goal {
        Goal::Enter { method, place } => {
            let call = ActiveCall { method, place };
            enter(machine, p.methods.get(method as usize), count, call)
        }
        Goal::Make {
            future,
            task,
            spawned,
            place,
        } => {
            let args = machine.vars.split(alloc, count)?;
            let operation = Operation::Make {
                future,
                task,
                args,
                spawned,
                place,
            };
            let request = machine.suspend(alloc, operation, place)?;
            serve(machine, cells, prints, request)
        }
    }
}

/// Begins an argument that calls a method, and stores what is known and what is left until its value is there. It is not inlined,
/// so that the code of a call whose arguments call nothing stays small.
#[inline(never)]
fn begin_argument<'a, C: Cells>(
    alloc: Global,
    p: &'a Prog,
    machine: &mut Machine<'a>,
    cells: &mut C,
    prints: &mut Ints,
    count: usize,
    first: &'a Expr,
    others: &'a [Expr],
    goal: Goal,
) -> Result<Onward, Memory>
    requires within { count ≤ length machine.old.vars.active }
    requires may { MayGo p.now (ways_of C.known C.may_read C.may_write C.rule)
        (gathering_from count (argument first.now (arguments_of others.now)) goal machine.old cells.old prints.old) }
    ensures { IfOk result (λ onward. Moves p.now (ways_of C.known C.may_read C.may_write C.rule)
        (gathering_from count (argument first.now (arguments_of others.now)) goal machine.old cells.old prints.old)
        (course onward machine.new) (standing machine.new cells.new prints.new)) }
{
    let _program = p;
    let taken = machine.vars.split(alloc, count)?;
    let request = machine.argument(alloc, taken, first, others, goal)?;
    serve(machine, cells, prints, request)
}

/// Evaluates the arguments up to the first that calls a method and begins that one. If all have values, uses them.
#[inline(always)]
fn gather<'a, C: Cells>(
    alloc: Global,
    p: &'a Prog,
    machine: &mut Machine<'a>,
    cells: &mut C,
    prints: &mut Ints,
    count: usize,
    args: &'a [Expr],
    goal: Goal,
) -> Result<Onward, Memory>
    requires within { count ≤ length machine.old.vars.active }
    requires may { MayGo p.now (ways_of C.known C.may_read C.may_write C.rule)
        (gathering_from count (arguments_of args.now) goal machine.old cells.old prints.old) }
    ensures { IfOk result (λ onward. Moves p.now (ways_of C.known C.may_read C.may_write C.rule)
        (gathering_from count (arguments_of args.now) goal machine.old cells.old prints.old)
        (course onward machine.new) (standing machine.new cells.new prints.new)) }
{
    let evaluated = evaluate_plain(p, machine, cells, count, args)?;
    match evaluated {
        Evaluated::All => use_arguments(alloc, p, machine, cells, prints, count, goal),
        Evaluated::Left { first, others } => {
            begin_argument(alloc, p, machine, cells, prints, count, first, others, goal)
        }
        Evaluated::Faulted(fault) => {
            machine.ending = Some(fault.ending());
            Ok(Onward::End)
        }
    }
}

/// Evaluates the arguments after those that have values, up to the first that calls a method.
pub(crate) fn gather_more<'a, C: Cells>(
    alloc: Global,
    p: &'a Prog,
    machine: &mut Machine<'a>,
    cells: &mut C,
    prints: &mut Ints,
    taken: Ints,
    args: &'a [Expr],
    goal: Goal,
) -> Result<Onward, Memory>
    requires { MayStride p.now C.known C.may_read C.may_write C.rule (Gather taken (arguments_of args.now) goal)
        machine.old cells.old prints.old }
    ensures { IfOk result (MovesOn p.now C.known C.may_read C.may_write C.rule (Gather taken (arguments_of args.now) goal)
        machine.old cells.old prints.old machine.new cells.new prints.new) }
{
    let count = machine.vars.len();
    machine.vars.push_all(taken.as_slice())?;
    gather(alloc, p, machine, cells, prints, count, args, goal)
}

/// Takes the latest value as that of an argument, and evaluates those after it, up to the first that calls a method.
pub(crate) fn take<'a, C: Cells>(
    alloc: Global,
    p: &'a Prog,
    machine: &mut Machine<'a>,
    cells: &mut C,
    prints: &mut Ints,
    gathering: Gathering<'a>,
) -> Result<Onward, Memory>
    requires { MayStride p.now C.known C.may_read C.may_write C.rule
        (Take gathering.taken (arguments_of gathering.args.now) gathering.goal) machine.old cells.old prints.old }
    ensures { IfOk result (MovesOn p.now C.known C.may_read C.may_write C.rule
        (Take gathering.entry.taken (arguments_of gathering.entry.args.now) gathering.entry.goal)
        machine.old cells.old prints.old machine.new cells.new prints.new) }
{
    let Gathering { taken, args, goal } = gathering;
    let value = machine.pop_operand();
    let count = machine.vars.len();
    machine.vars.push_all_and(taken.as_slice(), value)?;
    gather(alloc, p, machine, cells, prints, count, args, goal)
}

/// Evaluates the arguments of a call, up to the first that calls a method. If all have values, enters the method at once: unlike
/// `gather` it builds no goal for that.
#[inline(always)]
pub(crate) fn call<'a, C: Cells>(
    alloc: Global,
    p: &'a Prog,
    machine: &mut Machine<'a>,
    cells: &mut C,
    prints: &mut Ints,
    method: u32,
    args: &'a Args,
    place: Place,
) -> Result<Onward, Memory>
    requires { MayStride p.now C.known C.may_read C.may_write C.rule (Gather [] args.now (Enter method place))
        machine.old cells.old prints.old }
    ensures { IfOk result (MovesOn p.now C.known C.may_read C.may_write C.rule (Gather [] args.now (Enter method place))
        machine.old cells.old prints.old machine.new cells.new prints.new) }
{
    let count = machine.vars.len();
    let evaluated = evaluate_plain(p, machine, cells, count, args.items.as_slice())?;
    match evaluated {
        Evaluated::All => {
            let call = ActiveCall { method, place };
            enter(machine, p.methods.get(method as usize), count, call)
        }
        Evaluated::Left { first, others } => {
            let goal = Goal::Enter { method, place };
            begin_argument(alloc, p, machine, cells, prints, count, first, others, goal)
        }
        Evaluated::Faulted(fault) => {
            machine.ending = Some(fault.ending());
            Ok(Onward::End)
        }
    }
}

/// Evaluates the arguments of a task that is made, up to the first that calls a method. If all have values, stops at the making.
pub(crate) fn make<'a, C: Cells>(
    alloc: Global,
    p: &'a Prog,
    machine: &mut Machine<'a>,
    cells: &mut C,
    prints: &mut Ints,
    future: u32,
    task: u32,
    args: &'a Args,
    spawned: bool,
    place: Place,
) -> Result<Onward, Memory>
    requires { MayStride p.now C.known C.may_read C.may_write C.rule (Gather [] args.now (Make future task spawned place))
        machine.old cells.old prints.old }
    ensures { IfOk result (MovesOn p.now C.known C.may_read C.may_write C.rule (Gather [] args.now (Make future task spawned place))
        machine.old cells.old prints.old machine.new cells.new prints.new) }
{
    let goal = Goal::Make {
        future,
        task,
        spawned,
        place,
    };
    let count = machine.vars.len();
    let args = args.items.as_slice();
    gather(alloc, p, machine, cells, prints, count, args, goal)
}
