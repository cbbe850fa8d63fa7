//! The execution of one segment of a task.
ghost use Rattle.std.specs.Prelude.{◌≡◌, IfOk, OnOk, None, length, option_map, slice_get};
ghost use Rattle.twe_program.specs.Program.{cell_count};
ghost use Rattle.seg_meaning.specs.Access.{ways_of};
ghost use Rattle.seg_meaning.specs.Segment.{CarriesOut, HasRoomToSpawn, IsSegment, MayCarryOut};
ghost use Rattle.seg_meaning.specs.Segment.{closing_stop, operation_next, operation_out, operation_stop, task_of};
ghost use Rattle.seg_exec.specs.inner.Finished.{ended_with, finished};
ghost use Rattle.seg_exec.specs.inner.steps.Unfolded.{body_config, config_at};
ghost use Rattle.seg_exec.specs.inner.steps.Views.{config_of};

use crate::body::statements;
use crate::entry::{effects_at, frame_with};
use crate::steps::continuation::{OpenBlock, Suspension};
use crate::steps::frames::Frames;
use crate::steps::machine::Machine;
use crate::steps::pushdown::Pushdown;
use crate::steps::request::Ending;
use crate::steps::variables::Variables;
use crate::strides::run::run;
use seg_meaning::{Cells, Children, Frame, Next, OpenBody, Operation, Position, ShortList, Stop};
use std::alloc::Global;
use twe_base::{Ints, List, Memory};
use twe_program::Prog;

/// The task that a future stands for; 0 if it stands for none.
fn task_of(futures: &List<Option<u32>>, future: u32) -> u32
    ensures { result ≡ task_of (slice_get futures.now future) }
{
    match futures.get(future as usize) {
        Some(Some(task)) => *task,
        Some(None) => 0,
        None => 0,
    }
}

/// What the task does next after an operation.
fn next_of(frame: &Frame, operation: &Operation) -> Next
    ensures { result ≡ operation_next frame.now operation.now }
{
    match operation {
        Operation::Make { .. } => Next::Go,
        Operation::Wait { future, join, into } => {
            let on = task_of(&frame.futures, *future);
            let into = *into;
            if *join {
                Next::Join { on, into }
            } else {
                Next::Get { on, into }
            }
        }
    }
}

/// Reserves room for one more child if the operation spawns one.
fn reserve_for(out: &mut Children, operation: &Operation) -> Result<(), Memory>
    ensures { OnOk result (out.new ≡ operation_out operation.now out.old) }
{
    match operation {
        Operation::Make { spawned, .. } => {
            if *spawned {
                out.reserve_one()?;
            }
        }
        Operation::Wait { .. } => {}
    }
    Ok(())
}

/// The stop at a task operation.
fn stop_of(alloc: Global, p: &Prog, frame: &Frame, operation: Operation) -> Result<Stop, Memory>
    ensures { IfOk result (λ stop. stop ≡ operation_stop p.now frame.now operation) }
{
    match operation {
        Operation::Make {
            future,
            task,
            args,
            spawned,
            place,
        } => Ok(Stop::Make {
            child: frame_with(alloc, p, task, args.as_slice())?,
            effects: effects_at(alloc, p, task, &args)?,
            args,
            spawned,
            future,
            place,
        }),
        Operation::Wait { future, join, .. } => {
            let on = task_of(&frame.futures, future);
            Ok(if join {
                Stop::Joins { on }
            } else {
                Stop::Waits { on }
            })
        }
    }
}

/// Ends the body of a task with a value. If it has unjoined children, it waits to join the first; else it is done.
fn end(alloc: Global, frame: &mut Frame, value: i32) -> Stop
    ensures frame { frame.new ≡ ended_with frame.old value }
    ensures stop { result ≡ closing_stop frame.old.out.items value }
{
    frame.body = None;
    frame.value = value;
    match frame.out.get(0) {
        None => {
            frame.next = Next::Ended;
            Stop::Done { value }
        }
        Some(child) => {
            let on = *child;
            frame.next = Next::Closing { on };
            Stop::Joins { on }
        }
    }
}

/// Stores the end of the evaluator in the frame and returns the stop.
fn finish(
    alloc: Global,
    p: &Prog,
    frame: &mut Frame,
    vars: Variables,
    ending: Ending,
) -> Result<Stop, Memory>
    ensures { IfOk result (λ stop. (frame.new, stop) ≡ finished p.now frame.old vars.active ending) }
{
    match ending {
        Ending::Returned(value) => Ok(end(alloc, frame, value)),
        Ending::Faulted { cause, place } => {
            frame.body = None;
            frame.next = Next::Ended;
            let kind = cause.kind();
            Ok(Stop::Fault { kind, place })
        }
        Ending::Suspended(held) => {
            let Suspension {
                operation,
                positions,
            } = held.into_inner();
            frame.body = Some(OpenBody {
                vars: ShortList::from_list(vars.into_active(alloc)?),
                open_blocks: ShortList::from_list(positions.into_list()),
            });
            frame.next = next_of(frame, &operation);
            reserve_for(&mut frame.out, &operation)?;
            stop_of(alloc, p, frame, operation)
        }
    }
}

/// The evaluator with what remains of a body of a frame: these are its variables and its open blocks.
fn machine_with<'a>(
    alloc: Global,
    p: &'a Prog,
    frame: &Frame,
    vars: Ints,
    open_blocks: &[Position],
) -> Result<Machine<'a>, Memory>
    ensures { IfOk result (λ machine. config_of machine
        ≡ body_config p.now frame.now (record { vars = vars; open_blocks = open_blocks.now })) }
{
    let mut machine = Machine {
        work: Frames::new(alloc),
        operands: Pushdown::new(alloc),
        vars: Variables::new(vars),
        fuel: frame.fuel,
        open: OpenBlock {
            block: 0,
            at: 0,
            stmts: &[],
        },
        ending: None,
    };
    let decl = p.tasks.get(frame.decl as usize);
    machine.unfold(statements(decl), open_blocks)?;
    Ok(machine)
}

/// The evaluator with what remains of the body of a frame; none if the body has ended. The frame keeps its variables, and the
/// evaluator has a copy of them.
pub(crate) fn machine_at<'a>(
    alloc: Global,
    p: &'a Prog,
    frame: &Frame,
) -> Result<Option<Machine<'a>>, Memory>
    ensures { IfOk result (λ machine. option_map config_of machine ≡ config_at p.now frame.now frame.now.body) }
{
    let Some(body) = &frame.body else {
        return Ok(None);
    };
    let vars = Ints::from_slice(alloc, body.vars.as_slice())?;
    let machine = machine_with(alloc, p, frame, vars, body.open_blocks.as_slice())?;
    Ok(Some(machine))
}

/// The same, with the body taken out of the frame. The evaluator has the memory of its variables, if they have any.
fn take_machine<'a>(
    alloc: Global,
    p: &'a Prog,
    frame: &mut Frame,
) -> Result<Option<Machine<'a>>, Memory>
    ensures machine { IfOk result (λ machine. option_map config_of machine ≡ config_at p.now frame.old frame.old.body) }
    ensures frame { IfOk result (λ machine. frame.new ≡ record frame.old { body = None }) }
{
    let Some(body) = frame.body.take() else {
        return Ok(None);
    };
    let OpenBody { vars, open_blocks } = body;
    let vars = vars.into_list(alloc)?;
    let machine = machine_with(alloc, p, frame, vars, open_blocks.as_slice())?;
    Ok(Some(machine))
}

/// Executes one segment of a task: what remains of its body, up to the next task operation or the end of the body. If the
/// body has ended already, the task waits to join the next of its unjoined children, or is done if it has none. Printed
/// numbers go to the frame's list.
///
/// The accesses are exactly those of the segment's meaning, each by the rule of the cells. After a stop at a make that
/// spawns, the frame has room for one more child: whoever makes the task adds its number without taking memory. After
/// `Memory` nothing is known of the frame and the cells.
pub fn run_segment<C: Cells>(
    alloc: Global,
    p: &Prog,
    frame: &mut Frame,
    cells: &mut C,
) -> Result<Stop, Memory>
    requires { MayCarryOut p.now (ways_of C.known C.may_read C.may_write C.rule) frame.old cells.old }
    ensures segment { IfOk result (λ stop. CarriesOut p.now C.rule frame.old cells.old stop frame.new cells.new) }
    ensures room { IfOk result (λ stop. HasRoomToSpawn stop frame.new) }
{
    match take_machine(alloc, p, frame)? {
        None => {
            let value = frame.value;
            Ok(end(alloc, frame, value))
        }
        Some(mut machine) => {
            let ending = run(alloc, p, &mut machine, cells, &mut frame.prints)?;
            frame.fuel = machine.fuel;
            finish(alloc, p, frame, machine.vars, ending)
        }
    }
}

/// Executes one segment of a task over a plain list with the cells of the program. After a stop at a make that spawns,
/// the frame has room for one more child. After `Memory` nothing is known of the frame and the cells.
pub fn run_segment_over_list(
    alloc: Global,
    p: &Prog,
    frame: &mut Frame,
    cells: &mut Ints,
) -> Result<Stop, Memory>
    requires { length cells.old ≡ cell_count p.now }
    ensures segment { IfOk result (λ stop. IsSegment p.now frame.old cells.old stop frame.new cells.new) }
    ensures cells { IfOk result (λ stop. length cells.new ≡ length cells.old) }
    ensures room { IfOk result (λ stop. HasRoomToSpawn stop frame.new) }
{
    let _main = p.main;
    run_segment(alloc, p, frame, cells)
}
