//! One turn of a sequential execution: it carries out one segment, and finds the frame of the next one.
ghost use Rattle.std.specs.Prelude.{◌≡◌, ◌==◌, ◌<◌, IfOk, IfErr, List, true, length};
ghost use Rattle.std.specs.List.{list_any};
ghost use Rattle.twe_program.specs.Program.{cell_count};
ghost use Rattle.seg_meaning.specs.declared.frame.Frame.{Frame};
ghost use Rattle.seg_meaning.specs.Segment.{HasRoomToSpawn, segment};
ghost use Rattle.machine_state.specs.Moves.{making_frame};
ghost use Rattle.determinism_laws.specs.declared.elision.progress.Progress.{Progress};
ghost use Rattle.determinism_laws.specs.elision.Elision.{first_frame};
ghost use Rattle.seq_elide.specs.inner.Turns.{IsFailure, IsTurn, turn_after, turn_at_end, turn_at_join, turn_at_spawn, turn_at_stop};

use crate::fail::ElideFail;
use determinism_laws::elision::Progress;
use seg_exec::run_segment_over_list;
use seg_meaning::{Frame, Stop};
use std::alloc::Global;
use twe_base::{FaultKind, Limits, Memory, Place, Stack};
use twe_machine::set_future;
use twe_program::Prog;

/// How a turn ends.
#[derive(Debug, Drop)]
pub(crate) enum Turn {
    /// The next segment is one of this frame.
    Goes(Frame),
    /// The first task has ended with this value.
    Ended(i32),
}

/// Carries out one segment of this frame. The callers are the tasks that wait for the frame's task to end, the innermost
/// on top.
pub(crate) fn take_turn(
    alloc: Global,
    p: &Prog,
    lim: Limits,
    callers: &mut Stack<Frame>,
    frame: Frame,
    progress: &mut Progress,
) -> Result<Turn, ElideFail>
    requires { length progress.old.cells ≡ cell_count p.now }
    ensures goes { IfOk result (λ turn. IsTurn (turn_after lim callers.old progress.old (segment p.now frame progress.old.cells))
        turn callers.new progress.new) }
    ensures fails { IfErr result (λ fail.
        IsFailure (turn_after lim callers.old progress.old (segment p.now frame progress.old.cells)) fail) }
{
    let mut frame = frame;
    let stop = run_segment_over_list(alloc, p, &mut frame, &mut progress.cells)?;
    progress.take_prints(alloc, &mut frame)?;
    follow(alloc, lim, callers, frame, stop, progress)
}

/// What follows a segment that left this frame and stopped in this way.
fn follow(
    alloc: Global,
    lim: Limits,
    callers: &mut Stack<Frame>,
    frame: Frame,
    stop: Stop,
    progress: &mut Progress,
) -> Result<Turn, ElideFail>
    requires { HasRoomToSpawn stop frame }
    ensures goes { IfOk result (λ turn.
        IsTurn (turn_at_stop lim callers.old frame stop progress.old) turn callers.new progress.new) }
    ensures fails { IfErr result (λ fail. IsFailure (turn_at_stop lim callers.old frame stop progress.old) fail) }
{
    match stop {
        Stop::Make {
            child,
            spawned: true,
            future,
            place,
            ..
        } => spawn(lim, callers, frame, child, future, place, progress),
        Stop::Make { .. } => Err(ElideFail::NotForkJoin),
        Stop::Waits { .. } => Err(ElideFail::NotForkJoin),
        Stop::Joins { on } => join(frame, on, progress),
        Stop::Done { value } => {
            progress.keep_value(&frame, value);
            Ok(return_to(callers, value))
        }
        Stop::Fault { kind, place } => Err(ElideFail::Fault { kind, place }),
    }
}

/// Notes a spawned child in the frame of its parent. It takes no memory.
fn note(frame: &mut Frame, future: u32, child: u32)
    requires { 0 < frame.old.out.room }
    ensures { frame.new ≡ making_frame future true child frame.old }
{
    set_future(&mut frame.futures, future, child);
    frame.out.push_within(child);
}

/// The frame of a new task with all of its fuel.
pub(crate) fn first_frame(lim: Limits, number: u32, child: Frame) -> Frame
    ensures { result ≡ first_frame lim number child }
{
    let mut child = child;
    child.task = number;
    child.fuel = lim.fuel;
    child
}

/// Spawns a child, which runs next. Its parent becomes the innermost caller.
fn spawn(
    lim: Limits,
    callers: &mut Stack<Frame>,
    frame: Frame,
    child: Frame,
    future: u32,
    place: Place,
    progress: &mut Progress,
) -> Result<Turn, ElideFail>
    requires { 0 < frame.out.room }
    ensures goes { IfOk result (λ turn.
        IsTurn (turn_at_spawn lim callers.old frame child future place progress.old) turn callers.new progress.new) }
    ensures fails { IfErr result (λ fail. IsFailure (turn_at_spawn lim callers.old frame child future place progress.old) fail) }
{
    let tasks = progress.values.len();
    if tasks >= lim.tasks as usize {
        return Err(ElideFail::Fault {
            kind: FaultKind::TaskLimit,
            place,
        });
    }
    let number = tasks as u32;
    let mut frame = frame;
    note(&mut frame, future, number);
    callers.push(frame)?;
    progress.add_task()?;
    Ok(Turn::Goes(first_frame(lim, number, child)))
}

/// Whether this task is among the children.
fn has_child(children: &[u32], task: u32) -> bool
    ensures { result ≡ list_any (λ child. child == task) children.now }
{
    children.iter().any(|child| *child == task)
}

/// Joins a child, whose kept value the frame takes.
fn join(frame: Frame, on: u32, progress: &Progress) -> Result<Turn, ElideFail>
    ensures goes { IfOk result (λ turn.
        (callers : List Frame) → IsTurn (turn_at_join callers frame on progress.now) turn callers progress.now) }
    ensures fails { IfErr result (λ fail. (callers : List Frame) → IsFailure (turn_at_join callers frame on progress.now) fail) }
{
    if !has_child(frame.out.as_slice(), on) {
        return Err(ElideFail::NotForkJoin);
    }
    let mut frame = frame;
    frame.give(progress.kept_value(on));
    Ok(Turn::Goes(frame))
}

/// Goes on with the innermost caller. If there is none, the first task has ended with this value.
fn return_to(callers: &mut Stack<Frame>, value: i32) -> Turn
    ensures { (s : Progress) → IsTurn (turn_at_end callers.old value s) result callers.new s }
{
    match callers.pop() {
        None => Turn::Ended(value),
        Some(caller) => Turn::Goes(caller),
    }
}
