//! What an entry does to the frame of its task, how it ends, and what the slot of a task that it makes will hold.
ghost use Rattle.std.specs.Prelude.{◌≡◌, ◌<◌, ◌+◌, ◌^◌, option_map};
ghost use Rattle.seg_meaning.specs.Segment.{HasRoomToSpawn};
ghost use Rattle.machine_state.specs.declared.state.TaskStatus.TheVariants.{Enabled};
ghost use Rattle.machine_state.specs.Moves.{frame_without_prints, new_row, status_at_start, stopped_frame};
ghost use Rattle.machine_state.specs.Rows.{row_awaited};
ghost use Rattle.floor_laws.specs.rule.Rows.{phase_at, slot_of};
ghost use Rattle.floor_laws.specs.rule.Steps.{end_after};
ghost use Rattle.task_floor.specs.steps.Committing.{child_row};
ghost use Rattle.task_floor.specs.steps.inner.Bringing.{frame_after};

use crate::row_phase::enabled_phase;
use effect_sets::Summary;
use floor_laws::rule::{Phase, TaskSlot};
use floor_laws::table::KeptSlot;
use seg_journal::{End, FaultKind, Limits};
use seg_meaning::{Frame, Next, Stop};
use std::alloc::Global;
use std::mem;
use twe_base::Ints;
use twe_machine::{note_child, parent_of};

/// Takes the printed numbers out of a frame.
pub(crate) fn take_prints(alloc: Global, frame: &mut Frame) -> Ints
    ensures prints { result ≡ frame.old.prints }
    ensures frame { frame.new ≡ frame_without_prints frame.old }
{
    mem::replace(&mut frame.prints, Ints::new(alloc))
}

/// Leaves nothing to run in the frame of a task that has met a fault at a make.
fn stop_frame(frame: &mut Frame)
    ensures { frame.new ≡ stopped_frame frame.old }
{
    frame.body = None;
    frame.next = Next::Ended;
}

/// What the slot of a new task of this number holds: its frame gets the number, and all of the fuel.
fn new_slot(
    lim: Limits,
    number: u32,
    parent: Option<u32>,
    child: Frame,
    args: Ints,
    effects: Summary,
) -> TaskSlot
    ensures { result ≡ slot_of (new_row lim number parent child args effects) }
{
    let mut frame = child;
    frame.task = number;
    frame.fuel = lim.fuel;
    TaskSlot {
        decl: frame.decl,
        args,
        effects,
        frame,
        parent,
    }
}

/// The phase of a new task: one with a parent runs at once, and another one waits for its admission.
pub(crate) fn new_phase(slot: &KeptSlot) -> Phase
    ensures { result ≡ phase_at (status_at_start slot.now.parent) (row_awaited slot.now.frame.next) }
{
    match slot.slot.parent {
        None => Phase::Made,
        Some(_) => enabled_phase(slot.slot.frame.next),
    }
}

/// The phase of an enabled task that is left.
pub(crate) fn parked_phase(slot: &KeptSlot) -> Phase
    ensures { result ≡ phase_at Enabled (row_awaited slot.now.frame.next) }
{
    enabled_phase(slot.slot.frame.next)
}

/// The task that spawned a new one, if it was spawned.
pub(crate) fn spawner(slot: &KeptSlot) -> Option<u32>
    ensures { result ≡ slot.now.parent }
{
    slot.slot.parent
}

/// Settles the frame of a task whose segment has stopped, if `asked` tasks were asked for before. Returns how its entry ends
/// and, if it makes a task, what the slot of that task will hold. It takes no memory.
pub(crate) fn settle(
    lim: Limits,
    asked: u32,
    task: u32,
    frame: &mut Frame,
    stop: Stop,
) -> (End, Option<TaskSlot>)
    requires few { asked + 1 < 2 ^ 32 }
    requires room { HasRoomToSpawn stop frame.old }
    ensures frame { frame.new ≡ frame_after lim asked frame.old stop }
    ensures end { result.0 ≡ end_after lim asked stop }
    ensures child { result.1 ≡ option_map slot_of (child_row lim asked task stop) }
{
    match stop {
        Stop::Make {
            child,
            args,
            effects,
            spawned,
            future,
            place,
        } => {
            let number = asked + 1;
            if number < lim.tasks {
                note_child(frame, number, future, spawned);
                let parent = parent_of(task, spawned);
                let slot = new_slot(lim, number, parent, child, args, effects);
                (End::Made { child: number }, Some(slot))
            } else {
                stop_frame(frame);
                let kind = FaultKind::TaskLimit;
                (End::Fault { kind, place }, None)
            }
        }
        Stop::Waits { on } => (End::Waits { on }, None),
        Stop::Joins { on } => (End::Joins { on }, None),
        Stop::Done { value } => (End::Done { value }, None),
        Stop::Fault { kind, place } => (End::Fault { kind, place }, None),
    }
}
