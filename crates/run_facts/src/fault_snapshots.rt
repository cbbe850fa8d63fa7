//! What was there when the first fault of a run was met.
ghost use Rattle.std.specs.Prelude.{◌≡◌, ◌<◌, IfOk, Some, length, slice_get};
ghost use Rattle.twe_base.specs.declared.fault.FaultKind.TheVariants.{TaskLimit};
ghost use Rattle.twe_program.specs.Program.{cell_count};
ghost use Rattle.machine_state.specs.Runs.{Legal, is_fault, state_after};
ghost use Rattle.run_facts.specs.FaultSnapshots.{IsFaultSnapshot, snapshot_ahead, snapshot_between, snapshot_by_kind};

use machine_state::{FirstFault, State};
use seg_exec::{FaultSnapshot, fault_snapshot, run_segment_over_list};
use seg_journal::{End, Entry, Limits};
use seg_meaning::{Frame, OpenBody};
use std::alloc::Global;
use twe_base::{FaultKind, Ints, List, Memory};
use twe_machine::{start, step, take_ready};
use twe_program::Prog;

/// Whether a move with this end met a fault.
fn is_fault(end: End) -> bool
    ensures { result ≡ is_fault end }
{
    matches!(end, End::Fault { .. })
}

/// What is there at a task too many, which is refused between two segments of a task whose body is open.
fn snapshot_between(
    alloc: Global,
    cells: Ints,
    body: Option<OpenBody>,
) -> Result<Option<FaultSnapshot>, Memory>
    ensures { IfOk result (λ snapshot. snapshot ≡ snapshot_between cells body) }
{
    match body {
        None => Ok(None),
        Some(body) => Ok(Some(FaultSnapshot {
            cause: None,
            vars: body.vars.into_list(alloc)?,
            calls: List::new(alloc),
            cells,
        })),
    }
}

/// What is there when the segment of this frame has stopped.
fn snapshot_at_stop(
    alloc: Global,
    p: &Prog,
    frame: &mut Frame,
    cells: &Ints,
) -> Result<Option<FaultSnapshot>, Memory>
    requires { length cells.now ≡ cell_count p.now }
    ensures { IfOk result (λ snapshot. snapshot ≡ snapshot_by_kind p.now frame.old cells.now TaskLimit) }
{
    let mut cells = cells.copy(alloc)?;
    run_segment_over_list(alloc, p, frame, &mut cells)?;
    snapshot_between(alloc, cells, frame.body.take())
}

/// The snapshot of a fault of this kind that the segment of this frame ends with.
fn snapshot_by_kind(
    alloc: Global,
    p: &Prog,
    frame: &mut Frame,
    cells: &Ints,
    kind: FaultKind,
) -> Result<Option<FaultSnapshot>, Memory>
    requires { length cells.now ≡ cell_count p.now }
    ensures { IfOk result (λ snapshot. snapshot ≡ snapshot_by_kind p.now frame.old cells.now kind) }
{
    match kind {
        FaultKind::TaskLimit => snapshot_at_stop(alloc, p, frame, cells),
        _ => fault_snapshot(alloc, p, frame, cells),
    }
}

/// The snapshot of a fault of this kind that a task meets in its next segment from this state, if it meets one. The frame of the
/// task is taken out of the state for it.
fn snapshot_ahead(
    alloc: Global,
    p: &Prog,
    st: &mut State,
    kind: FaultKind,
    task: u32,
) -> Result<Option<FaultSnapshot>, Memory>
    requires there { task < length st.old.tasks }
    requires cells { length st.old.cells ≡ cell_count p.now }
    ensures { IfOk result (λ snapshot. snapshot ≡ snapshot_ahead p.now st.old kind (slice_get st.old.tasks task)) }
{
    let mut frame = take_ready(alloc, &mut st.tasks, task);
    let snapshot = snapshot_by_kind(alloc, p, &mut frame, &st.cells, kind)?;
    Ok(snapshot)
}

/// What was there when the first fault of a run with this journal was met. The moves before the fault are taken again for it.
pub fn snapshot_of_fault(
    alloc: Global,
    p: &Prog,
    lim: Limits,
    journal: &[Entry],
    fault: FirstFault,
) -> Result<Option<FaultSnapshot>, Memory>
    requires legal { Legal p.now lim journal.now }
    requires fault { (state_after p.now lim journal.now).first_fault ≡ Some fault }
    ensures { IfOk result (IsFaultSnapshot p.now lim journal.now fault) }
{
    let _main = p.main;
    let _tasks = lim.tasks;
    let mut st = start(alloc, p, lim)?;
    for entry in journal {
        if is_fault(entry.end) {
            let snapshot = snapshot_ahead(alloc, p, &mut st, fault.kind, entry.mv.task)?;
            return Ok(snapshot);
        }
        step(alloc, p, lim, &mut st, entry.mv)?;
    }
    unreachable!()
}
