//! How a segment met its fault: what was there at that moment.
ghost use Rattle.std.specs.Prelude.{◌≡◌, IfOk, length};
ghost use Rattle.twe_program.specs.Program.{cell_count};
ghost use Rattle.seg_exec.specs.Snapshots.{snapshot_of};
ghost use Rattle.seg_meaning.specs.Segment.{flow_of};
ghost use Rattle.seg_exec.specs.inner.Faulting.{snapshot_at};
ghost use Rattle.seg_exec.specs.inner.steps.Calls.{calls_of};

use crate::segment::machine_at;
use crate::steps::machine::Machine;
use crate::steps::request::Ending;
use crate::strides::run::run;
use seg_meaning::{ActiveCall, FaultCause, Frame};
use std::alloc::Global;
use twe_base::{Ints, List, Memory};
use twe_program::Prog;

/// What was there when a segment met its fault.
#[derive(Debug, Drop)]
pub struct FaultSnapshot {
    /// What led to the fault; none at a task too many, for which a segment stops before it is refused.
    pub cause: Option<FaultCause>,
    /// The values of the parameters and locals of the active body.
    pub vars: Ints,
    /// The active method calls, the latest first.
    pub calls: List<ActiveCall>,
    /// The cells, with what the segment had written.
    pub cells: Ints,
}

/// What is there at the end of a run, if it is a fault.
fn snapshot_at(
    alloc: Global,
    machine: Machine<'_>,
    cells: Ints,
    ending: &Ending,
) -> Result<Option<FaultSnapshot>, Memory>
    ensures { IfOk result (λ snapshot. snapshot
        ≡ snapshot_at ending.now machine.entry.vars.active (calls_of machine.entry.work) cells) }
{
    match ending {
        Ending::Faulted { cause, .. } => Ok(Some(FaultSnapshot {
            cause: Some(*cause),
            vars: machine.vars.into_active(alloc)?,
            calls: machine.work.into_calls(alloc)?,
            cells,
        })),
        Ending::Returned(_) => Ok(None),
        Ending::Suspended(_) => Ok(None),
    }
}

/// Executes one segment of a task over a copy of the cells, and returns what was there when it met a fault; none if it meets
/// none. What it prints is dropped.
pub fn fault_snapshot(
    alloc: Global,
    p: &Prog,
    frame: &Frame,
    cells: &Ints,
) -> Result<Option<FaultSnapshot>, Memory>
    requires { length cells.now ≡ cell_count p.now }
    ensures { IfOk result (λ snapshot. snapshot ≡ snapshot_of (flow_of p.now frame.now frame.now.body cells.now)) }
{
    let _main = p.main;
    let Some(mut machine) = machine_at(alloc, p, frame)? else {
        return Ok(None);
    };
    let mut cells = cells.copy(alloc)?;
    let mut prints = Ints::new(alloc);
    let ending = run(alloc, p, &mut machine, &mut cells, &mut prints)?;
    snapshot_at(alloc, machine, cells, &ending)
}
