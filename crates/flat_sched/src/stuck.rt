//! The cycle of tasks in a stuck run.
ghost use Rattle.std.specs.Prelude.{◌<◌, length, IfOk};
ghost use Rattle.std.specs.List.{All};
ghost use Rattle.twe_program.specs.Program.{Program};
ghost use Rattle.twe_program.specs.WellFormed.{IsWellFormed};
ghost use Rattle.wait_graph.specs.StuckCycle.{IsClosed, HasEachOnce, BeginsLowest};
ghost use Rattle.machine_state.specs.Runs.{IsReachable, IsOutcome};
ghost use Rattle.machine_state.specs.declared.ending.Outcome.TheVariants.{Stuck};
ghost use Rattle.flat_sched.specs.Stuck.{AreHolders, IsHolder, IsReason, IsStuckCycle};

use crate::held::held_by;
use machine_state::{State, TaskStatus, links_agree};
use std::alloc::Global;
use twe_base::Memory;
use twe_program::Prog;
use wait_graph::Cycle;

/// The cycle in which the tasks are stuck, in a reached state in which the run of the program is stuck. Each task of
/// the cycle waits for the next one or is held by it, and the last one waits for the first or is held by it. The
/// cycle begins with the lowest of its tasks.
pub fn stuck_cycle(alloc: Global, p: &Prog, st: &State) -> Result<Cycle, Memory>
    requires reachable { IsReachable p.now st.now }
    requires stuck { IsOutcome st.now Stuck }
    ensures exact { IfOk result (λ cycle. IsStuckCycle st.now cycle) }
    ensures true_edges { IfOk result (λ cycle. All (IsReason st.now) cycle) }
    ensures some { IfOk result (λ cycle. 0 < length cycle) }
    ensures closed { IfOk result (λ cycle. IsClosed cycle) }
    ensures once { IfOk result (λ cycle. HasEachOnce cycle) }
    ensures begins_lowest { IfOk result (λ cycle. BeginsLowest cycle) }
{
    links_agree();
    let _main = p.main;
    let held = holders(alloc, st)?;
    st.links.find_cycle(alloc, &held)
}

/// The holders of all tasks.
fn holders(alloc: Global, st: &State) -> Result<Vec<Option<u32>>, Memory>
    requires { (p : Program) × IsWellFormed p × IsReachable p st.now }
    ensures { IfOk result (λ held. AreHolders st.now held.items) }
{
    links_agree();
    let mut held = Vec::with_capacity(alloc, st.tasks.len())?;
    for t in 0..st.links.task_count() {
        held.push(holder(st, t))?;
    }
    Ok(held)
}

/// The holder of a task, if it has one.
fn holder(st: &State, t: u32) -> Option<u32>
    requires { (p : Program) × IsWellFormed p × IsReachable p st.now }
    ensures { IsHolder st.now t result }
{
    match st.tasks.get(t as usize)?.status {
        TaskStatus::Made => held_by(st, t),
        _ => None,
    }
}
