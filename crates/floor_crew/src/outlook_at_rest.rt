//! What may be done next for a task of a run at rest.
ghost use Rattle.machine_state.specs.declared.state.TaskStatus.TheVariants.{Made, Enabled};
ghost use Rattle.twe_machine.specs.Listings.{IsListing};
ghost use Rattle.machine_state.specs.Rows.{HasStatus};
ghost use Rattle.machine_state.specs.Runs.{IsReachable};
ghost use Rattle.floor_crew.specs.inner.GoingOn.{IsOutlook};

use machine_state::{State, TaskStatus};
use twe_machine::EnabledTasks;
use twe_program::Prog;
use twe_rounds::next_to_admit;

/// What may be done next for a task while no worker has the run.
#[derive(Clone, Copy, Debug, PartialEq, Eq)]
pub(crate) enum OutlookAtRest {
    /// It may be admitted.
    Admissible,
    /// It may not be admitted yet. This is a bar to it.
    Held { by: u32 },
    /// It may run.
    Runs,
    /// It waits for the task `on`. If the chain of waits from there is short and ends at a task that is still to be admitted,
    /// that is `next`.
    Waits { on: u32, next: Option<u32> },
    /// Nothing is left to do for it.
    Over,
}

/// What may be done next for a task.
pub(crate) fn outlook_at_rest(
    p: &Prog,
    st: &State,
    enabled: &EnabledTasks,
    task: u32,
) -> OutlookAtRest
    requires reachable { IsReachable p.now st.now }
    requires listing { IsListing st.now enabled.now }
    ensures { IsOutlook st.now task result }
{
    let Some(row) = st.tasks.get(task as usize) else {
        return OutlookAtRest::Over;
    };
    match row.status {
        TaskStatus::Made => outlook_if_made(p, st, enabled, task),
        TaskStatus::Enabled => outlook_if_enabled(st, task),
        _ => OutlookAtRest::Over,
    }
}

/// What may be done next for a task that was made and not admitted.
fn outlook_if_made(p: &Prog, st: &State, enabled: &EnabledTasks, task: u32) -> OutlookAtRest
    requires reachable { IsReachable p.now st.now }
    requires listing { IsListing st.now enabled.now }
    requires made { HasStatus st.now task Made }
    ensures { IsOutlook st.now task result }
{
    let _main = p.main;
    match enabled.bar(st, task) {
        Some(by) => OutlookAtRest::Held { by },
        None => OutlookAtRest::Admissible,
    }
}

/// What may be done next for a task that is enabled.
fn outlook_if_enabled(st: &State, task: u32) -> OutlookAtRest
    requires { HasStatus st.now task Enabled }
    ensures { IsOutlook st.now task result }
{
    if task >= st.links.task_count() {
        return OutlookAtRest::Over;
    }
    match st.links.awaited(task) {
        Some(on) => OutlookAtRest::Waits {
            on,
            next: next_to_admit(st, on),
        },
        None => OutlookAtRest::Runs,
    }
}
