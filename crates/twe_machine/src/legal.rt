//! Which moves are legal.
ghost use Rattle.std.specs.Prelude.{◌≡◌, ◌↔◌, length, IsOk, IfErr};
ghost use Rattle.seg_journal.specs.declared.moves.Kind.TheVariants.{Admit, Run};
ghost use Rattle.machine_state.specs.declared.state.TaskStatus.TheVariants.{Made, Enabled};
ghost use Rattle.machine_state.specs.Legal.{Forbids, MayMove, MayTake};
ghost use Rattle.machine_state.specs.Rows.{EffectsAreFilled, HasStatus};
ghost use Rattle.machine_state.specs.Runs.{IsReachable};

use crate::bars::bar;
use machine_state::{State, TaskStatus, Why};
use seg_journal::{Kind, Move};
use twe_program::Prog;

/// Checks that the move is legal in a reached state of the program, and returns the reason if it is not.
pub fn may(p: &Prog, st: &State, mv: Move) -> Result<(), Why>
    requires { IsReachable p.now st.now }
    ensures legal { IsOk result ↔ MayMove st.now mv }
    ensures why { IfErr result (Forbids st.now mv.kind mv.task) }
{
    let Some(row) = st.tasks.get(mv.task as usize) else {
        return Err(Why::NoTask);
    };
    let _main = p.main;
    match (mv.kind, row.status) {
        (Kind::Admit, TaskStatus::Made) => may_admit(st, mv.task),
        (Kind::Admit, _) => Err(Why::NotMade),
        (Kind::Run, TaskStatus::Enabled) => may_run(st, mv.task),
        (Kind::Run, _) => Err(Why::NotEnabled),
    }
}

/// Checks that a made task may be admitted, and returns the lowest bar to it if it may not.
fn may_admit(st: &State, t: u32) -> Result<(), Why>
    requires made { HasStatus st.now t Made }
    requires linked { length st.now.links ≡ length st.now.tasks }
    requires filled { EffectsAreFilled st.now }
    ensures legal { IsOk result ↔ MayTake st.now Admit t }
    ensures why { IfErr result (Forbids st.now Admit t) }
{
    match bar(st, t) {
        None => Ok(()),
        Some(s) => Err(Why::HeldBy(s)),
    }
}

/// Checks that an enabled task may run, and returns the task that it waits for if it may not.
fn may_run(st: &State, t: u32) -> Result<(), Why>
    requires enabled { HasStatus st.now t Enabled }
    requires linked { length st.now.links ≡ length st.now.tasks }
    ensures legal { IsOk result ↔ MayTake st.now Run t }
    ensures why { IfErr result (Forbids st.now Run t) }
{
    match st.links.awaited(t) {
        None => Ok(()),
        Some(u) => Err(Why::WaitsFor(u)),
    }
}
