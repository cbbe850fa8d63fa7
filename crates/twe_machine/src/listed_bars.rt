//! Bars among the enabled tasks.
ghost use Rattle.std.specs.Prelude.{◌↔◌, ℕ, IfErr, IfNone, IfSome, IsOk, IsTrue};
ghost use Rattle.machine_state.specs.declared.state.TaskStatus.TheVariants.{Made};
ghost use Rattle.machine_state.specs.Legal.{Forbids, IsBar, MayAdmit, MayMove};
ghost use Rattle.twe_machine.specs.Listings.{IsListing};
ghost use Rattle.machine_state.specs.Rows.{HasStatus};
ghost use Rattle.machine_state.specs.Runs.{IsReachable};
ghost use Rattle.twe_program.specs.Program.{Program};
ghost use Rattle.twe_program.specs.WellFormed.{IsWellFormed};

use crate::enabled_tasks::EnabledTasks;
use crate::legal::may;
use machine_state::{State, TaskStatus, Why};
use seg_journal::{Kind, Move};
use twe_program::Prog;

impl EnabledTasks {
    /// Some bar to the admission of a task that was made, if there is one, in a reached state of some well-formed program. It
    /// need not be the lowest one. It takes no memory, and looks at what is in the way of the task's effects alone.
    pub fn bar(&self, st: &State, t: u32) -> Option<u32>
        requires reachable { (p : Program) × IsWellFormed p × IsReachable p st.now }
        requires listing { IsListing st.now self.now }
        requires made { HasStatus st.now t Made }
        ensures some { IfSome result (λ s. IsBar st.now s t) }
        ensures none { IfNone result (MayAdmit st.now t) }
    {
        match st.tasks.get(t as usize) {
            None => None,
            Some(row) => self.bar_to_all(st, row.effects.effects.as_slice(), t),
        }
    }

    /// Checks that the move is legal in a reached state of the program, and returns the reason if it is not. It answers as `may`
    /// does, but for a legal admission it looks at what is in its way alone.
    pub fn may(&self, p: &Prog, st: &State, mv: Move) -> Result<(), Why>
        requires reachable { IsReachable p.now st.now }
        requires listing { IsListing st.now self.now }
        ensures legal { IsOk result ↔ MayMove st.now mv }
        ensures why { IfErr result (Forbids st.now mv.kind mv.task) }
    {
        match mv.kind {
            Kind::Admit if self.admits(p, st, mv.task) => Ok(()),
            _ => may(p, st, mv),
        }
    }

    /// Whether a task may be admitted.
    fn admits(&self, p: &Prog, st: &State, t: u32) -> bool
        requires reachable { IsReachable p.now st.now }
        requires listing { IsListing st.now self.now }
        ensures { IsTrue result → MayAdmit st.now t }
    {
        let _main = p.main;
        let Some(row) = st.tasks.get(t as usize) else {
            return false;
        };
        match row.status {
            TaskStatus::Made => self.bar(st, t).is_none(),
            _ => false,
        }
    }
}
