//! A run at rest: between rounds, while nobody else has it, it is plain data, and moves are taken one by one.
ghost use Rattle.std.specs.Prelude.{◌≡◌, ◌∷◌, ◌++◌, [], IfOk, OnOk};
ghost use Rattle.machine_state.specs.Legal.{MayMove};
ghost use Rattle.machine_state.specs.Runs.{IsRun, entry_of};
ghost use Rattle.floor_crew.specs.inner.GoingOn.{IsSound};

use machine_state::links_agree;
use seg_journal::{Entry, Journal, Move};
use std::alloc::Global;
use task_floor::steps::Rest;
use twe_base::{Limits, Memory};
use twe_machine::{EnabledTasks, start, step};
use twe_program::Prog;

/// A run at rest, with its enabled tasks.
#[derive(Drop)]
pub(crate) struct RunAtRest {
    /// The journal, and the state to which it leads.
    pub rest: Rest,
    /// The enabled tasks of that state.
    pub enabled: EnabledTasks,
}

impl RunAtRest {
    /// The run that has not begun.
    pub(crate) fn begin(alloc: Global, p: &Prog, lim: Limits) -> Result<Self, Memory>
        ensures sound { IfOk result (IsSound p.now lim) }
        ensures begins { IfOk result (λ run. run.rest.journal ≡ []) }
    {
        Ok(RunAtRest {
            rest: Rest {
                state: start(alloc, p, lim)?,
                journal: Journal::new(alloc),
            },
            enabled: EnabledTasks::new(alloc)?,
        })
    }

    /// Takes a legal move. After `Memory` the run can only be dropped.
    pub(crate) fn take(
        &mut self,
        alloc: Global,
        p: &Prog,
        lim: Limits,
        mv: Move,
    ) -> Result<(), Memory>
        requires sound { IsSound p.now lim self.old }
        requires legal { MayMove self.old.rest.state mv }
        ensures sound { OnOk result (IsSound p.now lim self.new) }
        ensures journal { OnOk result (self.new.rest.journal
            ≡ self.old.rest.journal ++ entry_of p.now lim self.old.rest.state mv ∷ []) }
    {
        let _main = p.main;
        let before = self.rest.state.links.task_count();
        let end = step(alloc, p, lim, &mut self.rest.state, mv)?;
        self.rest.journal.push(Entry { mv, end })?;
        self.enabled.note(&self.rest.state, mv, before)?;
        Ok(())
    }

    /// The run that comes back from a round.
    pub(crate) fn of(alloc: Global, p: &Prog, lim: Limits, rest: Rest) -> Result<Self, Memory>
        requires { IsRun p.now lim rest.journal rest.state }
        ensures sound { IfOk result (IsSound p.now lim) }
        ensures rest { IfOk result (λ run. run.rest ≡ rest) }
    {
        links_agree();
        let (_main, _tasks) = (p.main, lim.tasks);
        let enabled = EnabledTasks::of(alloc, &rest.state)?;
        Ok(RunAtRest { rest, enabled })
    }
}
