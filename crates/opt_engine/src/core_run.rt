//! The run of a core so far, and the next move of it.
ghost use Rattle.std.specs.Prelude.{◌≡◌, [], IfOk, OnOk};
ghost use Rattle.machine_state.specs.Legal.{MayMove, MayRun};
ghost use Rattle.machine_state.specs.Moves.{start_of};
ghost use Rattle.machine_state.specs.Runs.{IsRun};
ghost use Rattle.opt_engine.specs.Taking.{TakingSteps};

use crate::hints::Hints;
use crate::mirrored::run_mirrored;
use machine_state::State;
use seg_journal::{Entry, Journal, Kind, Move};
use std::alloc::Global;
use twe_base::{Limits, Memory};
use twe_machine::{start, step};
use twe_program::Prog;

/// The journal of a run so far, and the state to which it leads.
#[derive(Drop)]
pub struct CoreRun {
    /// The entries so far.
    pub journal: Journal,
    /// The state after them.
    pub state: State,
}

impl CoreRun {
    /// The run of the program that has not begun.
    pub fn begin(alloc: Global, p: &Prog, lim: Limits) -> Result<Self, Memory>
        ensures { IfOk result (λ run. run ≡ record { journal = []; state = start_of p.now lim }) }
    {
        Ok(CoreRun {
            journal: Journal::new(alloc),
            state: start(alloc, p, lim)?,
        })
    }

    /// Takes a legal move, and enters it into the journal. After `Memory` the run can only be dropped.
    pub fn take(&mut self, alloc: Global, p: &Prog, lim: Limits, mv: Move) -> Result<(), Memory>
        requires run { IsRun p.now lim self.old.journal self.old.state }
        requires legal { MayMove self.old.state mv }
        ensures { OnOk result (TakingSteps p.now lim self.old mv self.new) }
    {
        let end = step(alloc, p, lim, &mut self.state, mv)?;
        self.journal.push(Entry { mv, end })?;
        Ok(())
    }

    /// Runs the next segment of a task that may run, and enters the move into the journal. By its code it stores what the
    /// segment writes to the hints. After `Memory` the run can only be dropped.
    pub(crate) fn run_shown(
        &mut self,
        alloc: Global,
        p: &Prog,
        lim: Limits,
        hints: &Hints,
        t: u32,
    ) -> Result<(), Memory>
        requires run { IsRun p.now lim self.old.journal self.old.state }
        requires may { MayRun self.old.state t }
        ensures { OnOk result (TakingSteps p.now lim self.old (record { kind = Kind.Run; task = t }) self.new) }
    {
        let mv = Move {
            kind: Kind::Run,
            task: t,
        };
        let end = run_mirrored(alloc, p, lim, hints, &mut self.state, t)?;
        self.journal.push(Entry { mv, end })?;
        Ok(())
    }
}
