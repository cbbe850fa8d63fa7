//! How a run has ended, with the reason if it is stuck.
ghost use Rattle.std.specs.Prelude.{◌≡◌, IfOk};
ghost use Rattle.machine_state.specs.Runs.{IsReachable};
ghost use Rattle.flat_sched.specs.RunEnds.{IsRunEnd, is_run_over, outcome_of};

use crate::stuck::stuck_cycle;
use machine_state::{Outcome, State};
use seg_journal::{FaultKind, Journal};
use std::alloc::Global;
use twe_base::{Memory, Place};
use twe_machine::outcome;
use twe_program::Prog;
use wait_graph::Cycle;

/// How a run has ended, or that it has not: its outcome, and the cycle that is the reason if it is stuck.
#[derive(Debug, Drop)]
pub enum RunEnd {
    /// Every task is done.
    AllDone,
    /// Some task has met a fault; this is the first fault.
    Fault {
        /// The task that met it.
        task: u32,
        /// Its kind.
        kind: FaultKind,
        /// Where in the text it was met.
        place: Place,
    },
    /// Some task is not done, and no move is legal. The cycle says why.
    Stuck(Cycle),
    /// Some task is not done, and some move is legal.
    Unfinished,
}

impl RunEnd {
    /// The outcome of the run.
    pub fn outcome(&self) -> Outcome
        ensures { result ≡ outcome_of self.now }
    {
        match self {
            RunEnd::AllDone => Outcome::AllDone,
            RunEnd::Fault { task, kind, place } => Outcome::Fault {
                task: *task,
                kind: *kind,
                place: *place,
            },
            RunEnd::Stuck(_) => Outcome::Stuck,
            RunEnd::Unfinished => Outcome::Unfinished,
        }
    }

    /// Whether the run is over.
    pub fn is_over(&self) -> bool
        ensures { result ≡ is_run_over self.now }
    {
        !matches!(self, RunEnd::Unfinished)
    }
}

/// How a run of the program that has come to this state has ended, if it has.
pub fn run_end(alloc: Global, p: &Prog, st: &State) -> Result<RunEnd, Memory>
    requires { IsReachable p.now st.now }
    ensures { IfOk result (IsRunEnd st.now) }
{
    match outcome(p, st) {
        Outcome::AllDone => Ok(RunEnd::AllDone),
        Outcome::Fault { task, kind, place } => Ok(RunEnd::Fault { task, kind, place }),
        Outcome::Stuck => Ok(RunEnd::Stuck(stuck_cycle(alloc, p, st)?)),
        Outcome::Unfinished => Ok(RunEnd::Unfinished),
    }
}

/// A whole run: its journal, the state to which it leads, and how it has ended.
#[derive(Drop)]
pub struct WholeRun {
    /// The journal of its entries.
    pub journal: Journal,
    /// The state to which the journal leads.
    pub state: State,
    /// How it has ended.
    pub end: RunEnd,
}

impl WholeRun {
    /// The run of the program with this journal, which has come to this state.
    pub fn of(alloc: Global, p: &Prog, journal: Journal, state: State) -> Result<Self, Memory>
        requires { IsReachable p.now state }
        ensures { IfOk result (λ run. (run.journal ≡ journal) × (run.state ≡ state) × IsRunEnd state run.end) }
    {
        let end = run_end(alloc, p, &state)?;
        Ok(WholeRun {
            journal,
            state,
            end,
        })
    }
}
