//! What a run could gain, by its journal.
ghost use Rattle.std.specs.Prelude.{◌≡◌, ℕ, IfOk, IsErrOf};
ghost use Rattle.machine_state.specs.Replays.{IsFirstIllegal};
ghost use Rattle.machine_state.specs.declared.why.Why.{Why as Reason};
ghost use Rattle.machine_state.specs.declared.replay_fail.ReplayFail.TheVariants.{Illegal};
ghost use Rattle.span_profile.specs.Profiles.{HasEarliest};
ghost use Rattle.span_profile.specs.Reasons.{HasSteps};
ghost use Rattle.span_profile.specs.Advice.{AreMadeTasks, IsAdvice, parallelism_of};
ghost use Rattle.span_profile.specs.Totals.{CanBeSummed};

use crate::counting::counted_run;
use crate::totals::{TaskWork, task_works};
use crate::{ChainStep, Profile, explain_chain, profile};
use machine_state::{ReplayFail, State, TaskRow};
use seg_journal::{Limits, Move};
use std::alloc::Global;
use twe_base::List;
use twe_program::Prog;

/// What a run could gain.
#[derive(Debug, Drop)]
pub struct Advice {
    /// Its work, its span and its heaviest chain.
    pub profile: Profile,
    /// What each task took, in the order in which they were made.
    pub works: List<TaskWork>,
    /// Why the entries of the heaviest chain follow one another.
    pub steps: List<ChainStep>,
    /// The tasks that were made.
    pub tasks: List<TaskRow>,
}

/// The work by the span, in hundredths, rounded down, and 0 if nothing was done.
pub fn parallelism_of(work: u64, span: u64) -> u128
    ensures { result ≡ parallelism_of work span }
{
    if span == 0 {
        0
    } else {
        u128::from(work) * 100 / u128::from(span)
    }
}

/// What a run of the program under these limits could gain that makes these moves. Entries after the first fault do not count,
/// but their moves have to be legal too. If the moves are not all legal, it returns the number of the first that is not,
/// counted from 1, and why it is not.
pub fn advise(alloc: Global, p: &Prog, lim: Limits, moves: &[Move]) -> Result<Advice, ReplayFail>
    ensures advised { IfOk result (λ a. IsAdvice p.now lim moves.now a.profile.work a.profile.span a.profile.chain a.works) }
    ensures earliest { IfOk result (λ a. HasEarliest p.now lim moves.now a.profile.span a.profile.starts a.profile.ends) }
    ensures steps { IfOk result (λ a. HasSteps p.now lim moves.now a.profile.chain a.steps) }
    ensures tasks { IfOk result (λ a. AreMadeTasks p.now lim moves.now a.tasks) }
    ensures few { IfOk result (λ a. CanBeSummed a.works) }
    ensures illegal { (n : ℕ) (why : Reason) → IsErrOf result (Illegal n why) → IsFirstIllegal p.now lim moves.now n why }
{
    let _main = p.main;
    let _tasks = lim.tasks;
    let profiled = profile(alloc, p, lim, moves)?;
    let (journal, st) = counted_run(alloc, p, lim, moves)?;
    let works = task_works(alloc, lim.fuel, journal.as_slice(), st.tasks.as_slice())?;
    let steps = explain_chain(alloc, p, lim, moves, profiled.chain.as_slice())?;
    let State { tasks, .. } = st;
    Ok(Advice {
        profile: profiled,
        works,
        steps,
        tasks,
    })
}
