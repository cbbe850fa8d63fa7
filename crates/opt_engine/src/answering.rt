//! What a run answers to a draft.
ghost use Rattle.std.specs.Prelude.{IfOk, Some};
ghost use mathlib.Core.List.{IsPrefix};
ghost use Rattle.twe_machine.specs.Listings.{IsListing};
ghost use Rattle.machine_state.specs.Runs.{IsRun};
ghost use Rattle.opt_engine.specs.Drafts.{IsDraftedOf};
ghost use Rattle.opt_engine.specs.Verdicts.{Judges};

use crate::committing::take_moves;
use crate::core_run::CoreRun;
use crate::drafts::Drafted;
use crate::hints::Hints;
use crate::judging::{Finding, judge};
use crate::verdict::Verdict;
use std::alloc::Global;
use twe_base::{Limits, Memory};
use twe_machine::EnabledTasks;
use twe_program::Prog;

/// Takes the moves that a draft stands for, if it fits and they are legal, and else says why not. Then the run is as before.
/// The enabled tasks are those of the run. By its code it stores what was written to the hints.
#[tactic(auto, using(crate::proofs::Told::takes_begin, crate::proofs::Told::begins_itself, crate::proofs::Told::reached_of))]
pub(crate) fn answer(
    alloc: Global,
    p: &Prog,
    lim: Limits,
    hints: &Hints,
    run: CoreRun,
    enabled: &mut EnabledTasks,
    d: Drafted,
) -> Result<(CoreRun, Verdict), Memory>
    requires run { IsRun p.now lim run.journal run.state }
    requires listing { IsListing run.state enabled.old }
    requires drafted { IsDraftedOf p.now d }
    ensures run { IfOk result (λ answer. IsRun p.now lim answer.0.journal answer.0.state) }
    ensures listing { IfOk result (λ answer. IsListing answer.0.state enabled.new) }
    ensures judges { IfOk result (λ answer. Judges p.now lim run d answer.1 (Some answer.0)) }
    ensures begins { IfOk result (λ answer. IsPrefix run.journal answer.0.journal) }
{
    match judge(alloc, p, &run.state, enabled, &d)? {
        Finding::Fits => {
            let (after, number) = take_moves(alloc, p, lim, hints, run, enabled, d)?;
            Ok((after, Verdict::Committed { number }))
        }
        Finding::Passed => Ok((run, Verdict::Passed)),
        Finding::Held(by) => Ok((run, Verdict::Held { by, draft: d })),
        Finding::Changed(change) => Ok((
            run,
            Verdict::Changed {
                cell: change.cell,
                read: change.read,
                now: change.now,
            },
        )),
    }
}
