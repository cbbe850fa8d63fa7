//! The answer to the moves of a journal.
ghost use Rattle.std.specs.Prelude.{◌≡◌, ℕ, IfOk, IsErrOf, length};
ghost use Rattle.span_profile.specs.Totals.{CanBeSummed};
ghost use Rattle.machine_state.specs.declared.why.Why.{Why};
ghost use Rattle.machine_state.specs.declared.replay_fail.ReplayFail.TheVariants.{Illegal};
ghost use Rattle.machine_state.specs.Replays.{IsFirstIllegal};
ghost use Rattle.twe_advise.specs.Answers.{AdviceGiven};
ghost use Rattle.twe_advise.specs.inner.Given.{AdvisedBy};

use crate::forms::advice_text;
use crate::paces::{paces_of, worker_counts};
use crate::request::AdviceRequest;
use held_span::{HeldPair, HeldProfile, held_pairs, held_profile};
use machine_state::ReplayFail;
use seg_journal::{Limits, Move};
use span_profile::{Advice, advise};
use std::alloc::Global;
use twe_base::Memory;
use twe_io::{Answer, Status};
use twe_program::Prog;

/// What the run of these moves could gain, or the number of the first that is not legal, counted from 1.
pub(crate) fn advice_answer(
    alloc: Global,
    request: &AdviceRequest,
    p: &Prog,
    lim: Limits,
    moves: &[Move],
) -> Result<Answer, ReplayFail>
    ensures given { IfOk result (AdviceGiven request.now.wanted request.now.items p.now lim moves.now) }
    ensures illegal { (n : ℕ) (why : Why) → IsErrOf result (Illegal n why) → IsFirstIllegal p.now lim moves.now n why }
{
    let advice = advise(alloc, p, lim, moves)?;
    let held = held_profile(alloc, p, lim, moves)?;
    let pairs = held_pairs(alloc, advice.tasks.as_slice(), held.holds.as_slice())?;
    let answer = advised_answer(alloc, request, p, &advice, &held, pairs.as_slice())?;
    Ok(answer)
}

/// The answer that has this advice, with the times of the paced timetables.
fn advised_answer(
    alloc: Global,
    request: &AdviceRequest,
    p: &Prog,
    advice: &Advice,
    held: &HeldProfile,
    pairs: &[HeldPair],
) -> Result<Answer, Memory>
    requires few { CanBeSummed advice.now.works }
    requires both { length advice.now.profile.ends ≡ length advice.now.profile.starts }
    requires with_admissions { length held.now.ends ≡ length held.now.starts }
    ensures { IfOk result (AdvisedBy request.now.wanted request.now.items p.now advice.now held.now pairs.now) }
{
    let items = request.items.as_slice();
    let counts = worker_counts(alloc, request.wanted.workers)?;
    let paces = paces_of(alloc, &advice.profile, held, counts.as_slice())?;
    let paces = paces.as_slice();
    let text = advice_text(
        alloc,
        request.wanted.form,
        p,
        advice,
        items,
        held,
        pairs,
        paces,
    )?;
    Ok(Answer::on_out(alloc, Status::Done, text))
}
