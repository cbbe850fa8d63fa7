//! The answer to the moves of a journal.
ghost use Rattle.std.specs.Prelude.{◌≡◌, ℕ, IfOk, IsErrOf};
ghost use Rattle.machine_state.specs.declared.why.Why.{Why};
ghost use Rattle.machine_state.specs.declared.replay_fail.ReplayFail.TheVariants.{Illegal};
ghost use Rattle.machine_state.specs.Replays.{IsFirstIllegal};
ghost use Rattle.twe_profile.specs.Answers.{ProfileGiven};

use crate::text::profile_text;
use machine_state::ReplayFail;
use seg_journal::{Limits, Move};
use span_profile::profile;
use std::alloc::Global;
use twe_io::{Answer, Status};
use twe_program::Prog;

/// The profile of these moves, or the number of the first that is not legal, counted from 1.
pub(crate) fn profile_answer(
    alloc: Global,
    p: &Prog,
    lim: Limits,
    moves: &[Move],
) -> Result<Answer, ReplayFail>
    ensures given { IfOk result (ProfileGiven p.now lim moves.now) }
    ensures illegal { (n : ℕ) (why : Why) → IsErrOf result (Illegal n why) → IsFirstIllegal p.now lim moves.now n why }
{
    let found = profile(alloc, p, lim, moves)?;
    let text = profile_text(alloc, &found)?;
    Ok(Answer::on_out(alloc, Status::Done, text))
}
