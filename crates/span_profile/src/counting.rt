//! The part of a journal that counts: up to its first fault.
ghost use Rattle.std.specs.Prelude.{◌≡◌, length, ℕ, IfOk, IsErrOf};
ghost use Rattle.machine_state.specs.Runs.{counted, is_fault};
ghost use Rattle.machine_state.specs.Replays.{IsFirstIllegal};
ghost use Rattle.machine_state.specs.declared.why.Why.{Why as Reason};
ghost use Rattle.machine_state.specs.declared.replay_fail.ReplayFail.TheVariants.{Illegal};
ghost use Rattle.span_profile.specs.Advice.{IsCountedRun};

use machine_state::{ReplayFail, State};
use seg_journal::{End, Entry, Journal, Limits, Move};
use std::alloc::Global;
use twe_machine::replay_journal;
use twe_program::Prog;

/// Whether a move with this end met a fault.
pub fn is_fault(end: End) -> bool
    ensures { result ≡ is_fault end }
{
    matches!(end, End::Fault { .. })
}

/// How many entries of a journal count.
fn counted_entries(journal: &[Entry]) -> usize
    ensures { result ≡ length (counted journal.now) }
{
    for (i, entry) in journal.iter().enumerate() {
        if is_fault(entry.end) {
            return i + 1;
        }
    }
    journal.len()
}

/// The counted part of the journal that has these moves, and the state that it leads to. If the moves are not all legal, it
/// returns the number of the first that is not, counted from 1, and why it is not.
pub fn counted_run(
    alloc: Global,
    p: &Prog,
    lim: Limits,
    moves: &[Move],
) -> Result<(Journal, State), ReplayFail>
    ensures counted { IfOk result (λ run. IsCountedRun p.now lim moves.now run.0 run.1) }
    ensures illegal { (n : ℕ) (why : Reason) → IsErrOf result (Illegal n why) → IsFirstIllegal p.now lim moves.now n why }
{
    let (journal, st) = replay_journal(alloc, p, lim, moves)?;
    let count = counted_entries(journal.as_slice());
    if count == moves.len() {
        return Ok((journal, st));
    }
    replay_journal(alloc, p, lim, &moves[..count])
}
