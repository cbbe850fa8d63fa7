//! The part of a journal that counts, up to the first fault, and the numbers that it prints; the lines of a journal text.
ghost use Rattle.std.specs.Prelude.{◌≡◌, ◌+◌, ◌≤◌, length, IfOk};
ghost use Rattle.seg_journal.specs.Spelling.{head_lines};
ghost use Rattle.machine_state.specs.Runs.{Legal, counted, state_after};

use machine_state::ReplayFail;
use seg_journal::{End, Entry, Move, moves_of};
use std::alloc::Global;
use twe_base::{Ints, Limits, Memory};
use twe_machine::replay;
use twe_program::Prog;

/// The number of entries up to the first fault, the fault's entry counted, or of all entries if there is none.
pub(crate) fn counted_length(entries: &[Entry]) -> usize
    ensures { result ≡ length (counted entries.now) }
{
    for (i, entry) in entries.iter().enumerate() {
        if matches!(entry.end, End::Fault { .. }) {
            return i + 1;
        }
    }
    entries.len()
}

/// The numbers that the entries of a legal journal print. Their moves are taken again for it.
pub(crate) fn prints_of(
    alloc: Global,
    p: &Prog,
    lim: Limits,
    entries: &[Entry],
) -> Result<Ints, Memory>
    requires { Legal p.now lim entries.now }
    ensures { IfOk result (λ prints. prints ≡ (state_after p.now lim entries.now).prints) }
{
    let moves = moves_of(alloc, entries)?;
    match replay(alloc, p, lim, moves.as_slice()) {
        Ok(st) => st.prints.copy(alloc),
        Err(ReplayFail::Illegal { .. }) => unreachable!(),
        Err(ReplayFail::OutOfMemory(memory)) => Err(memory),
    }
}

/// The line of move `n` in a journal text with these moves, both counted from 1.
pub fn line_of(head: Option<Limits>, n: u64, moves: &[Move]) -> u64
    requires { n ≤ length moves.now }
    ensures { result ≡ length (head_lines head) + n }
{
    let _lines = moves.len() + 1;
    match head {
        None => n,
        Some(_) => n + 1,
    }
}
