//! Journals as text: printing one and reading one.
ghost use Rattle.std.specs.Prelude.{◌≡◌, ◌≢◌, ◌⊎◌, ◌≤◌, ◌+◌, ◌^◌, List, ℕ, Some, ◌++◌, length, map, IfOk, IfSome, IsNone, OnOk, IsErrOf, MatchResult};
ghost use Rattle.std.specs.List.{AllByRecursion, flat_map};
ghost use Rattle.seg_journal.specs.declared.text.JournalFail.TheVariants.{OutOfMemory};
ghost use Rattle.seg_journal.specs.declared.moves.Move.{Move};
ghost use Rattle.twe_base.specs.Limits.{Bounds};
ghost use Rattle.seg_journal.specs.Spelling.{Spells, head_line, head_part, head_lines, move_line, move_of, HasTask, AreLimits};
ghost use Rattle.seg_journal.specs.Lines.{IsFirstBadLine};
ghost use Rattle.seg_journal.specs.Fail.{IsOutOfMemory};
ghost use Rattle.seg_journal.specs.inner.Stops.{StopsAt};

use crate::line::{head_at, move_at, push_head, push_move};
use crate::{Entry, Journal, Limits, Moves};
use std::alloc::Global;
use twe_base::{Bytes, Memory};

/// A journal as its text states it.
#[derive(Debug, Drop)]
pub struct JournalText {
    /// The limits of the run, if the text has a head.
    pub head: Option<Limits>,
    /// The moves in order.
    pub moves: Moves,
}

/// Why a text was not read as a journal.
#[derive(Clone, Copy, Debug, PartialEq, Eq)]
pub enum JournalFail {
    /// The line of this number, counted from 1, is the first that is neither a head in line 1 nor a move.
    BadLine(u64),
    /// There was not enough memory.
    OutOfMemory(Memory),
}

impl From<Memory> for JournalFail {
    ghost from_gives = { λ memory fail. fail ≡ OutOfMemory memory };

    fn from(memory: Memory) -> Self {
        JournalFail::OutOfMemory(memory)
    }
}

/// The text of a journal: a head with the limits, and a line for the move of each entry.
pub fn print_journal(alloc: Global, journal: &Journal, limits: Limits) -> Result<Bytes, Memory>
    ensures { IfOk result (λ text. Spells text (Some limits) (map move_of journal.now)) }
{
    let mut text = Bytes::new(alloc);
    push_head(&mut text, limits)?;
    push_moves(&mut text, journal.as_slice())?;
    Ok(text)
}

/// Appends the line of the move of each entry to a text.
fn push_moves(text: &mut Bytes, entries: &[Entry]) -> Result<(), Memory>
    ensures written { OnOk result (text.new ≡ text.old ++ flat_map move_line (map move_of entries.now)) }
    ensures tasks { OnOk result (AllByRecursion HasTask (map move_of entries.now)) }
{
    for entry in entries {
        push_move(text, entry.mv)?;
    }
    Ok(())
}

/// Reads a journal. Returns the limits, if the text has a head, and the moves. If the text is not that of a journal,
/// returns the number of its first bad line.
pub fn read_journal(alloc: Global, text: &[u8]) -> Result<JournalText, JournalFail>
    // The text is that of the journal that is returned.
    ensures spelled { IfOk result (λ found. Spells text.now found.head found.moves) }

    // The text of a journal is read as that journal, unless memory runs out.
    ensures only { (head : _) (moves : List Move) → Spells text.now head moves → MatchResult result
        (λ found. (found.head ≡ head) × (found.moves ≡ moves)) IsOutOfMemory }

    // `BadLine` has the number of the first bad line. If there is a bad line, that is the result, unless memory runs out.
    ensures bad_line { (n : ℕ) → IsErrOf result (JournalFail.BadLine n) → IsFirstBadLine text.now n }
    ensures first_bad { (n : ℕ) → IsFirstBadLine text.now n
        → MatchResult result (λ _. ⊥) (λ fail. (fail ≡ JournalFail.BadLine n) ⊎ IsOutOfMemory fail) }
{
    read_lines(alloc, text)
}

/// Reads a journal, or finds its first bad line.
fn read_lines(alloc: Global, text: &[u8]) -> Result<JournalText, JournalFail>
    ensures spelled { IfOk result (λ found. Spells text.now found.head found.moves) }
    ensures bad_line { (n : ℕ) → IsErrOf result (JournalFail.BadLine n) → IsFirstBadLine text.now n }
{
    let (head, first, rest) = split_head(text);
    let moves = read_moves(alloc, rest, first)?;
    Ok(JournalText { head, moves })
}

/// The limits of a text, if it has a head, then the number of the first line after the head, and the text from there on.
fn split_head(text: &[u8]) -> (Option<Limits>, u64, &[u8])
    ensures split { text.now ≡ head_part result.0 ++ result.2.now }
    ensures limits { IfSome result.0 AreLimits }
    ensures headless { IsNone result.0 → (limits : Bounds) (rest : List ℕ) → AreLimits limits
        → text.now ≢ head_line limits ++ rest }
    ensures counted { result.1 ≡ length (head_lines result.0) + 1 }
    ensures fits { result.1 + length result.2.now ≤ length text.now + 1 }
{
    match head_at(text) {
        Some((limits, rest)) => (Some(limits), 2, rest),
        None => (None, 1, text),
    }
}

/// Reads the moves of a text whose first line has the number `first`.
fn read_moves(alloc: Global, text: &[u8], first: u64) -> Result<Moves, JournalFail>
    requires { first + length text.now ≤ 2 ^ 64 }
    ensures spelled { IfOk result (λ moves. (text.now ≡ flat_map move_line moves) × AllByRecursion HasTask moves) }
    ensures bad_line { (n : ℕ) → IsErrOf result (JournalFail.BadLine n) → StopsAt text.now first n }
{
    let mut moves = Moves::new(alloc);
    let mut rest = text;
    while !rest.is_empty() {
        let Some((mv, after)) = move_at(rest) else {
            return Err(JournalFail::BadLine(first + moves.len() as u64));
        };
        moves.push(mv)?;
        rest = after;
    }
    Ok(moves)
}
