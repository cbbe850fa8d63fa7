//! The lines of a journal: reading one at the start of a text, and writing one at the end of a text.
ghost use Rattle.std.specs.Prelude.{◌≡◌, List, ℕ, ◌++◌, decimal, IfSome, IsSomeAnd, OnOk};
ghost use Rattle.twe_base.specs.Limits.{Bounds};
ghost use Rattle.seg_journal.specs.Spelling.{kind_word, move_line, head_line, tasks_part, HasTask, AreLimits};
ghost use Rattle.seg_journal.specs.declared.moves.Kind.{Kind};
ghost use Rattle.seg_journal.specs.declared.moves.Move.{Move};

use crate::number::number_before;
use crate::{Kind, Limits, Move};
use itoa::Buffer;
use twe_base::{Bytes, Memory};

/// The move whose line begins a text, and the rest of the text; none if no such line does.
pub(crate) fn move_at(text: &[u8]) -> Option<(Move, &[u8])>
    ensures found { IfSome result (λ x. HasTask x.0 × (text.now ≡ move_line x.0 ++ x.1.now)) }
    ensures only { (mv : Move) (rest : List ℕ) → HasTask mv → text.now ≡ move_line mv ++ rest
        → IsSomeAnd result (λ x. (x.0 ≡ mv) × (x.1.now ≡ rest)) }
{
    let (kind, rest) = kind_at(text)?;
    let (task, rest) = number_before(rest, b'\n', u64::from(u32::MAX))?;
    let task = task as u32;
    Some((Move { kind, task }, rest))
}

/// The kind whose word begins a text, and the rest of the text; none if no such word does.
fn kind_at(text: &[u8]) -> Option<(Kind, &[u8])>
    ensures found { IfSome result (λ x. text.now ≡ kind_word x.0 ++ x.1.now) }
    ensures only { (kind : Kind) (rest : List ℕ) → text.now ≡ kind_word kind ++ rest
        → IsSomeAnd result (λ x. (x.0 ≡ kind) × (x.1.now ≡ rest)) }
{
    if let Some(rest) = rest_after(text, word_of(Kind::Admit)) {
        return Some((Kind::Admit, rest));
    }
    let rest = rest_after(text, word_of(Kind::Run))?;
    Some((Kind::Run, rest))
}

/// The limits whose line begins a text, and the rest of the text; none if no such line does.
pub(crate) fn head_at(text: &[u8]) -> Option<(Limits, &[u8])>
    ensures found { IfSome result (λ x. AreLimits x.0 × (text.now ≡ head_line x.0 ++ x.1.now)) }
    ensures only { (limits : Bounds) (rest : List ℕ) → AreLimits limits → text.now ≡ head_line limits ++ rest
        → IsSomeAnd result (λ x. (x.0 ≡ limits) × (x.1.now ≡ rest)) }
{
    let rest = rest_after(text, b"twe-journal 2 fuel ")?;
    let (fuel, rest) = number_before(rest, b' ', Limits::MAX_FUEL)?;
    let rest = rest_after(rest, b"tasks ")?;
    let (tasks, rest) = number_before(rest, b'\n', u64::from(Limits::MAX_TASKS))?;
    let limits = Limits::checked(fuel, tasks as u32)?;
    Some((limits, rest))
}

/// The rest of a text that begins with a word; none if it does not.
fn rest_after<'a>(text: &'a [u8], word: &[u8]) -> Option<&'a [u8]>
    ensures found { IfSome result (λ rest. text.now ≡ word.now ++ rest.now) }
    ensures only { (rest : List ℕ) → text.now ≡ word.now ++ rest → IsSomeAnd result (λ found. found.now ≡ rest) }
{
    text.strip_prefix(word)
}

/// The word of a kind, with the blank that follows it.
pub fn word_of(kind: Kind) -> &'static [u8]
    ensures { result.now ≡ kind_word kind }
{
    match kind {
        Kind::Admit => b"admit ",
        Kind::Run => b"run ",
    }
}

/// Appends the line of a move to a text.
pub(crate) fn push_move(text: &mut Bytes, mv: Move) -> Result<(), Memory>
    ensures written { OnOk result (text.new ≡ text.old ++ move_line mv) }
    ensures task { HasTask mv }
{
    text.push_all(word_of(mv.kind))?;
    push_number(text, u64::from(mv.task))?;
    text.push(b'\n')
}

/// Appends the line of the limits to a text.
pub(crate) fn push_head(text: &mut Bytes, limits: Limits) -> Result<(), Memory>
    ensures { OnOk result (text.new ≡ text.old ++ head_line limits) }
{
    text.push_all(b"twe-journal 2 fuel ")?;
    push_number(text, limits.fuel)?;
    push_tasks(text, limits.tasks)
}

/// Appends the part of the head that has the number of tasks to a text.
fn push_tasks(text: &mut Bytes, tasks: u32) -> Result<(), Memory>
    ensures { OnOk result (text.new ≡ text.old ++ tasks_part tasks) }
{
    text.push_all(b" tasks ")?;
    push_number(text, u64::from(tasks))?;
    text.push(b'\n')
}

/// Appends a number to a text.
fn push_number(text: &mut Bytes, number: u64) -> Result<(), Memory>
    ensures { OnOk result (text.new ≡ text.old ++ decimal number) }
{
    let mut buffer = Buffer::new();
    text.push_all(buffer.format(number).as_bytes())
}
