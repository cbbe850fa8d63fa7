//! What the words of the floor mean.
ghost use Rattle.std.specs.Prelude.{◌≡◌, ◌<◌, ◌^◌, IsFalse, IsTrue};
ghost use Rattle.floor_laws.specs.table.Layout.{value_of_word, word_of_phase};
ghost use Rattle.floor_laws.specs.table.nodes.Layout.{decider_at, left_lock, no_decider};

use floor_laws::rule::Phase;
use floor_laws::table::nodes::NodeContent;

/// The phase that a word stands for.
pub(crate) fn phase_of(word: u64) -> Phase
    requires { word < 2 ^ 32 }
    ensures { word ≡ word_of_phase result }
{
    match word {
        0 => Phase::Absent,
        1 => Phase::Made,
        2 => Phase::Running,
        3 => Phase::Done,
        4 => Phase::Faulted,
        waits => Phase::Waits {
            on: (waits - 5) as u32,
        },
    }
}

/// The word that stands for a phase.
pub(crate) fn word_of(phase: Phase) -> u64
    ensures { result ≡ word_of_phase phase }
{
    match phase {
        Phase::Absent => 0,
        Phase::Made => 1,
        Phase::Running => 2,
        Phase::Done => 3,
        Phase::Faulted => 4,
        Phase::Waits { on } => on as u64 + 5,
    }
}

/// The lock word of a node that nobody has locked, and at which these records lie.
pub(crate) fn word_left(content: &NodeContent) -> u64
    ensures { result ≡ left_lock content.now }
{
    if content.len() == 0 { 1 } else { 0 }
}

/// The decider word of a task that decides at this node, or at none.
pub(crate) fn decider_word(node: u32, decides: bool) -> u64
    ensures here { IsTrue decides → result ≡ decider_at node }
    ensures nowhere { IsFalse decides → result ≡ no_decider }
{
    if decides { node as u64 + 1 } else { 0 }
}

/// The value of a cell that has this word.
pub(crate) fn value_of(word: u64) -> i32
    requires { word < 2 ^ 32 }
    ensures { result ≡ value_of_word word }
{
    (word as i64 - 2_147_483_648) as i32
}

/// The word of a cell that has this value.
pub(crate) fn word_of_value(value: i32) -> u64
    ensures { (result < 2 ^ 32) × (value_of_word result ≡ value) }
{
    (value as i64 + 2_147_483_648) as u64
}
