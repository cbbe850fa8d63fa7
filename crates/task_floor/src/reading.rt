//! The parts of a state that the words of a closed floor and its tasks show.
ghost use Rattle.std.specs.Prelude.{◌≡◌, ◌<◌, ◌≤◌, ◌+◌, ◌*◌, ◌^◌, ℕ, length, IfOk};
ghost use Rattle.core.specs.Mem.Slots.{IsFull, slots_items, slots_len};
ghost use lib.ListN.{get_elem?};
ghost use Rattle.floor_laws.specs.rule.Shown.{first_fault_in, row_by, status_by, value_by};
ghost use Rattle.floor_laws.specs.table.Layout.{cell_place, cell_words_from, cache_line, number_at, phase_of_word, task_span};
ghost use Rattle.task_floor.specs.steps.inner.Reading.{joined_unless, rows_from};

use crate::floor::{CACHE_LINE, TASK_SPAN};
use crate::unjoined::mark;
use crate::words::value_of;
use atomic_table::Closed;
use floor_laws::rule::TaskSlot;
use floor_laws::table::KeptSlot;
use floor_laws::table::nodes::TreeSlot;
use machine_state::{FirstFault, TaskRow, TaskStatus};
use seg_journal::{End, Entry};
use std::alloc::Global;
use twe_base::{Ints, List, Memory};

/// The values of this many cells, whose words are in a closed table.
pub(crate) fn cells_of(
    alloc: Global,
    table: &Closed<TreeSlot, Global>,
    count: usize,
) -> Result<Ints, Memory>
    requires full { IsFull table.now.words }
    requires within { cache_line + cache_line * count ≤ slots_len table.now.words }
    requires small { (c : ℕ) → c < count → number_at (get_elem? (slots_items table.now.words) (cell_place c)) < 2 ^ 32 }
    ensures { IfOk result (λ cells. cells ≡ cell_words_from (slots_items table.now.words) cache_line count) }
{
    let mut cells = Ints::with_capacity(alloc, count)?;
    for c in 0..count {
        cells.push(value_of(table.word(CACHE_LINE + CACHE_LINE * c)))?;
    }
    Ok(cells)
}

/// The rows of these tasks, whose words are in a closed table. Those of task 0 lie from `first` on. Whether a task is an unjoined
/// child is told by the tasks before it, since its parent is one of these.
pub(crate) fn rows_of(
    alloc: Global,
    table: &Closed<TreeSlot, Global>,
    first: usize,
    tasks: List<KeptSlot>,
) -> Result<List<TaskRow>, Memory>
    requires full { IsFull table.now.words }
    requires within { first + task_span * length tasks ≤ slots_len table.now.words }
    ensures { IfOk result (λ rows. rows ≡ rows_from (slots_items table.now.words) first tasks 0 tasks) }
{
    let mut marks = List::from(vec![in alloc; false; tasks.len()]?);
    let mut rows = Vec::with_capacity(alloc, tasks.len())?;
    for task in tasks.into_vec() {
        let t = rows.len();
        let word = table.word(first + TASK_SPAN * t + 1);
        let unjoined = marks.as_slice()[t];
        mark(&mut marks, task.slot.frame.out.as_slice());
        let out = List::from_slice(alloc, task.slot.frame.out.as_slice())?;
        rows.reserve(1)?;
        rows.push_reserved(row_of(task.into_slot(), out, word, unjoined));
    }
    Ok(List::from(rows))
}

/// Whether a task with this parent was joined.
fn is_joined(parent: Option<u32>, unjoined: bool) -> bool
    ensures { result ≡ joined_unless parent unjoined }
{
    match parent {
        None => false,
        Some(_) => !unjoined,
    }
}

/// The row of a task with this slot, these unjoined children and this phase word. Some task has it as an unjoined child, or none.
fn row_of(slot: TaskSlot, out: List<u32>, word: u64, unjoined: bool) -> TaskRow
    requires { out ≡ slot.frame.out.items }
    ensures { result ≡ row_by slot (phase_of_word word) (joined_unless slot.parent unjoined) }
{
    let TaskSlot {
        frame,
        decl,
        args,
        effects,
        parent,
    } = slot;
    let value = value_in(word, frame.value);
    TaskRow {
        decl,
        args,
        effects,
        frame,
        parent,
        joined: is_joined(parent, unjoined),
        out,
        status: status_in(word),
        value,
    }
}

/// The status of a task with this phase word.
fn status_in(word: u64) -> TaskStatus
    ensures { result ≡ status_by (phase_of_word word) }
{
    match word {
        0 | 1 => TaskStatus::Made,
        3 => TaskStatus::Done,
        4 => TaskStatus::Faulted,
        _ => TaskStatus::Enabled,
    }
}

/// The value of a task with this phase word, whose frame has this value.
fn value_in(word: u64, value: i32) -> i32
    ensures { result ≡ value_by (phase_of_word word) value }
{
    if word == 3 { value } else { 0 }
}

/// The first fault of a journal.
pub(crate) fn first_fault_in(journal: &[Entry]) -> Option<FirstFault>
    ensures { result ≡ first_fault_in journal.now }
{
    for entry in journal {
        if let End::Fault { kind, place } = entry.end {
            let task = entry.mv.task;
            return Some(FirstFault { task, kind, place });
        }
    }
    None
}
