//! The words of a floor that starts from a state, and what the slot of a task holds then.
ghost use Rattle.std.specs.Prelude.{◌≡◌, ◌<◌, ◌≤◌, ◌-◌, ◌^◌, ◌++◌, ℕ, List, length, IfOk, OnOk};
ghost use Rattle.floor_laws.specs.rule.Rows.{slot_of};
ghost use Rattle.task_floor.specs.steps.inner.Laying.{AreWordsOf, head_words, in_lines, made_words, unmade_words};

use crate::clock::clock_of;
use crate::row_phase::phase_of;
use crate::words::{word_of, word_of_value};
use floor_laws::rule::TaskSlot;
use machine_state::{State, TaskRow};
use std::alloc::Global;
use twe_base::{List, Memory};

/// The words that show a state after this many entries, if so many tasks may be made. They lie in memory that has room for
/// `room` words.
pub(crate) fn words_of(
    alloc: Global,
    st: &State,
    tasks: u32,
    entries: usize,
    room: usize,
) -> Result<List<u64>, Memory>
    requires clock { (st.now.asked < 2 ^ 19) × (entries < 2 ^ 45) }
    requires tasks { length st.now.tasks ≤ tasks }
    ensures { IfOk result (λ words. (cells : List ℕ) × AreWordsOf st.now.cells cells
        × (words ≡ head_words st.now.asked entries
        ++ (in_lines cells ++ (made_words st.now.tasks ++ unmade_words (tasks - length st.now.tasks))))) }
{
    let mut words = List::with_capacity(alloc, room)?;
    add_head(&mut words, st.asked, entries)?;
    add_cells(&mut words, st.cells.as_slice())?;
    add_made(&mut words, st.tasks.as_slice())?;
    add_unmade(&mut words, tasks - st.tasks.len() as u32)?;
    Ok(words)
}

/// Adds the clock, and the words up to the first cell.
fn add_head(words: &mut List<u64>, asked: u32, entries: usize) -> Result<(), Memory>
    requires { (asked < 2 ^ 19) × (entries < 2 ^ 45) }
    ensures { OnOk result (words.new ≡ words.old ++ head_words asked entries) }
{
    words.push_all(&[clock_of(asked, entries), 0, 0, 0, 0, 0, 0, 0])
}

/// Adds the words of cells, each in a line of its own.
fn add_cells(words: &mut List<u64>, cells: &[i32]) -> Result<(), Memory>
    ensures { OnOk result ((more : List ℕ) × AreWordsOf cells.now more × (words.new ≡ words.old ++ in_lines more)) }
{
    for value in cells {
        words.push_all(&[word_of_value(*value), 0, 0, 0, 0, 0, 0, 0])?;
    }
    Ok(())
}

/// Adds the words of tasks that were made: their turns are free.
fn add_made(words: &mut List<u64>, tasks: &[TaskRow]) -> Result<(), Memory>
    ensures { OnOk result (words.new ≡ words.old ++ made_words tasks.now) }
{
    for row in tasks {
        words.push_all(&[0, word_of(phase_of(row)), 0, 0, 0, 0, 0, 0, 0])?;
    }
    Ok(())
}

/// Adds the words of this many tasks that are not made.
fn add_unmade(words: &mut List<u64>, count: u32) -> Result<(), Memory>
    ensures { OnOk result (words.new ≡ words.old ++ unmade_words count) }
{
    for i in 0..count {
        words.push_all(&[1, 0, 0, 0, 0, 0, 0, 0, 0])?;
    }
    Ok(())
}

/// What the slot of a task with this row holds.
pub(crate) fn slot_of(row: TaskRow) -> TaskSlot
    ensures { result ≡ slot_of row }
{
    let TaskRow {
        decl,
        args,
        effects,
        frame,
        parent,
        joined: _,
        out: _out,
        status: _,
        value: _,
    } = row;
    TaskSlot {
        frame,
        decl,
        args,
        effects,
        parent,
    }
}
