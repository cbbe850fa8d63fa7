//! What the tasks of a run took, one by one and by their declarations.
ghost use Rattle.std.specs.Prelude.{◌≡◌, ◌<◌, ◌+◌, ◌==◌, ◌^◌, ℕ, length, slice_index, if◌then◌else◌, IfOk};
ghost use Rattle.span_profile.specs.Totals.{CanBeSummed, entries_of, total_of, with_work, works_from};

use machine_state::TaskRow;
use seg_journal::Entry;
use std::alloc::Global;
use twe_base::{List, Memory};

/// What a task took.
#[derive(Clone, Copy, Debug, PartialEq, Eq)]
pub struct TaskWork {
    /// The number of its declaration.
    pub decl: u32,
    /// 1 for each of its entries, and 1 for each unit of fuel that it has taken.
    pub work: u64,
}

/// What the tasks of a declaration took.
#[derive(Clone, Copy, Debug, PartialEq, Eq)]
pub struct TaskTotal {
    /// How many were made.
    pub made: u64,
    /// Their work.
    pub work: u64,
    /// The work of the heaviest of them.
    pub heaviest: u64,
}

/// Counts an entry at the number of its task, unless there are fewer numbers.
fn count_entry(counts: &mut List<u64>, task: u32)
    requires { (t : ℕ) → slice_index counts.old t < 2 ^ 63 }
    ensures length { length counts.new ≡ length counts.old }
    ensures same { (t : ℕ) → t < length counts.old
        → slice_index counts.new t ≡ slice_index counts.old t + (if task == t then 1 else 0) }
{
    let at = task as usize;
    if at < counts.len() {
        let count = counts.as_slice()[at] + 1;
        counts.set(at, count);
    }
}

/// For each of so many tasks, how many entries of a journal are of it.
fn entry_counts(alloc: Global, journal: &[Entry], tasks: usize) -> Result<List<u64>, Memory>
    ensures length { IfOk result (λ counts. length counts ≡ tasks) }
    ensures same { IfOk result (λ counts. (t : ℕ) → t < tasks → slice_index counts t ≡ entries_of t journal.now) }
{
    let mut counts = List::from(vec![in alloc; 0u64; tasks]?);
    for entry in journal {
        count_entry(&mut counts, entry.mv.task);
    }
    Ok(counts)
}

/// What each task took, if it had this much fuel and the journal leads to a state in which the tasks have these rows.
pub(crate) fn task_works(
    alloc: Global,
    fuel: u64,
    journal: &[Entry],
    rows: &[TaskRow],
) -> Result<List<TaskWork>, Memory>
    requires little { fuel < 2 ^ 32 }
    requires short { length journal.now < 2 ^ 45 }
    ensures { IfOk result (λ works. works ≡ works_from fuel journal.now 0 rows.now) }
{
    let counts = entry_counts(alloc, journal, rows.len())?;
    let mut works = List::new(alloc);
    for (task, row) in rows.iter().enumerate() {
        let taken = fuel.saturating_sub(row.frame.fuel);
        let work = counts.as_slice()[task] + taken;
        works.push(TaskWork {
            decl: row.decl,
            work,
        })?;
    }
    Ok(works)
}

/// The total with one task more, if it is of the declaration.
fn with_work(total: TaskTotal, task: &TaskWork, decl: usize) -> TaskTotal
    requires made { total.made < 2 ^ 63 }
    requires work { total.work + task.now.work < 2 ^ 64 }
    ensures { result ≡ with_work (task.now.decl == decl) total task.now }
{
    if task.decl as usize == decl {
        TaskTotal {
            made: total.made + 1,
            work: total.work + task.work,
            heaviest: total.heaviest.max(task.work),
        }
    } else {
        total
    }
}

/// What the tasks of a declaration took.
pub fn total_of(works: &[TaskWork], decl: usize) -> TaskTotal
    requires { CanBeSummed works.now }
    ensures { result ≡ total_of decl works.now }
{
    let mut total = TaskTotal {
        made: 0,
        work: 0,
        heaviest: 0,
    };
    for task in works {
        total = with_work(total, task, decl);
    }
    total
}
