//! Which tasks a picture shows.
ghost use Rattle.std.specs.Prelude.{◌≡◌, ◌<◌, ◌-◌, ◌^◌, ℕ, IfOk, Some, length, slice_get, slice_index};
ghost use Rattle.twe_draw.specs.picture.Bars.{bar_length};
ghost use Rattle.twe_draw.specs.Shown.{AreShownTasks, chain_flags, row_at, with_flag, with_entry_work, works_of};

use crate::picture::{EntryBar, choose_rows};
use machine_state::TaskRow;
use std::alloc::Global;
use twe_base::{List, Memory};

/// How many tasks have a row at most, if no more are of the heaviest chain.
const MOST_ROWS: usize = 200;

/// The row of a task, if it has one.
pub(crate) fn row_at(rows: &[Option<u64>], task: u32) -> Option<u64>
    ensures { result ≡ row_at rows.now task }
{
    match rows.get(task as usize) {
        None => None,
        Some(row) => *row,
    }
}

/// How long a bar is.
fn bar_length(bar: &EntryBar) -> u64
    ensures { result ≡ bar_length bar.now }
{
    bar.ends.saturating_sub(bar.begins)
}

/// Adds the work of an entry to that of its task, unless there are fewer tasks.
fn add_work(works: &mut List<u128>, bar: &EntryBar)
    requires { (task : ℕ) → slice_index works.old task < 2 ^ 128 - 2 ^ 64 }
    ensures same { works.new ≡ with_entry_work works.old bar.now }
    ensures length { length works.new ≡ length works.old }
    ensures fits { bar_length bar.now < 2 ^ 64 }
{
    let task = bar.task as usize;
    let length = bar_length(bar);
    if task < works.len() {
        let work = works.as_slice()[task] + u128::from(length);
        works.set(task, work);
    }
}

/// The work of each of so many tasks.
fn works_of(alloc: Global, tasks: usize, bars: &[EntryBar]) -> Result<List<u128>, Memory>
    ensures same { IfOk result (λ works. works ≡ works_of tasks bars.now) }
    ensures length { IfOk result (λ works. length works ≡ tasks) }
{
    let mut works = List::from(vec![in alloc; 0u128; tasks]?);
    for bar in bars {
        add_work(&mut works, bar);
    }
    Ok(works)
}

/// Sets the flag of the task of an entry, unless there are fewer tasks.
fn flag_task(flags: &mut List<bool>, bar: &EntryBar)
    ensures same { flags.new ≡ with_flag flags.old (Some bar.now) }
    ensures length { length flags.new ≡ length flags.old }
{
    let task = bar.task as usize;
    if task < flags.len() {
        flags.set(task, true);
    }
}

/// Sets the flag of the task of the entry of this number.
fn flag_entry(flags: &mut List<bool>, bars: &[EntryBar], number: u64)
    ensures same { flags.new ≡ with_flag flags.old (slice_get bars.now number) }
    ensures length { length flags.new ≡ length flags.old }
{
    match bars.get(number as usize) {
        None => {}
        Some(bar) => flag_task(flags, bar),
    }
}

/// Whether each of so many tasks has an entry of the chain.
fn chain_flags(
    alloc: Global,
    tasks: usize,
    chain: &[u64],
    bars: &[EntryBar],
) -> Result<List<bool>, Memory>
    ensures same { IfOk result (λ flags. flags ≡ chain_flags tasks chain.now bars.now) }
    ensures length { IfOk result (λ flags. length flags ≡ tasks) }
{
    let mut flags = List::from(vec![in alloc; false; tasks]?);
    for number in chain {
        flag_entry(&mut flags, bars, *number);
    }
    Ok(flags)
}

/// The tasks that are shown.
pub(crate) fn shown_tasks(
    alloc: Global,
    chain: &[u64],
    bars: &[EntryBar],
    tasks: &[TaskRow],
) -> Result<List<bool>, Memory>
    ensures { IfOk result (AreShownTasks chain.now bars.now tasks.now) }
{
    let works = works_of(alloc, tasks.len(), bars)?;
    let flags = chain_flags(alloc, tasks.len(), chain, bars)?;
    choose_rows(alloc, MOST_ROWS, works.as_slice(), flags.as_slice())
}
