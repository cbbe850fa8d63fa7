//! The admissions of a run that were held.
ghost use Rattle.std.specs.Prelude.{◌≡◌, ◌++◌, List as AnyList, Some, IfOk, OnOk, slice_get, unwrap_or};
ghost use Rattle.machine_state.specs.declared.state.TaskRow.{TaskRow};
ghost use Rattle.held_span.specs.Freed.{RunEntry};
ghost use Rattle.held_span.specs.Holds.{AreHolds};
ghost use Rattle.held_span.specs.inner.Noting.{low_at, maker_by};
ghost use Rattle.held_span.specs.inner.Told.{IsFoundHold, IsTold, before_at, done_task, found_list, time_at};

use crate::hold::Hold;
use crate::notes::EntryNotes;
use seg_journal::{End, Entry};
use span_profile::heaviest_chain::Heaviest;
use std::alloc::Global;
use twe_base::{List, Memory};

/// The entry of this number, if there is one.
fn entry_at(journal: &[Entry], number: usize) -> Option<Entry>
    ensures { result ≡ slice_get journal.now number }
{
    match journal.get(number) {
        None => None,
        Some(entry) => Some(*entry),
    }
}

/// The time of the entry of this number.
fn time_at(times: &List<u64>, number: u64) -> u64
    ensures { result ≡ time_at times.now number }
{
    match times.get(number as usize) {
        Some(time) => *time,
        None => 0,
    }
}

/// The entry for which the one of this number waited the longest, if it waited for one.
fn before_at(before: &List<Option<u64>>, number: usize) -> Option<u64>
    ensures { result ≡ before_at before.now number }
{
    match before.get(number) {
        Some(found) => *found,
        None => None,
    }
}

/// The task that the entry of this number has done, if it has done one.
fn done_task(journal: &[Entry], number: u64) -> Option<u32>
    ensures { result ≡ done_task journal.now number }
{
    match journal.get(number as usize) {
        None => None,
        Some(entry) => match entry.end {
            End::Done { .. } => Some(entry.mv.task),
            _ => None,
        },
    }
}

/// The task from which an entry freed the admission that is the entry of this number.
fn holder_of(journal: &[Entry], notes: &EntryNotes, number: usize, freed_by: u64) -> u32
    ensures { result ≡ unwrap_or (done_task journal.now freed_by) (low_at notes.now.lows number) }
{
    let low = notes.low_at(number);
    done_task(journal, freed_by).unwrap_or(low)
}

/// The hold of an admission that began as another entry ended, if that was later than its maker ended.
fn hold_since(
    journal: &[Entry],
    notes: &EntryNotes,
    times: &Heaviest,
    number: usize,
    entry: Entry,
    maker: u64,
    freed_by: u64,
) -> Option<Hold>
    ensures { (rows : AnyList TaskRow) (stages : AnyList RunEntry) → IsTold rows stages journal.now notes.now times.now
        → slice_get journal.now number ≡ Some entry
        → maker_by notes.now.makers entry.mv.kind entry.mv.task ≡ Some maker
        → before_at times.now.before number ≡ Some freed_by
        → IsFoundHold rows stages times.now.starts times.now.ends number result }
{
    let begins = time_at(&times.starts, number as u64);
    let made = time_at(&times.ends, maker);
    if begins <= made {
        return None;
    }
    let holder = holder_of(journal, notes, number, freed_by);
    Some(Hold {
        entry: number as u64,
        task: entry.mv.task,
        holder,
        freed_by,
        time: begins - made,
    })
}

/// The hold of an admission whose task has this maker, if it was held.
fn hold_after(
    journal: &[Entry],
    notes: &EntryNotes,
    times: &Heaviest,
    number: usize,
    entry: Entry,
    maker: u64,
) -> Option<Hold>
    ensures { (rows : AnyList TaskRow) (stages : AnyList RunEntry) → IsTold rows stages journal.now notes.now times.now
        → slice_get journal.now number ≡ Some entry
        → maker_by notes.now.makers entry.mv.kind entry.mv.task ≡ Some maker
        → IsFoundHold rows stages times.now.starts times.now.ends number result }
{
    match before_at(&times.before, number) {
        None => None,
        Some(freed_by) => hold_since(journal, notes, times, number, entry, maker, freed_by),
    }
}

/// The hold of this entry, if it is an admission that was held.
fn hold_of(
    journal: &[Entry],
    notes: &EntryNotes,
    times: &Heaviest,
    number: usize,
    entry: Entry,
) -> Option<Hold>
    ensures { (rows : AnyList TaskRow) (stages : AnyList RunEntry) → IsTold rows stages journal.now notes.now times.now
        → slice_get journal.now number ≡ Some entry
        → IsFoundHold rows stages times.now.starts times.now.ends number result }
{
    match notes.maker_of(entry) {
        None => None,
        Some(maker) => hold_after(journal, notes, times, number, entry, maker),
    }
}

/// The hold of the entry of this number, if it is an admission that was held.
fn hold_at(journal: &[Entry], notes: &EntryNotes, times: &Heaviest, number: usize) -> Option<Hold>
    ensures { (rows : AnyList TaskRow) (stages : AnyList RunEntry) → IsTold rows stages journal.now notes.now times.now
        → IsFoundHold rows stages times.now.starts times.now.ends number result }
{
    match entry_at(journal, number) {
        None => None,
        Some(entry) => hold_of(journal, notes, times, number, entry),
    }
}

/// Adds a hold, if there is one.
fn push_found(holds: &mut List<Hold>, found: Option<Hold>) -> Result<(), Memory>
    ensures { OnOk result (holds.new ≡ holds.old ++ found_list found) }
{
    match found {
        None => Ok(()),
        Some(hold) => {
            holds.push(hold)?;
            Ok(())
        }
    }
}

/// The admissions of these entries that were held, of which this was noted, if this is the heaviest chain of their nodes.
pub(crate) fn holds_of(
    alloc: Global,
    journal: &[Entry],
    notes: &EntryNotes,
    times: &Heaviest,
) -> Result<List<Hold>, Memory>
    ensures { (rows : AnyList TaskRow) (stages : AnyList RunEntry) → IsTold rows stages journal.now notes.now times.now
        → IfOk result (AreHolds rows stages times.now.starts times.now.ends) }
{
    let mut holds = List::new(alloc);
    for number in 0..journal.len() {
        let found = hold_at(journal, notes, times, number);
        push_found(&mut holds, found)?;
    }
    Ok(holds)
}
