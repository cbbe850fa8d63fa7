//! Merging the parts of a journal.
ghost use Rattle.std.specs.Prelude.{◌≡◌, ◌<◌, ◌+◌, List, length, vec_len, IfOk, OnOk, Contains};
ghost use Rattle.seg_journal.specs.declared.numbered.NumberedEntry.{NumberedEntry};
ghost use Rattle.seg_journal.specs.Merging.{AreNumbered, IsMergeOf, all_of, journal_of, prints_of};
ghost use Rattle.seg_journal.specs.inner.Placing.{lying, placed, present};

use crate::Journal;
use crate::numbered::{JournalPart, NumberedEntry};
use std::alloc::Global;
use twe_base::{Ints, List, Memory};

/// Merges the parts of a journal: its entries in the order of their numbers, and the numbers that they printed, in the same
/// order. The numbers over all parts have to be 0, 1 and so on, each once. Parts without entries give an empty journal.
pub fn merge(alloc: Global, parts: &[JournalPart]) -> Result<(Journal, Ints), Memory>
    requires { AreNumbered parts.now }
    ensures { IfOk result (λ merged. (log : List NumberedEntry) × IsMergeOf parts.now log
        × (merged.0 ≡ journal_of log) × (merged.1 ≡ prints_of log)) }
{
    let mut slots = empty_slots(alloc, parts)?;
    for part in parts {
        place(&mut slots, part);
    }
    collect(alloc, slots.as_slice())
}

/// A slot for each entry.
fn empty_slots<'a>(
    alloc: Global,
    parts: &'a [JournalPart],
) -> Result<List<Option<&'a NumberedEntry>>, Memory>
    ensures { IfOk result (λ slots. length slots ≡ length (all_of parts.now)) }
{
    let mut slots = Vec::with_capacity(alloc, entry_count(parts))?;
    for part in parts {
        add_slots(&mut slots, part.len())?;
    }
    Ok(List::from(slots))
}

/// How many entries the parts have together, for which memory is taken at once.
fn entry_count(parts: &[JournalPart]) -> usize {
    let mut count = 0usize;
    for part in parts {
        count = count.saturating_add(part.len());
    }
    count
}

/// Adds this many slots.
fn add_slots(slots: &mut Vec<Option<&NumberedEntry>>, count: usize) -> Result<(), Memory>
    ensures { OnOk result (vec_len slots.new ≡ vec_len slots.old + count) }
{
    for i in 0..count {
        slots.reserve(1)?;
        slots.push_reserved(None);
    }
    Ok(())
}

/// Puts each entry into the slot of its number.
fn place<'a>(slots: &mut List<Option<&'a NumberedEntry>>, part: &'a JournalPart)
    requires { (e : NumberedEntry) → Contains part.now e → e.number < length slots.old }
    ensures placed { lying slots.new ≡ placed (lying slots.old) part.now }
    ensures size { length slots.new ≡ length slots.old }
{
    for e in part.as_slice() {
        slots.set(e.number as usize, Some(e));
    }
}

/// The journal of the entries in the slots, and the numbers that they printed.
fn collect(alloc: Global, slots: &[Option<&NumberedEntry>]) -> Result<(Journal, Ints), Memory>
    ensures journal { IfOk result (λ merged. merged.0 ≡ journal_of (present (lying slots.now))) }
    ensures prints { IfOk result (λ merged. merged.1 ≡ prints_of (present (lying slots.now))) }
{
    let mut journal = Vec::with_capacity(alloc, slots.len())?;
    let mut prints = Ints::new(alloc);
    for slot in slots {
        if let Some(e) = slot {
            journal.reserve(1)?;
            journal.push_reserved(e.entry);
            if !e.prints.is_empty() {
                prints.push_all(e.prints.as_slice())?;
            }
        }
    }
    Ok((List::from(journal), prints))
}
