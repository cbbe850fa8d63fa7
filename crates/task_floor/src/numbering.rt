//! The entries of a journal with their numbers.
ghost use Rattle.std.specs.Prelude.{◌≡◌, IfOk};
ghost use Rattle.task_floor.specs.steps.Waking.{log_of, numbered_from};

use seg_journal::{Entry, JournalPart, NumberedEntry};
use std::alloc::Global;
use twe_base::{Ints, Memory};

/// The entries of a journal with their numbers. All that the run has printed stands beside the last of them.
pub(crate) fn log_of(alloc: Global, journal: &[Entry], prints: Ints) -> Result<JournalPart, Memory>
    ensures { IfOk result (λ log. log ≡ log_of journal.now prints) }
{
    let mut log = numbered(alloc, journal)?;
    let Some(last) = log.pop() else {
        return Ok(log);
    };
    log.push(NumberedEntry {
        number: last.number,
        entry: last.entry,
        prints,
    })?;
    Ok(log)
}

/// The entries of a journal with their numbers, and nothing printed beside them.
fn numbered(alloc: Global, journal: &[Entry]) -> Result<JournalPart, Memory>
    ensures { IfOk result (λ log. log ≡ numbered_from 0 journal.now) }
{
    let mut log = JournalPart::with_capacity(alloc, journal.len())?;
    for (i, entry) in journal.iter().enumerate() {
        log.push(NumberedEntry {
            number: i as u64,
            entry: *entry,
            prints: Ints::new(alloc),
        })?;
    }
    Ok(log)
}
