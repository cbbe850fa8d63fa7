//! What an entry asks for and gives, as keys of the heaviest chain.
ghost use Rattle.std.specs.Prelude.{◌≡◌, ◌++◌, IfOk, OnOk};
ghost use Rattle.span_profile.specs.inner.Deeds.{access_keys, asked, end_keys, given, value_keys, write_keys};

use crate::deed::Deed;
use crate::heaviest_chain::Key;
use crate::places::NumberedPaths;
use seg_journal::End;
use std::alloc::Global;
use twe_base::{List, Memory};

/// Keys in order.
pub(crate) type Keys = List<Key>;

/// Adds for each cell the key of what its place was last given.
fn push_writes(keys: &mut Keys, places: &NumberedPaths, cells: &[u32]) -> Result<(), Memory>
    ensures { OnOk result (keys.new ≡ keys.old ++ write_keys places.now cells.now) }
{
    for cell in cells {
        keys.push(Key::Write(places.of(*cell)))?;
    }
    Ok(())
}

/// Adds for each cell the key of any access to its place.
fn push_accesses(keys: &mut Keys, places: &NumberedPaths, cells: &[u32]) -> Result<(), Memory>
    ensures { OnOk result (keys.new ≡ keys.old ++ access_keys places.now cells.now) }
{
    for cell in cells {
        keys.push(Key::Access(places.of(*cell)))?;
    }
    Ok(())
}

/// Adds the key of the value that an entry took first.
fn push_value(keys: &mut Keys, taken: Option<u32>) -> Result<(), Memory>
    ensures { OnOk result (keys.new ≡ keys.old ++ value_keys taken) }
{
    if let Some(task) = taken {
        keys.push(Key::Value(task))?;
    }
    Ok(())
}

/// Adds the key of the task that an entry with this end made, or that of the value of its own task if that is done.
fn push_end(keys: &mut Keys, task: u32, end: End) -> Result<(), Memory>
    ensures { OnOk result (keys.new ≡ keys.old ++ end_keys task end) }
{
    match end {
        End::Made { child } => keys.push(Key::Task(child)),
        End::Done { .. } => keys.push(Key::Value(task)),
        _ => Ok(()),
    }
}

/// The keys that an entry asks for: those of its task, of the value that it took first, of the places that it read and
/// wrote, and of `Console` if it printed.
pub(crate) fn asked(
    alloc: Global,
    places: &NumberedPaths,
    deed: &Deed,
    reads: &[u32],
    writes: &[u32],
) -> Result<Keys, Memory>
    ensures { IfOk result (λ keys. keys ≡ asked places.now deed.now reads.now writes.now) }
{
    let mut keys = Keys::new(alloc);
    keys.push(Key::Task(deed.task))?;
    push_value(&mut keys, deed.taken)?;
    push_writes(&mut keys, places, reads)?;
    push_accesses(&mut keys, places, writes)?;
    if deed.printed {
        keys.push(Key::Access(places.console))?;
    }
    Ok(keys)
}

/// The keys that an entry gives: those of its task, of the task that it made, of the value of its task if that is done, of
/// the places that it read and wrote, and of `Console` if it printed.
pub(crate) fn given(
    alloc: Global,
    places: &NumberedPaths,
    deed: &Deed,
    reads: &[u32],
    writes: &[u32],
) -> Result<Keys, Memory>
    ensures { IfOk result (λ keys. keys ≡ given places.now deed.now reads.now writes.now) }
{
    let mut keys = Keys::new(alloc);
    keys.push(Key::Task(deed.task))?;
    push_end(&mut keys, deed.task, deed.end)?;
    push_accesses(&mut keys, places, reads)?;
    push_writes(&mut keys, places, writes)?;
    push_accesses(&mut keys, places, writes)?;
    if deed.printed {
        keys.push(Key::Write(places.console))?;
        keys.push(Key::Access(places.console))?;
    }
    Ok(keys)
}
