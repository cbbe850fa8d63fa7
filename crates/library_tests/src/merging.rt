//! What no clause says: `merge` succeeds if there is memory.
ghost use Rattle.std.specs.Prelude.{◌≡◌, [], ◌∷◌, IfOk};
ghost use Rattle.seg_journal.specs.declared.numbered.NumberedEntry.{NumberedEntry};
ghost use Rattle.seg_journal.specs.Merging.{AreNumbered};

use seg_journal::{End, Entry, Journal, JournalPart, Kind, Move, NumberedEntry, merge};
use std::alloc::Global;
use std::test::Fail;
use twe_base::{Ints, Memory};

// A part with one entry, of task 0.
fn part_of(
    alloc: Global,
    number: u64,
    kind: Kind,
    end: End,
    printed: i32,
) -> Result<JournalPart, Memory>
    ensures { IfOk result (λ part. (e : NumberedEntry) × (part ≡ e ∷ []) × (e.number ≡ number)) }
{
    let mut prints = Ints::new(alloc);
    prints.push(printed)?;
    let mut part = JournalPart::new(alloc);
    part.push(NumberedEntry {
        number,
        entry: Entry {
            mv: Move { kind, task: 0 },
            end,
        },
        prints,
    })?;
    Ok(part)
}

// Both parts, merged.
fn merge_two(alloc: Global, one: JournalPart, two: JournalPart) -> Result<(Journal, Ints), Memory>
    requires { AreNumbered (one ∷ two ∷ []) }
{
    merge(alloc, &[one, two])
}

#[test]
fn entries_are_merged_by_number(rt: HostRuntime) -> Result<(), Fail> {
    let alloc = rt.alloc();
    let later = part_of(alloc, 1, Kind::Run, End::Done { value: 5 }, 8)?;
    let first = part_of(alloc, 0, Kind::Admit, End::Admitted, 7)?;
    let (journal, prints) = merge_two(alloc, later, first)?;
    let ends = journal.as_slice();
    assert_eq!(rt; ends.len(), 2);
    assert_eq!(rt;
        (ends[0].end, ends[1].end),
        (End::Admitted, End::Done { value: 5 })
    );
    assert_eq!(rt; (prints.get(0), prints.get(1)), (Some(&7), Some(&8)));
    Ok(())
}
