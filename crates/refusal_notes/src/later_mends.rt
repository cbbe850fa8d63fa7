//! Edits by which a task is made by `executeLater` instead of `spawn`, so that it needs no effect of its maker.
ghost use Rattle.std.specs.Prelude.{◌≡◌, ◌++◌, IfOk, OnOk};
ghost use Rattle.refusal_notes.specs.LaterMends.{later_mend, later_mend_at, later_mends, later_said, next_later_mends, spawns_at, spots_at};

use crate::edits::{edited, place_offset};
use crate::mends::{Mend, Mends};
use crate::spots::{CutText, Mark, Spot, next_word, spots_behind, token_is};
use std::alloc::Global;
use twe_base::{Bytes, Memory, Place};
use twe_report::push_place;

/// The tokens at the place and after it.
pub(crate) fn spots_at(cut: &CutText, place: Place) -> &[Spot]
    ensures { result.now ≡ spots_at cut.now place }
{
    let from = place_offset(cut.bytes.as_slice(), place);
    spots_behind(cut.spots.as_slice(), from)
}

/// That the task is made so at the place.
fn later_said(alloc: Global, place: Place) -> Result<Bytes, Memory>
    ensures { IfOk result (λ text. text ≡ later_said place) }
{
    let mut text = Bytes::from_slice(alloc, b"`executeLater` instead of `spawn` at ")?;
    push_place(&mut text, place)?;
    Ok(text)
}

/// The `spawn` that begins here is an `executeLater`.
fn later_mend(alloc: Global, text: &[u8], mark: Mark) -> Result<Mend, Memory>
    ensures { IfOk result (λ mend. mend ≡ later_mend text.now mark) }
{
    Ok(Mend {
        said: later_said(alloc, mark.place)?,
        comes: Bytes::from_slice(alloc, b", but what follows may run before the task does")?,
        text: edited(alloc, text, mark.offset, 5, b"executeLater")?,
    })
}

/// Adds the edit of the `spawn` that begins here, if there is one.
fn push_later_at(
    mends: &mut Mends,
    alloc: Global,
    text: &[u8],
    mark: Option<Mark>,
) -> Result<(), Memory>
    ensures { OnOk result (mends.new ≡ mends.old ++ later_mend_at text.now mark) }
{
    match mark {
        None => Ok(()),
        Some(mark) => mends.push(later_mend(alloc, text, mark)?),
    }
}

/// Adds the edit of the first `spawn` at the place or after it.
pub(crate) fn push_later(
    mends: &mut Mends,
    alloc: Global,
    cut: &CutText,
    place: Place,
) -> Result<(), Memory>
    ensures { OnOk result (mends.new ≡ mends.old ++ next_later_mends cut.now place) }
{
    let mark = next_word(b"spawn", spots_at(cut, place));
    push_later_at(mends, alloc, cut.bytes.as_slice(), mark)
}

/// Whether the name at the place is that of a task that is spawned there.
pub(crate) fn spawns_at(cut: &CutText, place: Place) -> bool
    ensures { result ≡ spawns_at cut.now place }
{
    let spots = spots_at(cut, place);
    token_is(spots, 1, b".") && token_is(spots, 2, b"spawn")
}

/// Adds the edit of the spawn at the place, if the name there is that of a spawned task.
pub(crate) fn push_later_if(
    mends: &mut Mends,
    alloc: Global,
    cut: &CutText,
    place: Place,
) -> Result<(), Memory>
    ensures { OnOk result (mends.new ≡ mends.old ++ later_mends cut.now place) }
{
    if spawns_at(cut, place) {
        push_later(mends, alloc, cut, place)?;
    }
    Ok(())
}
