//! What is said of a way.
ghost use Rattle.std.specs.Prelude.{◌≡◌, ◌++◌, IfOk, OnOk};
ghost use Rattle.refusal_notes.specs.Ways.{dots_text, first_text, four_text, heading_text, last_text, next_text, out_reason, way_places_text, way_remarks, way_text};

use refusal_causes::{Begins, ControlWay, Four, KeptPlaces};
use std::alloc::Global;
use twe_base::{Bytes, List, Memory, Place};
use twe_report::push_place;

/// Appends the place, if there is one.
fn push_first(text: &mut Bytes, place: Option<Place>) -> Result<(), Memory>
    ensures { OnOk result (text.new ≡ text.old ++ first_text place) }
{
    match place {
        None => Ok(()),
        Some(place) => push_place(text, place),
    }
}

/// Appends a comma and the place, if there is one.
fn push_next(text: &mut Bytes, place: Option<Place>) -> Result<(), Memory>
    ensures { OnOk result (text.new ≡ text.old ++ next_text place) }
{
    match place {
        None => Ok(()),
        Some(place) => {
            text.push_all(b", ")?;
            push_place(text, place)
        }
    }
}

/// Appends the first four places.
fn push_four(text: &mut Bytes, places: Four) -> Result<(), Memory>
    ensures { OnOk result (text.new ≡ text.old ++ four_text places) }
{
    push_first(text, places.one)?;
    push_next(text, places.two)?;
    push_next(text, places.three)?;
    push_next(text, places.four)
}

/// Appends two dots, if there are more than eight places.
fn push_dots(text: &mut Bytes, count: u64) -> Result<(), Memory>
    ensures { OnOk result (text.new ≡ text.old ++ dots_text count) }
{
    if count > 8 {
        text.push_all(b", ..")
    } else {
        Ok(())
    }
}

/// Appends those of the last four places, the last one first, that are none of the first four of this many.
fn push_last(text: &mut Bytes, count: u64, places: Four) -> Result<(), Memory>
    ensures { OnOk result (text.new ≡ text.old ++ last_text count places) }
{
    push_next(text, if count > 7 { places.four } else { None })?;
    push_next(text, if count > 6 { places.three } else { None })?;
    push_next(text, if count > 5 { places.two } else { None })?;
    push_next(text, if count > 4 { places.one } else { None })
}

/// Appends all places or, of more than eight, the first four, two dots and the last four.
fn push_places(text: &mut Bytes, places: &KeptPlaces) -> Result<(), Memory>
    ensures { OnOk result (text.new ≡ text.old ++ way_places_text places.now) }
{
    push_four(text, places.first)?;
    push_dots(text, places.count)?;
    push_last(text, places.count, places.last)
}

/// What stands before this many places of a way that begins so.
fn heading_text(begins: Begins, count: u64) -> &'static [u8]
    ensures { result.now ≡ heading_text begins count }
{
    match begins {
        Begins::Spawn => b"a way on which it is still out: ",
        Begins::Join => b"a way on which it is not out: joined: ",
        Begins::Start => {
            if count > 0 {
                b"a way on which it is not out: never spawned: "
            } else {
                b"a way on which it is not out: never spawned"
            }
        }
    }
}

/// What is said of a way.
fn way_text(alloc: Global, way: &ControlWay) -> Result<Bytes, Memory>
    ensures { IfOk result (λ text. text ≡ way_text way.now) }
{
    let mut text = Bytes::from_slice(alloc, heading_text(way.begins, way.places.count))?;
    push_places(&mut text, &way.places)?;
    Ok(text)
}

/// Why an effect of a spawned task may be out: the way on which it is, if there is one.
pub(crate) fn out_reason(alloc: Global, way: &Option<ControlWay>) -> Result<Bytes, Memory>
    ensures { IfOk result (λ text. text ≡ out_reason way.now) }
{
    match way {
        None => Bytes::from_slice(
            alloc,
            b"on some way to here that task is spawned and not joined, and one of both effects writes",
        ),
        Some(way) => way_text(alloc, way),
    }
}

/// Appends a remark on the way, if there is one.
pub(crate) fn tell_way(
    remarks: &mut List<Bytes>,
    alloc: Global,
    way: &Option<ControlWay>,
) -> Result<(), Memory>
    ensures { OnOk result (remarks.new ≡ remarks.old ++ way_remarks way.now) }
{
    match way {
        None => Ok(()),
        Some(way) => remarks.push(way_text(alloc, way)?),
    }
}
