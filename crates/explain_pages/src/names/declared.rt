//! Where the name is declared that stands at a place of a text.
ghost use Rattle.std.specs.Prelude.{◌≡◌, None, IfOk};
ghost use Rattle.explain_pages.specs.names.Declaring.{stands_before, decl_before, declared_place, first_place, first_other, global_place, is_earlier, is_elsewhere, last_earlier, local_place, before_all, item_place, name_place};

use crate::names::variables::{is_same_place, variables_at};
use std::alloc::Global;
use twe_ast::{Item, Name};
use twe_base::{Memory, Place};

/// Whether one place comes before another.
pub fn stands_before(place: Place, other: Place) -> bool
    ensures { result ≡ stands_before place other }
{
    place.line < other.line || (place.line == other.line && place.col < other.col)
}

/// Whether the name has this text, and comes before the place.
fn is_earlier(word: &[u8], place: Place, name: &Name) -> bool
    ensures { result ≡ is_earlier word.now place name.now }
{
    name.text.as_bytes() == word && stands_before(name.place, place)
}

/// The place of the last of the names that has this text and comes before the place.
fn last_earlier(word: &[u8], place: Place, names: &[Name]) -> Option<Place>
    ensures { result ≡ last_earlier None word.now place names.now }
{
    let mut found = None;
    for name in names {
        if is_earlier(word, place, name) {
            found = Some(name.place);
        }
    }
    found
}

/// The place of the name of the last method or task that is declared before the place; a place before all others if none is.
fn decl_before(place: Place, items: &[Item]) -> Place
    ensures { result ≡ decl_before before_all place items.now }
{
    let mut found = Place { line: 0, col: 0 };
    for item in items {
        match item {
            Item::Method(decl) | Item::Task { decl, .. } => {
                if stands_before(decl.name.place, place) {
                    found = decl.name.place;
                }
            }
            Item::Regions(_) | Item::Cell(_) => {}
        }
    }
    found
}

/// The place of the parameter or local of this name that comes last before the place, in the body that the place is in.
fn local_place(
    alloc: Global,
    word: &[u8],
    place: Place,
    items: &[Item],
) -> Result<Option<Place>, Memory>
    ensures { IfOk result (λ found. found ≡ local_place word.now place items.now) }
{
    let names = variables_at(alloc, items, decl_before(place, items))?;
    Ok(last_earlier(word, place, names.as_slice()))
}

/// Whether the name has this text, and stands elsewhere.
fn is_elsewhere(word: &[u8], place: Place, name: &Name) -> bool
    ensures { result ≡ is_elsewhere word.now place name.now }
{
    name.text.as_bytes() == word && !is_same_place(name.place, place)
}

/// The place of the first of the names that has this text and stands elsewhere.
fn first_other(word: &[u8], place: Place, names: &[Name]) -> Option<Place>
    ensures { result ≡ first_other word.now place names.now }
{
    for name in names {
        if is_elsewhere(word, place, name) {
            return Some(name.place);
        }
    }
    None
}

/// The first place, if there is one, or else the second.
fn first_place(place: Option<Place>, other: Option<Place>) -> Option<Place>
    ensures { result ≡ first_place place other }
{
    match place {
        Some(place) => Some(place),
        None => other,
    }
}

/// The place of the declaration of a global name with this text, if the item is one and it stands elsewhere.
fn item_place(word: &[u8], place: Place, item: &Item) -> Option<Place>
    ensures { result ≡ item_place word.now place item.now }
{
    match item {
        Item::Regions(names) => first_other(word, place, names.as_slice()),
        Item::Cell(cell) => name_place(word, place, &cell.name),
        Item::Method(decl) => name_place(word, place, &decl.name),
        Item::Task { decl, .. } => name_place(word, place, &decl.name),
    }
}

/// The place of the name, if it has this text and stands elsewhere.
fn name_place(word: &[u8], place: Place, name: &Name) -> Option<Place>
    ensures { result ≡ name_place word.now place name.now }
{
    if is_elsewhere(word, place, name) {
        Some(name.place)
    } else {
        None
    }
}

/// The place of the first declaration of a global name with this text that stands elsewhere.
fn global_place(word: &[u8], place: Place, items: &[Item]) -> Option<Place>
    ensures { result ≡ global_place word.now place items.now }
{
    for item in items {
        let found = item_place(word, place, item);
        if found.is_some() {
            return found;
        }
    }
    None
}

/// Where a name with this text is declared: as a parameter or a local before the place, or else as a global name.
pub(crate) fn declared_place(
    alloc: Global,
    word: &[u8],
    place: Place,
    items: &[Item],
) -> Result<Option<Place>, Memory>
    ensures { IfOk result (λ found. found ≡ declared_place word.now place items.now) }
{
    let local = local_place(alloc, word, place, items)?;
    Ok(first_place(local, global_place(word, place, items)))
}
