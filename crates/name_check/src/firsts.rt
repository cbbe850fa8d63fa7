//! A map from each name of a list to the first place where the list has it.
ghost use Rattle.std.specs.Prelude.{◌≡◌, OnOk, OnErr};
ghost use Rattle.std.specs.BTreeMap.{get_by_text};
ghost use Rattle.name_check.specs.inner.Firsts.{AddsFirst, DropsFirst, HaveSameFirsts};

use std::alloc::Global;
use std::collections::BTreeMap;
use twe_base::{Memory, Word};

/// The index at which the list has a name first, if it has it. It takes no memory.
pub fn index_of_first(firsts: &BTreeMap<String, u32>, text: &Word) -> Option<usize>
    ensures { result ≡ get_by_text firsts.now text.now }
{
    match firsts.get(text.as_str()) {
        Some(place) => Some(*place as usize),
        None => None,
    }
}

/// Adds a name at this place, which is after all others. If it fails, the map is as before.
pub fn add_first(
    firsts: &mut BTreeMap<String, u32>,
    alloc: Global,
    text: &Word,
    place: u32,
) -> Result<(), Memory>
    ensures ok { OnOk result (AddsFirst text.now place firsts.old firsts.new) }
    ensures err { OnErr result (HaveSameFirsts firsts.old firsts.new) }
{
    if index_of_first(firsts, text).is_some() {
        return Ok(());
    }
    let key = text.copy(alloc)?.into_string();
    firsts.insert(key, place)?;
    Ok(())
}

/// Removes the name at this place, if it is the first place of that name. It takes no memory.
pub fn drop_first(firsts: &mut BTreeMap<String, u32>, text: &Word, place: usize)
    ensures { DropsFirst text.now place firsts.old firsts.new }
{
    if index_of_first(firsts, text) == Some(place) {
        let _ = firsts.remove(text.as_str());
    }
}
