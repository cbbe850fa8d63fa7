//! Where an equal state may stand. An answer is a hint, which its user compares with what stands there.

use prefix_tree::{Part, PrefixTree};
use region_paths::Elem;
use std::alloc::Global;
use std::collections::BTreeMap;
use twe_base::{List, Memory};

/// The places of states in a list.
#[derive(Debug, Drop)]
pub(crate) struct StatesSeen {
    paths: PrefixTree,
    places: BTreeMap<u32, usize>,
}

/// A value as a part of a path in the tree. What is no literal stands beyond the numbers of literals.
fn part_of(value: Option<Elem>) -> Part {
    match value {
        None => Part::Index(0x20_0000_0000),
        Some(Elem::Name(name)) => Part::Name(name),
        Some(Elem::Index(index)) => Part::Index(i64::from(index)),
        Some(Elem::Var(param)) => Part::Index(0x1_0000_0000 + i64::from(param)),
        Some(Elem::AnyIndex) => Part::Index(0x10_0000_0000),
    }
}

impl StatesSeen {
    /// No states.
    pub(crate) fn new(alloc: Global) -> Result<Self, Memory> {
        Ok(StatesSeen {
            paths: PrefixTree::new(alloc)?,
            places: BTreeMap::new(alloc),
        })
    }

    /// Where the first state of the method with these values may stand. If there is none, `place` is kept for it.
    pub(crate) fn first_place(
        &mut self,
        alloc: Global,
        method: u32,
        values: &[Option<Elem>],
        place: usize,
    ) -> Result<usize, Memory> {
        let mut parts = List::new(alloc);
        parts.push(Part::Index(i64::from(method)))?;
        for value in values {
            parts.push(part_of(*value))?;
        }
        let number = self.paths.add_path(parts.as_slice())?;
        let kept = self.places.get(&number).copied();
        if kept.is_none() {
            self.places.insert(number, place)?;
        }
        Ok(kept.unwrap_or(place))
    }
}
