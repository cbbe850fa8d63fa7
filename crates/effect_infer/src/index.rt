//! Where needs may stand among those that were found. An answer is a hint, which its user compares with what stands there.

use crate::found::FoundNeed;
use crate::opened::{Open, count_indexes, has_parameter, opened_parts};
use prefix_tree::PrefixTree;
use std::alloc::Global;
use std::collections::BTreeMap;
use twe_base::{List, Memory};

/// How many places of needs that differ are noted at most: one more than a summary may have effects.
pub(crate) const MOST_NOTED: usize = 9;

/// Needs of a method, by the number of a path.
#[derive(Clone, Copy, Debug, PartialEq, Eq, PartialOrd, Ord)]
struct PathNeeds {
    method: u32,
    path: u32,
    write: bool,
}

/// The numbers of the paths of a need: its own, and those with some of its indexes replaced by any index.
#[derive(Clone, Copy, Debug)]
pub(crate) struct PathNumbers {
    /// The path as it is.
    own: u32,
    /// Any index in the place of the last one.
    last: u32,
    /// Any index in the place of the last but one.
    before: u32,
    /// Any index in the place of each index.
    shape: u32,
}

/// The places of needs in a list.
#[derive(Debug, Drop)]
pub(crate) struct Index {
    paths: PrefixTree,
    places: BTreeMap<PathNeeds, usize>,
    rows: BTreeMap<PathNeeds, usize>,
    crowds: List<List<usize>>,
}

impl Index {
    /// An index of nothing.
    pub(crate) fn new(alloc: Global) -> Result<Self, Memory> {
        Ok(Index {
            paths: PrefixTree::new(alloc)?,
            places: BTreeMap::new(alloc),
            rows: BTreeMap::new(alloc),
            crowds: List::new(alloc),
        })
    }

    /// The number of the path with these of its indexes replaced.
    fn path(&mut self, alloc: Global, found: &FoundNeed, open: Open) -> Result<u32, Memory> {
        let parts = opened_parts(alloc, found.need.elems.as_slice(), open)?;
        self.paths.add_path(parts.as_slice())
    }

    /// The numbers of the paths of a need. For a need that stands in the list its own is enough.
    pub(crate) fn numbers(
        &mut self,
        alloc: Global,
        found: &FoundNeed,
    ) -> Result<PathNumbers, Memory> {
        let own = self.path(alloc, found, Open::Nothing)?;
        let mut numbers = PathNumbers {
            own,
            last: own,
            before: own,
            shape: own,
        };
        let indexes = count_indexes(found.need.elems.as_slice());
        if indexes == 0 || self.place_of(found, own).is_some() {
            return Ok(numbers);
        }
        numbers.last = self.path(alloc, found, Open::Last)?;
        numbers.shape = numbers.last;
        if indexes > 1 {
            numbers.before = self.path(alloc, found, Open::Before)?;
            numbers.shape = self.path(alloc, found, Open::All)?;
        }
        Ok(numbers)
    }

    /// Where a need of the method with this path stands that writes if the need does.
    fn place_of(&self, found: &FoundNeed, path: u32) -> Option<usize> {
        let method = found.method;
        let write = found.need.write;
        let key = PathNeeds {
            method,
            path,
            write,
        };
        if let Some(place) = self.places.get(&key) {
            return Some(*place);
        }
        let written = PathNeeds {
            method,
            path,
            write: true,
        };
        self.places.get(&written).copied()
    }

    /// Where a need may stand that covers this one.
    pub(crate) fn covering(&self, found: &FoundNeed, numbers: PathNumbers) -> Option<usize> {
        for path in [numbers.shape, numbers.last, numbers.before, numbers.own] {
            let place = self.place_of(found, path);
            if place.is_some() {
                return place;
            }
        }
        None
    }

    /// The places that are noted for this key.
    fn crowd_of(&self, key: PathNeeds) -> &[usize] {
        match self.rows.get(&key) {
            Some(row) => match self.crowds.get(*row) {
                Some(places) => places.as_slice(),
                None => &[],
            },
            None => &[],
        }
    }

    /// Places of needs of the method that may leave no room for this one.
    pub(crate) fn crowd(&self, found: &FoundNeed, numbers: PathNumbers) -> &[usize] {
        let method = found.method;
        let write = found.need.write;
        for path in [numbers.last, numbers.before, u32::MAX] {
            let places = self.crowd_of(PathNeeds {
                method,
                path,
                write,
            });
            if places.len() >= MOST_NOTED {
                return places;
            }
        }
        &[]
    }

    /// Notes a place for this key, if there is room.
    fn push(&mut self, alloc: Global, key: PathNeeds, place: usize) -> Result<(), Memory> {
        let row = match self.rows.get(&key) {
            Some(row) => *row,
            None => self.crowds.len(),
        };
        if row < self.crowds.len() {
            let places = self.crowds.item_mut(row);
            if places.len() < MOST_NOTED {
                places.push(place)?;
            }
            return Ok(());
        }
        let mut places = List::new(alloc);
        places.push(place)?;
        self.crowds.push(places)?;
        self.rows.insert(key, row)?;
        Ok(())
    }

    /// Notes where a need without parameters stands, as one of those that may leave no room for others.
    fn note_crowds(
        &mut self,
        alloc: Global,
        found: &FoundNeed,
        numbers: PathNumbers,
        place: usize,
    ) -> Result<(), Memory> {
        let method = found.method;
        let write = found.need.write;
        let PathNumbers {
            own,
            last,
            before,
            shape,
        } = numbers;
        let key = PathNeeds {
            method,
            path: shape,
            write,
        };
        if self.rows.get(&key).is_none() {
            let path = u32::MAX;
            self.push(
                alloc,
                PathNeeds {
                    method,
                    path,
                    write,
                },
                place,
            )?;
        }
        if shape != own {
            self.push(alloc, key, place)?;
        }
        for path in [last, before] {
            if path != own && path != shape {
                self.push(
                    alloc,
                    PathNeeds {
                        method,
                        path,
                        write,
                    },
                    place,
                )?;
            }
        }
        Ok(())
    }

    /// Notes where a need stands.
    pub(crate) fn note(
        &mut self,
        alloc: Global,
        found: &FoundNeed,
        numbers: PathNumbers,
        place: usize,
    ) -> Result<(), Memory> {
        if !has_parameter(found.need.elems.as_slice()) {
            self.note_crowds(alloc, found, numbers, place)?;
        }
        let method = found.method;
        let write = found.need.write;
        self.places.insert(
            PathNeeds {
                method,
                path: numbers.own,
                write,
            },
            place,
        )?;
        Ok(())
    }
}
