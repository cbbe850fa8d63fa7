//! Paths with some of their indexes replaced by any index.

use prefix_tree::Part;
use region_paths::Elem;
use std::alloc::Global;
use twe_base::{List, Memory};

/// Which indexes of a path are replaced by any index.
#[derive(Clone, Copy, Debug, PartialEq, Eq)]
pub(crate) enum Open {
    /// None.
    Nothing,
    /// The last one.
    Last,
    /// The last but one.
    Before,
    /// All.
    All,
}

/// Whether the element is a name.
fn is_name(elem: Elem) -> bool {
    match elem {
        Elem::Name(_) => true,
        Elem::Index(_) => false,
        Elem::Var(_) => false,
        Elem::AnyIndex => false,
    }
}

/// Whether the element is a parameter.
fn is_parameter(elem: Elem) -> bool {
    match elem {
        Elem::Name(_) => false,
        Elem::Index(_) => false,
        Elem::Var(_) => true,
        Elem::AnyIndex => false,
    }
}

/// Whether some element is a parameter.
pub(crate) fn has_parameter(elems: &[Elem]) -> bool {
    elems.iter().any(|elem| is_parameter(*elem))
}

/// The element as a part of a path in the tree. Parameters and any index stand beyond the numbers of literals.
fn part_of(elem: Elem) -> Part {
    match elem {
        Elem::Name(name) => Part::Name(name),
        Elem::Index(index) => Part::Index(i64::from(index)),
        Elem::Var(param) => Part::Index(0x1_0000_0000 + i64::from(param)),
        Elem::AnyIndex => Part::Index(0x10_0000_0000),
    }
}

/// How many of the elements are indexes.
pub(crate) fn count_indexes(elems: &[Elem]) -> usize {
    elems.iter().filter(|elem| !is_name(**elem)).count()
}

/// Where the last index of the elements stands, and where the last but one. Past their end, if there is none.
fn last_indexes(elems: &[Elem]) -> (usize, usize) {
    let mut last = elems.len();
    let mut before = elems.len();
    for (at, elem) in elems.iter().enumerate() {
        if !is_name(*elem) {
            before = last;
            last = at;
        }
    }
    (last, before)
}

/// Whether the index at this place is replaced.
fn is_open(at: usize, last: usize, before: usize, open: Open) -> bool {
    match open {
        Open::Nothing => false,
        Open::Last => at == last,
        Open::Before => at == before,
        Open::All => true,
    }
}

/// The elements as parts of a path in the tree, with these indexes replaced.
pub(crate) fn opened_parts(
    alloc: Global,
    elems: &[Elem],
    open: Open,
) -> Result<List<Part>, Memory> {
    let (last, before) = last_indexes(elems);
    let mut parts = List::new(alloc);
    for (at, elem) in elems.iter().enumerate() {
        let part = if !is_name(*elem) && is_open(at, last, before, open) {
            part_of(Elem::AnyIndex)
        } else {
            part_of(*elem)
        };
        parts.push(part)?;
    }
    Ok(parts)
}
