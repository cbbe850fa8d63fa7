//! The paths of effects and of cells, as they are written in a text. A `Root` at the front is left out.

use crate::name::Name;
use twe_base::{List, Place, Word};

/// A path in a clause of effects.
#[derive(Debug, Drop)]
pub struct Path {
    /// The elements, in order; none for the path `Root`.
    pub elems: List<PathElem>,
    /// The place of the path's first token, `Root` or the first element's.
    pub place: Place,
}

/// An element of a path in a clause of effects.
#[derive(Debug, Drop)]
pub struct PathElem {
    /// The kind of the element.
    pub kind: PathElemKind,
    /// The place of its first token: the name, `[` or `*`.
    pub place: Place,
}

/// The kind of an element of a path in a clause of effects.
#[derive(Debug, Drop)]
pub enum PathElemKind {
    /// The name of a region. Its place is the element's.
    Name(Word),
    /// An index that is a literal, as `[3]`: from 0 to 2147483647.
    Index(u32),
    /// An index that is the name of a parameter, as `[j]`.
    Variable(Name),
    /// Any index: `[?]`.
    AnyIndex,
    /// Any number of elements: `*`.
    Star,
}

/// The path of a cell or of an array.
#[derive(Debug, Drop)]
pub struct CellPath {
    /// The elements, in order; none for the path `Root`.
    pub elems: List<CellElem>,
    /// The place of the path's first token, `Root` or the first element's.
    pub place: Place,
}

/// An element of the path of a cell.
#[derive(Debug, Drop)]
pub struct CellElem {
    /// The kind of the element.
    pub kind: CellElemKind,
    /// The place of its first token: the name or `[`.
    pub place: Place,
}

/// The kind of an element of the path of a cell.
#[derive(Debug, Drop)]
pub enum CellElemKind {
    /// The name of a region. Its place is the element's.
    Name(Word),
    /// An index, as `[3]`: from 0 to 2147483647.
    Index(u32),
}
