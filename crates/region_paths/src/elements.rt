//! The elements of a written path.
use twe_base::List;

/// One element of a written path below the root.
#[derive(Clone, Copy, Debug, PartialEq, Eq)]
pub enum Elem {
    /// A region, by its number.
    Name(u32),
    /// A literal index, which may be negative.
    Index(i32),
    /// A parameter, by its number.
    Var(u32),
    /// Any index.
    AnyIndex,
}

/// Elements in order.
pub type Elems = List<Elem>;
