//! The heaviest chains that end at single nodes, and which of two of them is the higher.
ghost use Rattle.std.specs.Prelude.{◌≡◌};
ghost use Rattle.span_profile.specs.heaviest_chain.inner.Tops.{higher, is_topped};

/// The heaviest chain that ends at a node.
#[derive(Clone, Copy, Debug, PartialEq, Eq)]
pub(crate) struct Best {
    /// Its weight.
    pub weight: u64,
    /// The last node but one, if the chain has more than one node.
    pub previous: Option<u64>,
}

/// A node, with the weight of the heaviest chain that ends there.
#[derive(Clone, Copy, Debug, PartialEq, Eq)]
pub(crate) struct Top {
    /// The weight of the chain.
    pub weight: u64,
    /// The number of the node.
    pub node: u64,
}

/// Whether the second is higher: it is heavier, or as heavy and of a lower number.
fn is_topped(a: Top, b: Top) -> bool
    ensures { result ≡ is_topped a b }
{
    a.weight < b.weight || (a.weight == b.weight && b.node < a.node)
}

/// The higher of two, as far as they are there.
pub(crate) fn higher(a: Option<Top>, b: Option<Top>) -> Option<Top>
    ensures { result ≡ higher a b }
{
    match (a, b) {
        (None, _) => b,
        (Some(_), None) => a,
        (Some(first), Some(second)) => { if is_topped(first, second) { b } else { a } }
    }
}
