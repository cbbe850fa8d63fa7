//! Which of the nodes right below one an effect may reach. At or below the others nothing can stand that interferes with it.
ghost use Rattle.std.specs.Prelude.{◌≡◌, ◌≢◌, ◌⊎◌, ◌-◌, ◌<◌, ℕ, true, length, slice_get, Contains, IsFalse};
ghost use Rattle.std.specs.List.Sorted.{IsStrictlyIncreasing};
ghost use Rattle.region_paths.specs.Filled.{is_solid};
ghost use Rattle.prefix_tree.specs.Nodes.{path_of, IsParent};
ghost use Rattle.tree_admit.specs.ways.Ways.{AreReached};

use crate::ways::wild::is_fixed;
use effect_sets::Effect;
use effect_tree::Shape;
use region_paths::Elem;

/// Whether there are nodes right below one. It takes no memory.
pub(crate) fn has_children(shape: &Shape, node: u32) -> bool
    requires { node < length shape.now }
    ensures { IsFalse result → (m : ℕ) → ¬ IsParent shape.now node m }
{
    shape.below(node).len() > 0
}

/// How many of `count` elements are left after as many as the node's path has.
fn left_below(shape: &Shape, node: u32, count: usize) -> usize
    requires { node < length shape.now }
    ensures { result ≡ count - length (path_of shape.now node) }
{
    let _count = shape.nodes();
    let mut at = node;
    let mut left = count;
    while let Some(above) = shape.parent(at) {
        left = left.saturating_sub(1);
        at = above;
    }
    left
}

/// The element that stands after as many as the node's path has, if there is one.
fn next_elem(shape: &Shape, node: u32, elems: &[Elem]) -> Option<Elem>
    requires { node < length shape.now }
    ensures { result ≡ slice_get elems.now (length (path_of shape.now node)) }
{
    let left = left_below(shape, node, elems.len());
    elems.get(elems.len() - left).copied()
}

/// The part of rising numbers that has this number alone.
fn part_with(numbers: &[u32], number: u32) -> &[u32]
    ensures fewer { (m : ℕ) → Contains result.now m → Contains numbers.now m }
    ensures has { Contains numbers.now number → Contains result.now number }
    ensures in_order { IsStrictlyIncreasing numbers.now → IsStrictlyIncreasing result.now }
{
    match numbers.binary_search(&number) {
        Ok(at) => &numbers[at..at + 1],
        Err(_) => numbers,
    }
}

/// The nodes right below one that this element leads to, in increasing order: by a name or a literal index one at most.
fn reached_by<'a>(shape: &'a Shape, node: u32, elem: Elem) -> &'a [u32]
    requires { node < length shape.now }
    ensures below { (m : ℕ) → Contains result.now m → IsParent shape.now node m }
    ensures others { (m : ℕ) (lies : IsParent shape.now node m)
        → Contains result.now m ⊎ ((is_solid elem ≡ true) × (lies.2.0 ≢ elem)) }
    ensures in_order { IsStrictlyIncreasing result.now }
{
    let _count = shape.nodes();
    let below = shape.below(node);
    if !is_fixed(elem) {
        return below;
    }
    match shape.child(node, elem) {
        Some(child) => part_with(below, child),
        None => &below[..0],
    }
}

/// Of the nodes right below one those that the effect may reach, in increasing order. If its path goes on with a name or a
/// literal index, that is the one by this element. If it ends without a star, there are none. It takes no memory.
pub fn reached_below<'a>(shape: &'a Shape, node: u32, effect: &Effect) -> &'a [u32]
    requires { node < length shape.now }
    ensures reached { AreReached shape.now effect.now node result.now }
    ensures in_order { IsStrictlyIncreasing result.now }
{
    let below = shape.below(node);
    match next_elem(shape, node, effect.path.elems().as_slice()) {
        Some(elem) => reached_by(shape, node, elem),
        None => {
            if effect.path.star() {
                below
            } else {
                &below[..0]
            }
        }
    }
}
