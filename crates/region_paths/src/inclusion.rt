//! Whether one written path is inside another.
ghost use Rattle.std.specs.Prelude.{◌≡◌, ◌↔◌, IsTrue, reverse, zip};
ghost use Rattle.std.specs.List.{list_all};
ghost use Rattle.region_paths.specs.Inside.{each_within, inside, within, starts_within, ends_within, inside_ends};
ghost use Rattle.region_paths.specs.Filled.{filled};
ghost use Rattle.region_paths.specs.Sets.{SetWithin};

use crate::elements::Elem;
use crate::paths::Path;

/// Whether an element is within another: the two are equal, or the inner is any kind of index and the outer `AnyIndex`.
pub fn is_within(inner: Elem, outer: Elem) -> bool
    ensures { result ≡ within inner outer }
{
    match (inner, outer) {
        (Elem::Name(n), Elem::Name(m)) => n == m,
        (Elem::Index(i), Elem::Index(j)) => i == j,
        (Elem::Var(k), Elem::Var(l)) => k == l,
        (Elem::Name(_), Elem::AnyIndex) => false,
        (_, Elem::AnyIndex) => true,
        _ => false,
    }
}

/// Whether each element of `inner` is within the one at its position in `outer`, up to the length of the shorter list.
fn front_pairs_are_within(inner: &[Elem], outer: &[Elem]) -> bool
    ensures { result ≡ list_all (λ pair. within pair.0 pair.1) (zip inner.now outer.now) }
{
    inner.iter().zip(outer).all(|(i, o)| is_within(*i, *o))
}

/// The same with positions counted from the end.
fn end_pairs_are_within(inner: &[Elem], outer: &[Elem]) -> bool
    ensures { result ≡ list_all (λ pair. within pair.0 pair.1) (zip (reverse inner.now) (reverse outer.now)) }
{
    inner
        .iter()
        .rev()
        .zip(outer.iter().rev())
        .all(|(i, o)| is_within(*i, *o))
}

/// Whether `inner` is at least as long as `outer`, and its first elements are within those of `outer`.
#[tactic(auto, using(crate::proofs::Pairs::by_pairs))]
fn front_is_within(inner: &[Elem], outer: &[Elem]) -> bool
    ensures { result ≡ starts_within inner.now outer.now }
{
    inner.len() >= outer.len() && front_pairs_are_within(inner, outer)
}

/// Whether the lists are equally long, and each element of `inner` is within the one at its position in `outer`: whether
/// the path of the elements `inner` is inside that of the elements `outer`.
pub fn elements_are_within(inner: &[Elem], outer: &[Elem]) -> bool
    ensures { result ≡ each_within inner.now outer.now }
{
    inner.len() == outer.len() && front_is_within(inner, outer)
}

/// Whether `inner` is at least as long as `outer`, and its last elements are within those of `outer`.
#[tactic(auto, using(crate::proofs::Pairs::by_pairs))]
fn end_is_within(inner: &[Elem], outer: &[Elem]) -> bool
    ensures { result ≡ ends_within inner.now outer.now }
{
    inner.len() >= outer.len() && end_pairs_are_within(inner, outer)
}

/// Whether a list without a star is long enough for the elements before a star and those after it, and its two ends
/// are within them.
fn ends_are_within(inner: &[Elem], front: &[Elem], back: &[Elem]) -> bool
    ensures { result ≡ inside_ends inner.now front.now back.now }
{
    inner.len() >= front.len() + back.len()
        && front_is_within(inner, front)
        && end_is_within(inner, back)
}

/// The rule of inclusion, with one case for each combination of stars.
fn is_inside(inner: &Path, outer: &Path) -> bool
    ensures { result ≡ inside inner.now outer.now }
{
    let elems = inner.elems().as_slice();
    let front = outer.elems().as_slice();
    let back = outer.tail().as_slice();
    match (outer.star(), inner.star()) {
        (false, false) => elements_are_within(elems, front),
        (false, true) => false,
        (true, false) => ends_are_within(elems, front, back),
        (true, true) => {
            front_is_within(elems, front) && end_is_within(inner.tail().as_slice(), back)
        }
    }
}

/// Whether `inner` is inside `outer`. If so, each concrete path of `inner` is one of `outer`, whatever the values of
/// their variables. For paths without variables the test is exact: it returns `true` if and only if that holds.
pub fn includes(outer: &Path, inner: &Path) -> bool
    ensures exact { result ≡ inside inner.now outer.now }
    ensures sets { IsTrue (filled inner.now) → IsTrue (filled outer.now)
        → IsTrue result ↔ SetWithin inner.now outer.now }
{
    is_inside(inner, outer)
}
