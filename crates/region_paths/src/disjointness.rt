//! Whether two written paths are apart.
ghost use Rattle.std.specs.Prelude.{◌≡◌, ◌↔◌, IsFalse, IsTrue};
ghost use Rattle.region_paths.specs.Apart.{apart, clash, clash_from_front, clash_from_end, apart_from_ends};
ghost use Rattle.region_paths.specs.Filled.{filled};
ghost use Rattle.region_paths.specs.Sets.{SetsApart, SetsMeet};

use crate::elements::Elem;
use crate::paths::Path;

/// Whether two elements have no concrete element in common, whatever the values of their variables: two different
/// names, a name and an index of any kind, or two different literals. Two variables never clash.
fn clashes(first: Elem, second: Elem) -> bool
    ensures { result ≡ clash first second }
{
    match (first, second) {
        (Elem::Name(n), Elem::Name(m)) => n != m,
        (Elem::Index(i), Elem::Index(j)) => i != j,
        (Elem::Name(_), _) => true,
        (_, Elem::Name(_)) => true,
        _ => false,
    }
}

/// Whether the lists clash at a position, counted from the front, that both have.
fn fronts_clash(first: &[Elem], second: &[Elem]) -> bool
    ensures { result ≡ clash_from_front first.now second.now }
{
    first.iter().zip(second).any(|(x, y)| clashes(*x, *y))
}

/// Whether the lists clash at a position, counted from the end, that both have.
fn ends_clash(first: &[Elem], second: &[Elem]) -> bool
    ensures { result ≡ clash_from_end first.now second.now }
{
    first
        .iter()
        .rev()
        .zip(second.iter().rev())
        .any(|(x, y)| clashes(*x, *y))
}

/// Whether a list without a star is too short for the elements around a star, or clashes with them.
fn is_apart_from_ends(plain: &[Elem], front: &[Elem], back: &[Elem]) -> bool
    ensures { result ≡ apart_from_ends plain.now front.now back.now }
{
    plain.len() < front.len() + back.len() || fronts_clash(plain, front) || ends_clash(plain, back)
}

/// The rule of disjointness, with one case for each combination of stars.
fn are_apart(p: &Path, q: &Path) -> bool
    ensures { result ≡ apart p.now q.now }
{
    let first = p.elems().as_slice();
    let second = q.elems().as_slice();
    match (p.star(), q.star()) {
        (false, false) => first.len() != second.len() || fronts_clash(first, second),
        (false, true) => is_apart_from_ends(first, second, q.tail().as_slice()),
        (true, false) => is_apart_from_ends(second, first, p.tail().as_slice()),
        (true, true) => {
            fronts_clash(first, second) || ends_clash(p.tail().as_slice(), q.tail().as_slice())
        }
    }
}

/// Whether the paths are apart. If so, they have no concrete path in common, whatever the values of their variables.
/// For paths without variables the test is exact: it returns `true` if and only if they have none in common.
pub fn disjoint(p: &Path, q: &Path) -> bool
    ensures exact { result ≡ apart p.now q.now }
    ensures sets { IsTrue (filled p.now) → IsTrue (filled q.now) → IsTrue result ↔ SetsApart p.now q.now }
    ensures meet { IsTrue (filled p.now) → IsTrue (filled q.now) → IsFalse result ↔ SetsMeet p.now q.now }
{
    are_apart(p, q)
}
