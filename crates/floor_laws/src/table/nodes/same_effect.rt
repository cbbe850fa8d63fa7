//! Whether two effects are the same, by all that they are made of.
ghost use Rattle.std.specs.Prelude.{◌≡◌, zip};
ghost use Rattle.std.specs.List.{list_all};
ghost use Rattle.floor_laws.specs.table.nodes.Without.{same_effect, same_elem, same_elems, same_path, same_truth};

use effect_sets::Effect;
use region_paths::{Elem, Path};

/// Whether both are true, or neither is.
fn same_truth(a: bool, b: bool) -> bool
    ensures { result ≡ same_truth a b }
{
    if a { b } else { !b }
}

/// Whether two elements are the same.
fn same_elem(a: Elem, b: Elem) -> bool
    ensures { result ≡ same_elem a b }
{
    match (a, b) {
        (Elem::Name(n), Elem::Name(m)) => n == m,
        (Elem::Index(i), Elem::Index(j)) => i == j,
        (Elem::Var(k), Elem::Var(l)) => k == l,
        (Elem::AnyIndex, Elem::AnyIndex) => true,
        _ => false,
    }
}

/// Whether the elements at each position that both lists have are the same.
fn all_same(a: &[Elem], b: &[Elem]) -> bool
    ensures { result ≡ list_all (λ pair. same_elem pair.0 pair.1) (zip a.now b.now) }
{
    a.iter().zip(b).all(|(x, y)| same_elem(*x, *y))
}

/// Whether two lists have the same elements in the same order.
fn same_elems(a: &[Elem], b: &[Elem]) -> bool
    ensures { result ≡ same_elems a.now b.now }
{
    a.len() == b.len() && all_same(a, b)
}

/// Whether two paths are the same.
fn same_path(a: &Path, b: &Path) -> bool
    ensures { result ≡ same_path a.now b.now }
{
    same_elems(a.elems().as_slice(), b.elems().as_slice())
        && (same_truth(a.star(), b.star()) && same_elems(a.tail().as_slice(), b.tail().as_slice()))
}

/// Whether two effects are the same.
pub(crate) fn same_effect(a: &Effect, b: &Effect) -> bool
    ensures { result ≡ same_effect a.now b.now }
{
    same_truth(a.write, b.write) && same_path(&a.path, &b.path)
}
