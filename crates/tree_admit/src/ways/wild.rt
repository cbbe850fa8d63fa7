//! Whether a path has a wildcard.
ghost use Rattle.std.specs.Prelude.{◌≡◌, ◌↔◌, IsTrue};
ghost use Rattle.std.specs.List.{list_all};
ghost use Rattle.region_paths.specs.Filled.{is_solid};
ghost use Rattle.effect_tree.specs.Place.{IsSolid};

use region_paths::{Elem, Path};

/// Whether an element is a name or a literal index.
pub(crate) fn is_fixed(elem: Elem) -> bool
    ensures { result ≡ is_solid elem }
{
    match elem {
        Elem::Name(_) | Elem::Index(_) => true,
        Elem::Var(_) | Elem::AnyIndex => false,
    }
}

/// Whether all elements are names or literal indexes.
fn all_are_fixed(elems: &[Elem]) -> bool
    ensures { result ≡ list_all is_solid elems.now }
{
    elems.iter().all(|elem| is_fixed(*elem))
}

/// Whether each element of the path is a name or a literal index, and there is no star.
pub fn is_solid(path: &Path) -> bool
    ensures { IsTrue result ↔ IsSolid path.now }
{
    !path.star() && all_are_fixed(path.elems().as_slice())
}
