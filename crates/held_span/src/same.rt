//! Whether effects are written the same.
ghost use Rattle.std.specs.Prelude.{◌≡◌, IsTrue};

use effect_sets::Effect;
use region_paths::{Elem, Path};

/// Whether two lists of elements are the same.
fn same_elems(a: &[Elem], b: &[Elem]) -> bool
    ensures { IsTrue result → a.now ≡ b.now }
{
    a == b
}

/// Whether two paths are found to be written the same.
fn same_paths(a: &Path, b: &Path) -> bool
    ensures { IsTrue result → a.now ≡ b.now }
{
    a.star() == b.star()
        && same_elems(a.elems().as_slice(), b.elems().as_slice())
        && same_elems(a.tail().as_slice(), b.tail().as_slice())
}

/// Whether two effects are found to be written the same.
pub(crate) fn same_effects(a: &Effect, b: &Effect) -> bool
    ensures { IsTrue result → a.now ≡ b.now }
{
    a.write == b.write && same_paths(&a.path, &b.path)
}
