//! What is asked of an effect before it is shown to people.
ghost use Rattle.std.specs.Prelude.{◌≡◌};
ghost use Rattle.std.specs.List.{list_any};
ghost use Rattle.refusal_notes.specs.Effects.{has_any_index, is_any_index};

use region_paths::{Elem, Path};

/// Whether the element is any index.
fn is_any_index(elem: Elem) -> bool
    ensures { result ≡ is_any_index elem }
{
    matches!(elem, Elem::AnyIndex)
}

/// Whether some index of the path counts as any.
pub fn has_any_index(path: &Path) -> bool
    ensures { result ≡ has_any_index path.now }
{
    path.elems()
        .as_slice()
        .iter()
        .any(|elem| is_any_index(*elem))
}
