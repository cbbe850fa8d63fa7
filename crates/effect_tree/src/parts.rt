//! The elements of paths of which nodes are made: those that are neither variables nor wildcards.
ghost use Rattle.std.specs.Prelude.{◌≡◌, take_while, map, IfOk};
ghost use Rattle.region_paths.specs.Filled.{is_solid};
ghost use Rattle.effect_tree.specs.inner.Parts.{part_of, elem_of};

use prefix_tree::Part;
use region_paths::Elem;
use std::alloc::Global;
use twe_base::Memory;

/// The part that an element is, or `None` for a variable or a wildcard.
pub(crate) fn part(elem: Elem) -> Option<Part>
    ensures { result ≡ part_of elem }
{
    match elem {
        Elem::Name(n) => Some(Part::Name(n)),
        Elem::Index(i) => Some(Part::Index(i64::from(i))),
        Elem::Var(_) => None,
        Elem::AnyIndex => None,
    }
}

/// The solid elements at the front of a path, as parts.
pub(crate) fn solid_parts(alloc: Global, elems: &[Elem]) -> Result<Vec<Part>, Memory>
    ensures { IfOk result (λ parts. map elem_of parts.items ≡ take_while is_solid elems.now) }
{
    let mut parts = Vec::new(alloc);
    for elem in elems {
        let Some(next) = part(*elem) else {
            return Ok(parts);
        };
        parts.push(next)?;
    }
    Ok(parts)
}
