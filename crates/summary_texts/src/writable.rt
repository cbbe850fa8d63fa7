//! Whether a text can have a summary.
ghost use Rattle.std.specs.Prelude.{◌≡◌, IfOk};
ghost use Rattle.std.specs.List.{list_all};
ghost use Rattle.summary_texts.specs.Writable.{are_writable, is_writable, is_writable_elem, is_writable_path};

use crate::paths_of;
use effect_sets::Summary;
use region_paths::{Elem, Elems};
use std::alloc::Global;
use twe_base::{MAX_EFFECTS, MAX_PATH_ELEMENTS, Memory};

/// Whether a text can have an element: a literal is not negative.
fn is_writable_elem(elem: Elem) -> bool
    ensures { result ≡ is_writable_elem elem }
{
    match elem {
        Elem::Name(_) => true,
        Elem::Index(index) => index >= 0,
        Elem::Var(_) => true,
        Elem::AnyIndex => true,
    }
}

/// Whether a text can have each of these elements.
fn are_writable_elems(elems: &[Elem]) -> bool
    ensures { result ≡ list_all is_writable_elem elems.now }
{
    elems.iter().all(|elem| is_writable_elem(*elem))
}

/// Whether a text can have a path with these elements.
fn is_writable_path(path: &[Elem]) -> bool
    ensures { result ≡ is_writable_path path.now }
{
    path.len() <= MAX_PATH_ELEMENTS && are_writable_elems(path)
}

/// Whether a text can have each of these paths.
fn are_writable_paths(paths: &[Elems]) -> bool
    ensures { result ≡ list_all is_writable_path paths.now }
{
    paths.iter().all(|path| is_writable_path(path.as_slice()))
}

/// Whether a text can have a summary of these paths: those that are only read, and those that are written.
fn are_writable(reads: &[Elems], writes: &[Elems]) -> bool
    ensures { result ≡ are_writable reads.now writes.now }
{
    are_writable_paths(reads)
        && are_writable_paths(writes)
        && reads.len() + writes.len() <= MAX_EFFECTS
}

/// Whether a text can have the summary: no literal is negative, no path is too long, and there are not too many effects.
pub fn can_be_written(alloc: Global, summary: &Summary) -> Result<bool, Memory>
    ensures { IfOk result (λ can. can ≡ is_writable summary.now) }
{
    let reads = paths_of(alloc, summary, false)?;
    let writes = paths_of(alloc, summary, true)?;
    Ok(are_writable(reads.as_slice(), writes.as_slice()))
}
