//! The elements of a path at the positions of a concrete path of a given length.
ghost use Rattle.std.specs.Prelude.{◌≡◌, IfOk, None, Some, map, replicate};
ghost use Rattle.region_paths.specs.Written.{PathIsWellFormed};
ghost use Rattle.effect_meeting.specs.inner.Aligned.{at_length, common_length, has_length};

use region_paths::{Elem, Path};
use std::alloc::{AllocError, Global};

/// Whether a concrete path of the path may have this length.
pub(crate) fn has_length(path: &Path, long: usize) -> bool
    ensures exact { result ≡ has_length path.now long }
    ensures well_formed { PathIsWellFormed path.now }
{
    let elems = path.elems().as_slice();
    if path.star() {
        elems.len() + path.tail().as_slice().len() <= long
    } else {
        elems.len() == long
    }
}

/// A length that a common concrete path of the paths has, if they have one.
pub(crate) fn common_length(first: &Path, second: &Path) -> usize
    ensures { result ≡ common_length first.now second.now }
{
    let elems = first.elems().as_slice();
    let others = second.elems().as_slice();
    match (first.star(), second.star()) {
        (false, _) => elems.len(),
        (true, false) => others.len(),
        (true, true) => {
            let ends = first.tail().as_slice();
            elems.len().max(others.len()) + ends.len().max(second.tail().as_slice().len())
        }
    }
}

/// These elements.
pub(crate) fn known(alloc: Global, elems: &[Elem]) -> Result<Vec<Option<Elem>>, AllocError>
    ensures { IfOk result (λ list. list.items ≡ map Some elems.now) }
{
    elems.iter().map(|elem| Some(*elem)).collect(alloc)
}

/// As many elements that stand for anything.
pub(crate) fn anything(alloc: Global, count: usize) -> Result<Vec<Option<Elem>>, AllocError>
    ensures { IfOk result (λ list. list.items ≡ replicate count None) }
{
    vec![in alloc; None; count]
}

/// The elements of the path at the positions of a concrete path of this length; `None` where its star stands.
pub(crate) fn at_length(
    alloc: Global,
    path: &Path,
    long: usize,
) -> Result<Vec<Option<Elem>>, AllocError>
    ensures { IfOk result (λ list. list.items ≡ at_length long path.now) }
{
    let elems = path.elems().as_slice();
    let tail = path.tail().as_slice();
    let gap = long.saturating_sub(elems.len() + tail.len());
    let mut list = known(alloc, elems)?;
    let between = anything(alloc, gap)?;
    list.extend_from_slice(between.as_slice())?;
    let ends = known(alloc, tail)?;
    list.extend_from_slice(ends.as_slice())?;
    Ok(list)
}
