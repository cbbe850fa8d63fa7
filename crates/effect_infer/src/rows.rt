//! Lists of lists, one for each method.
ghost use Rattle.std.specs.Prelude.{◌≡◌, ◌<◌, length, IfOk, OnOk};
ghost use Rattle.effect_infer.specs.Rows.{no_rows, with_item};

use std::alloc::Global;
use twe_base::{List, Memory};

/// An empty list for each method.
pub(crate) fn no_rows<T: Drop>(alloc: Global, count: usize) -> Result<List<List<T>>, Memory>
    ensures { IfOk result (λ lists. lists ≡ no_rows count) }
{
    let mut lists = List::new(alloc);
    for at in 0..count {
        let _ = at;
        lists.push(List::new(alloc))?;
    }
    Ok(lists)
}

/// Adds an item to the list of a method.
pub(crate) fn push_to<T: Drop>(lists: &mut List<List<T>>, at: usize, item: T) -> Result<(), Memory>
    requires { at < length lists.old }
    ensures { OnOk result (lists.new ≡ with_item lists.old at item) }
{
    let list = lists.item_mut(at);
    list.push(item)?;
    Ok(())
}
