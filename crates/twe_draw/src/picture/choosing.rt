//! Which tasks are shown.
ghost use Rattle.std.specs.Prelude.{◌≡◌, IfOk, length};
ghost use Rattle.twe_draw.specs.picture.Choice.{AreShown};

use crate::picture::best::best_left;
use crate::picture::flags::how_many;
use std::alloc::Global;
use twe_base::{List, Memory};

/// The tasks that are shown of tasks with these works: those that are needed, and of the others those with the most work, as many
/// in all as there may be at most.
pub fn choose_rows(
    alloc: Global,
    most: usize,
    works: &[u128],
    needed: &[bool],
) -> Result<List<bool>, Memory>
    requires { length needed.now ≡ length works.now }
    ensures { IfOk result (AreShown most works.now needed.now) }
{
    let mut shown = List::from_slice(alloc, needed)?;
    let mut count = how_many(needed);
    'choosing: while count < most {
        match best_left(works, shown.as_slice()) {
            None => return Ok(shown),
            Some(task) => shown.set(task, true),
        }
        count += 1;
    }
    Ok(shown)
}
