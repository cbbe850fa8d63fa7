//! The best of the tasks that are not shown.
ghost use Rattle.std.specs.Prelude.{◌≡◌, ◌<◌, ◌+◌, false, length};
ghost use Rattle.twe_draw.specs.picture.Choice.{is_flagged};
ghost use Rattle.twe_draw.specs.picture.inner.Best.{IsBest, IsFirstLeft};

use crate::picture::flags::is_flagged;

/// Of the first of those before a task that is not shown and that task the one that comes first.
fn first_of_two(works: &[u128], shown: &[bool], before: usize, task: usize) -> usize
    requires below { task < length works.now }
    requires first { IsFirstLeft works.now shown.now task before }
    requires left { is_flagged shown.now task ≡ false }
    ensures { IsFirstLeft works.now shown.now (task + 1) result }
{
    let _shown = shown;
    if works[before] < works[task] {
        task
    } else {
        before
    }
}

/// The best of those up to a task, that was this one of those before it.
fn best_with(works: &[u128], shown: &[bool], best: Option<usize>, task: usize) -> Option<usize>
    requires below { task < length works.now }
    requires best { IsBest works.now shown.now task best }
    ensures { IsBest works.now shown.now (task + 1) result }
{
    if is_flagged(shown, task) {
        return best;
    }
    match best {
        None => Some(task),
        Some(before) => Some(first_of_two(works, shown, before, task)),
    }
}

/// The best of the tasks that are not shown, if there is one.
pub(crate) fn best_left(works: &[u128], shown: &[bool]) -> Option<usize>
    ensures { IsBest works.now shown.now (length works.now) result }
{
    let mut best = None;
    for task in 0..works.len() {
        best = best_with(works, shown, best, task);
    }
    best
}
