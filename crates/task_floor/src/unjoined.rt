//! Which tasks are unjoined children.
ghost use Rattle.std.specs.Prelude.{◌≡◌, ◌<◌, ◌||◌, ◌==◌, ℕ, false, length, slice_index_or};
ghost use Rattle.std.specs.List.{list_any};

use twe_base::List;

/// Marks these tasks, which are the unjoined children of one task. A task that has no mark is passed over.
pub(crate) fn mark(marks: &mut List<bool>, tasks: &[u32])
    ensures size { length marks.new ≡ length marks.old }
    ensures marks { (c : ℕ) → c < length marks.old
        → slice_index_or marks.new c false ≡ slice_index_or marks.old c false || list_any (λ (k : ℕ). k == c) tasks.now }
{
    for task in tasks {
        let at = *task as usize;
        if at < marks.len() {
            marks.set(at, true);
        }
    }
}
