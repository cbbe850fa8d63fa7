//! Passing over the records that need no walk of their own along the waits.
ghost use Rattle.std.specs.Prelude.{◌≡◌, ◌+◌, ◌≤◌, ℕ, false, IsTrue, Some, slice_get};
ghost use Rattle.floor_laws.specs.admission.admission_core.States.{Record};
ghost use Rattle.tree_admit.specs.Passing.{EachBetween, is_at_ease, is_own_or_meets, is_passed_over};

use effect_sets::{Effect, interferes};
use floor_laws::table::nodes::{NodeContent, NodeRecord};

/// Whether a record passes for an effect of a task whatever is known of waits: it is of that task, or the two effects are apart.
pub(crate) fn passes_at_once(task: u32, effect: &Effect, r: &NodeRecord) -> bool
    ensures { result ≡ is_at_ease task effect.now r.now }
{
    r.task() == task || !interferes(r.effect(), effect)
}

/// Whether a record is of the task `at`, or passes for an effect of a task at once.
fn passes_at(task: u32, effect: &Effect, at: u32, r: &NodeRecord) -> bool
    ensures { result ≡ is_passed_over task effect.now at r.now }
{
    r.task() == at || passes_at_once(task, effect, r)
}

/// Of the first records of a content, `left` of them, passes over those, from the last one on, that are of the task `at` or pass
/// for an effect of a task at once, until one is neither. Returns how many are left.
pub(crate) fn pass_over(
    task: u32,
    effect: &Effect,
    content: &NodeContent,
    left: usize,
    at: u32,
) -> usize
    ensures fewer { result ≤ left }
    ensures passed { EachBetween (λ r. IsTrue (is_passed_over task effect.now at r)) content.now result left }
    ensures stops { (k : ℕ) (r : Record) → result ≡ k + 1 → slice_get content.now k ≡ Some r
        → is_passed_over task effect.now at r ≡ false }
{
    let mut rest = left;
    while rest > 0 {
        let Some(r) = content.get(rest - 1) else {
            return rest;
        };
        if !passes_at(task, effect, at, r) {
            return rest;
        }
        rest -= 1;
    }
    rest
}

/// Whether a record is of the task, or its effect may interfere with this one.
fn own_or_meets(task: u32, effect: &Effect, r: &NodeRecord) -> bool
    ensures { result ≡ is_own_or_meets task effect.now r.now }
{
    r.task() == task || interferes(r.effect(), effect)
}

/// Whether each of the first records of a content, `count` of them, is of the task or may interfere with its effect.
pub(crate) fn none_is_apart(task: u32, effect: &Effect, content: &NodeContent, count: usize) -> bool
    ensures { IsTrue result → EachBetween (λ r. IsTrue (is_own_or_meets task effect.now r)) content.now 0 count }
{
    for at in 0..count {
        let Some(r) = content.get(at) else {
            return false;
        };
        if !own_or_meets(task, effect, r) {
            return false;
        }
    }
    true
}
