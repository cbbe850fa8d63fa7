//! The bars to an admission.
ghost use Rattle.std.specs.Prelude.{◌≡◌, ◌≢◌, ◌<◌, ◌↔◌, ℕ, false, length, IfNone, IfSome, IsTrue};
ghost use Rattle.machine_state.specs.declared.state.TaskStatus.TheVariants.{Made, Enabled};
ghost use Rattle.machine_state.specs.Legal.{Interfere, IsBar, MayAdmit};
ghost use Rattle.wait_graph.specs.Waiting.{YieldsTo};
ghost use Rattle.machine_state.specs.Rows.{EffectsAreFilled, HasStatus};
ghost use Rattle.twe_machine.specs.inner.Meeting.{Meets};

use effect_sets::summaries_interfere;
use machine_state::{State, TaskStatus};

/// The lowest task that is a bar to the admission of `t`, if there is one. If there is none and `t` was made, `t` may
/// be admitted. It takes no memory.
pub fn bar(st: &State, t: u32) -> Option<u32>
    requires there { t < length st.now.tasks }
    requires linked { length st.now.links ≡ length st.now.tasks }
    requires filled { EffectsAreFilled st.now }
    ensures some { IfSome result (λ s. IsBar st.now s t) }
    ensures lowest { IfSome result (λ s. (r : ℕ) → r < s → ¬ IsBar st.now r t) }
    ensures none { IfNone result ((s : ℕ) → ¬ IsBar st.now s t) }
    ensures free { IfNone result (HasStatus st.now t Made → MayAdmit st.now t) }
{
    for s in 0..st.links.task_count() {
        if is_bar(st, s, t) {
            return Some(s);
        }
    }
    None
}

/// Whether `s` is a bar to the admission of `t`.
pub(crate) fn is_bar(st: &State, s: u32, t: u32) -> bool
    requires bar { s < length st.now.tasks }
    requires there { t < length st.now.tasks }
    requires linked { length st.now.links ≡ length st.now.tasks }
    requires filled { EffectsAreFilled st.now }
    ensures bar { IsTrue result ↔ IsBar st.now s t }
    ensures yields { result ≡ false → s ≢ t → HasStatus st.now s Enabled → Interfere st.now s t → YieldsTo st.now.links s t }
{
    s != t && is_enabled(st, s) && interfere(st, s, t) && !st.links.yields(s, t)
}

/// Whether `s` meets `t`: it is another task, it is enabled, and its effects interfere with those of `t`.
pub(crate) fn meets(st: &State, s: u32, t: u32) -> bool
    requires { EffectsAreFilled st.now }
    ensures { IsTrue result ↔ Meets st.now s t }
{
    s != t && is_enabled(st, s) && interfere(st, s, t)
}

/// Whether a task was made and is enabled. It takes no memory.
pub fn is_enabled(st: &State, t: u32) -> bool
    ensures { IsTrue result ↔ HasStatus st.now t Enabled }
{
    match st.tasks.get(t as usize) {
        None => false,
        Some(row) => matches!(row.status, TaskStatus::Enabled),
    }
}

/// Whether some effects of two tasks interfere.
fn interfere(st: &State, s: u32, t: u32) -> bool
    requires { EffectsAreFilled st.now }
    ensures { IsTrue result ↔ Interfere st.now s t }
{
    match (st.tasks.get(s as usize), st.tasks.get(t as usize)) {
        (Some(a), Some(b)) => summaries_interfere(&a.effects, &b.effects),
        _ => false,
    }
}
