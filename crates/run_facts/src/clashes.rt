//! The effects for which one task holds another.
ghost use Rattle.std.specs.Prelude.{◌≡◌, option_copied};
ghost use Rattle.std.specs.List.{list_any};
ghost use Rattle.effect_sets.specs.Interference.{statically_interferes};
ghost use Rattle.run_facts.specs.Clashes.{effects_of_task, first_clashing};

use effect_sets::{Effect, interferes};
use machine_state::State;

/// Whether the effect interferes with one of the others.
fn clashes(effect: &Effect, others: &[Effect]) -> bool
    ensures { result ≡ list_any (λ other. statically_interferes effect.now other) others.now }
{
    others.iter().any(|other| interferes(effect, other))
}

/// The first of the effects that interferes with one of the others, if one does.
pub fn first_clashing<'a>(effects: &'a [Effect], others: &[Effect]) -> Option<&'a Effect>
    ensures { option_copied result ≡ first_clashing effects.now others.now }
{
    for effect in effects {
        if clashes(effect, others) {
            return Some(effect);
        }
    }
    None
}

/// The effects of a task; none if there is no such task.
pub fn effects_of_task(st: &State, task: u32) -> &[Effect]
    ensures { result.now ≡ effects_of_task st.now task }
{
    match st.tasks.get(task as usize) {
        None => &[],
        Some(row) => row.effects.effects.as_slice(),
    }
}
