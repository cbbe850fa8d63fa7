//! Which task holds back the admission of another.
ghost use Rattle.std.specs.Prelude.{ℕ, IfSome, IfNone};
ghost use Rattle.twe_program.specs.Program.{Program};
ghost use Rattle.twe_program.specs.WellFormed.{IsWellFormed};
ghost use Rattle.machine_state.specs.declared.state.TaskStatus.TheVariants.{Made};
ghost use Rattle.machine_state.specs.Legal.{IsBar};
ghost use Rattle.machine_state.specs.Rows.{HasStatus};
ghost use Rattle.machine_state.specs.Runs.{IsReachable};
ghost use Rattle.flat_sched.specs.Stuck.{IsLowestBar};

use machine_state::{State, effects_are_filled, links_agree};
use twe_machine::bar;

/// The lowest bar to a task that was made and not admitted, if it has a bar, in a reached state of some well-formed
/// program. It takes no memory.
pub fn held_by(st: &State, t: u32) -> Option<u32>
    requires reachable { (p : Program) × IsWellFormed p × IsReachable p st.now }
    requires made { HasStatus st.now t Made }
    ensures some { IfSome result (λ s. IsLowestBar st.now s t) }
    ensures none { IfNone result ((s : ℕ) → ¬ IsBar st.now s t) }
{
    links_agree();
    effects_are_filled();
    bar(st, t)
}
