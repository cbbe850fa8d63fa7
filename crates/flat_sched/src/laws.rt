//! Laws of stuck runs.
ghost use Rattle.std.specs.Prelude.{◌≡◌, List};
ghost use Rattle.twe_base.specs.Limits.{Bounds, IsWithin};
ghost use Rattle.wait_graph.specs.declared.stuck.Edge.{Edge};
ghost use Rattle.twe_program.specs.Program.{Program};
ghost use Rattle.twe_program.specs.WellFormed.{IsWellFormed};
ghost use Rattle.machine_state.specs.declared.ending.Outcome.TheVariants.{Stuck};
ghost use Rattle.machine_state.specs.declared.state.State.{State};
ghost use Rattle.machine_state.specs.Runs.{IsOutcome, IsReached};
ghost use Rattle.flat_sched.specs.Stuck.{IsCycleOfReasons, IsStuckCycle};

use machine_state::{links_agree, links_are_in_order};
use wait_graph::a_stuck_cycle_goes_round;

/// A state has at most one stuck cycle.
pub fn one_stuck_cycle()
    ensures { (st : State) (cycle other : List Edge) → IsStuckCycle st cycle → IsStuckCycle st other → cycle ≡ other }
{}

/// In each reached state that is stuck, each edge of the stuck cycle is a wait or leads to the lowest bar. The edges
/// go round once: the cycle is closed, and no task stands in it twice.
pub fn stuck_cycles_have_true_edges()
    ensures { (p : Program) (lim : Bounds) (st : State) (cycle : List Edge) → IsWellFormed p
        → IsWithin lim.fuel lim.tasks → IsReached p lim st → IsOutcome st Stuck → IsStuckCycle st cycle
        → IsCycleOfReasons st cycle }
{
    links_agree();
    links_are_in_order();
    a_stuck_cycle_goes_round();
}
