//! The law of the pair that a hold counts for.
ghost use Rattle.std.specs.Prelude.{◌≡◌, Some};
ghost use Rattle.twe_base.specs.Limits.{Bounds};
ghost use Rattle.machine_state.specs.declared.state.State.{State};
ghost use Rattle.machine_state.specs.Runs.{IsReached};
ghost use Rattle.twe_program.specs.Program.{Program};
ghost use Rattle.twe_program.specs.WellFormed.{IsWellFormed};
ghost use Rattle.held_span.specs.Ways.{RowsInterfere};
ghost use Rattle.held_span.specs.OfHolds.{IsOfHold};
ghost use Rattle.held_span.specs.Pairs.{pair_of};
ghost use Rattle.held_span.specs.declared.pair.EffectPair.{EffectPair};
ghost use Rattle.held_span.specs.declared.hold.Hold.{Hold};

/// In each reached state a hold of a task by one whose effects interfere with its own counts for a pair: for two declared effects
/// that interfere, filled with the arguments of the two tasks.
pub fn each_hold_counts_for_a_pair()
    ensures { (p : Program) → IsWellFormed p → (lim : Bounds) (st : State) → IsReached p lim st
        → (hold : Hold) → RowsInterfere st.tasks hold.holder hold.task
        → (pair : EffectPair) × (pair_of st.tasks hold ≡ Some pair) × IsOfHold p st.tasks hold pair }
{}
