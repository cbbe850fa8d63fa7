//! Laws of moves that may come first.
ghost use Rattle.std.specs.Prelude.{◌≡◌, ℕ};
ghost use Rattle.twe_base.specs.Limits.{Bounds};
ghost use Rattle.seg_journal.specs.declared.moves.Kind.TheVariants.{Admit, Run};
ghost use Rattle.seg_journal.specs.declared.moves.Move.{Move};
ghost use Rattle.twe_program.specs.Program.{Program};
ghost use Rattle.twe_program.specs.WellFormed.{IsWellFormed};
ghost use Rattle.isolation_laws.specs.soundness.KeepsEffects.{KeepsEffects};
ghost use Rattle.machine_state.specs.declared.state.State.{State};
ghost use Rattle.machine_state.specs.Legal.{MayAdmit, MayMove, MayRun};
ghost use Rattle.machine_state.specs.Moves.{move_result};
ghost use Rattle.machine_state.specs.Runs.{IsReached};
ghost use Rattle.reduction_laws.specs.declared.choice.Choice.{Choice};
ghost use Rattle.reduction_laws.specs.Enough.{IsChosen, IsEnough};
ghost use Rattle.reduction_laws.specs.Meeting.{NothingMeets};
ghost use Rattle.reduction_laws.specs.WaysToEnd.{CanEndSo, HasEndedSo, WayToEnd};

/// In each reached state of an accepted program, a task that may run may run first: in whatever way the run can end, it can end
/// so after the next segment of this task. The segment changes places with the moves before it, or it meets a fault, which it
/// would meet later, too.
pub fn a_task_that_may_run_may_run_first()
    ensures { (p : Program) → IsWellFormed p → KeepsEffects p
        → (lim : Bounds) (st : State) → IsReached p lim st → (t : ℕ) → MayRun st t
        → (way : WayToEnd) → CanEndSo p lim st way
        → CanEndSo p lim (move_result p lim st (record { task = t; kind = Run })).0 way }
{}

/// In each reached state of an accepted program, a task that may be admitted and that nothing meets may be admitted first: in
/// whatever way the run can end, it can end so after this admission.
pub fn an_admission_that_nothing_meets_may_come_first()
    ensures { (p : Program) → IsWellFormed p → KeepsEffects p
        → (lim : Bounds) (st : State) → IsReached p lim st → (t : ℕ) → MayAdmit st t → NothingMeets p st t
        → (way : WayToEnd) → CanEndSo p lim st way
        → CanEndSo p lim (move_result p lim st (record { task = t; kind = Admit })).0 way }
{}

/// So enough moves keep each way to end: if the run can end in some way and has not done so yet, then one of these moves is legal and
/// leads to a state from which the run can end so.
pub fn enough_moves_keep_each_way_to_end()
    ensures { (p : Program) → IsWellFormed p → KeepsEffects p
        → (lim : Bounds) (st : State) → IsReached p lim st → (choice : Choice) → IsEnough p st choice
        → (way : WayToEnd) → CanEndSo p lim st way → ¬ HasEndedSo st way
        → (mv : Move) × IsChosen choice mv × MayMove st mv × CanEndSo p lim (move_result p lim st mv).0 way }
{}
