//! Laws: how the tasks of a program that keeps the rules on effects relate to one another in each state of a run.
//!
//! A reached state is one that a legal journal leads to. Each beginning of a legal journal is legal, so what holds in
//! every reached state holds at every moment of every run.
ghost use Rattle.std.specs.Prelude.{ℕ, List, take};
ghost use Rattle.seg_journal.specs.declared.journal.Entry.{Entry};
ghost use Rattle.twe_base.specs.Limits.{Bounds};
ghost use Rattle.twe_program.specs.Program.{Program};
ghost use Rattle.twe_program.specs.WellFormed.{IsWellFormed};
ghost use Rattle.isolation_laws.specs.soundness.KeepsEffects.{KeepsEffects};
ghost use Rattle.machine_state.specs.declared.state.State.{State};
ghost use Rattle.machine_state.specs.Runs.{AlwaysIsolated, IsReached, Legal, state_after};
ghost use Rattle.isolation_laws.specs.Admission.{ChildrenInside, LastMakersAreFree, MadeTasksAreAlone, ParentsAreEnabledOrFaulted, WaitersAreEnabled};
ghost use Rattle.isolation_laws.specs.Conflicts.{AccessesAreCovered, AlwaysCovered, MoversApart};
ghost use Rattle.isolation_laws.specs.Rows.{ChildrenApart, RowsKeepToDeclarations};
ghost use Rattle.isolation_laws.specs.Within.{AlwaysWithin, SpawnedWithin};

/// Each beginning of a legal journal is a legal journal.
pub fn beginnings_of_legal_journals_are_legal()
    ensures { (p : Program) (lim : Bounds) (journal : List Entry) (n : ℕ)
        → Legal p lim journal → Legal p lim (take n journal) }
{}

/// After each beginning of a legal journal, of two enabled tasks that interfere one yields to the other, a spawned
/// task's effects lie within those of the task that spawned it, and each access that a task may make next is covered.
pub fn accepted_runs_are_isolated()
    ensures isolated { (p : Program) → IsWellFormed p → KeepsEffects p
        → (lim : Bounds) (journal : List Entry) → Legal p lim journal → AlwaysIsolated p lim journal }
    ensures within { (p : Program) → IsWellFormed p → KeepsEffects p
        → (lim : Bounds) (journal : List Entry) → Legal p lim journal → AlwaysWithin p lim journal }
    ensures covered { (p : Program) → IsWellFormed p → KeepsEffects p
        → (lim : Bounds) (journal : List Entry) → Legal p lim journal → AlwaysCovered p lim journal }
{}

/// In each reached state, each task runs its declaration with its arguments, and its effects are those of the
/// declaration's summary, filled with these arguments.
pub fn tasks_keep_to_their_declarations()
    ensures { (p : Program) → IsWellFormed p → KeepsEffects p
        → (lim : Bounds) (st : State) → IsReached p lim st → RowsKeepToDeclarations p st }
{}

/// In each reached state, a spawned task's effects lie within those of the task that spawned it, and the effects of two
/// different unjoined children of one task do not interfere.
pub fn children_stay_within_and_apart()
    ensures within { (p : Program) → IsWellFormed p → KeepsEffects p
        → (lim : Bounds) (st : State) → IsReached p lim st → SpawnedWithin st }
    ensures apart { (p : Program) → IsWellFormed p → KeepsEffects p
        → (lim : Bounds) (st : State) → IsReached p lim st → ChildrenApart st }
{}

/// In each reached state, each access that a task makes in its next segment while it may run is covered for it, whatever
/// values the cells have: it lies within one effect of the task, and interferes with no effect of an unjoined child but
/// the one that this segment joins. So no accesses of two tasks that may both run conflict.
pub fn tasks_that_may_run_do_not_conflict()
    ensures covered { (p : Program) → IsWellFormed p → KeepsEffects p
        → (lim : Bounds) (st : State) → IsReached p lim st → AccessesAreCovered p st }
    ensures movers { (p : Program) → IsWellFormed p → KeepsEffects p
        → (lim : Bounds) (st : State) → IsReached p lim st → MoversApart p st }
{}

/// In each reached state, the tasks meet the conditions that admission by the effect tree asks of them. Each effect of an
/// unjoined child lies inside one effect of its parent, by the test on paths. A task whose next operation is a wait is
/// enabled. A task that has an unjoined child is enabled, or has met a fault. A task that is not admitted yet has no
/// parent and no unjoined child, and waits for nobody. After a legal journal, a task whose last entry made a task waits
/// for nobody. Two more conditions are laws of their own: isolation (`accepted_runs_are_isolated`), and that unjoined
/// children of one task do not interfere (`children_stay_within_and_apart`).
pub fn states_are_fit_for_admission()
    ensures inside { (p : Program) → IsWellFormed p → KeepsEffects p
        → (lim : Bounds) (st : State) → IsReached p lim st → ChildrenInside st }
    ensures waiters { (p : Program) → IsWellFormed p
        → (lim : Bounds) (st : State) → IsReached p lim st → WaitersAreEnabled st }
    ensures parents { (p : Program) → IsWellFormed p
        → (lim : Bounds) (st : State) → IsReached p lim st → ParentsAreEnabledOrFaulted st }
    ensures made { (p : Program) → IsWellFormed p
        → (lim : Bounds) (st : State) → IsReached p lim st → MadeTasksAreAlone st }
    ensures last_makers { (p : Program) → IsWellFormed p
        → (lim : Bounds) (journal : List Entry) → Legal p lim journal
        → LastMakersAreFree journal (state_after p lim journal) }
{}
