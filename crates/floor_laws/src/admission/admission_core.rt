//! The core of admission: what workers do in the effect tree, as a machine that has no threads. It has states and events,
//! and each event is one step on one lock, one record or one task.
//!
//! Whatever the workers do, and in whatever order, a task all of whose records stand may be admitted: each enabled task
//! that interferes with it yields to it.
ghost use Rattle.std.specs.Prelude.{◌≡◌, ℕ, List};
ghost use Rattle.region_paths.specs.declared.elements.Elem.{Elem};
ghost use Rattle.prefix_tree.specs.Nodes.{IsTreeOfPaths};
ghost use Rattle.floor_laws.specs.admission.admission_core.Tasks.{Task, Made, IsTask};
ghost use Rattle.floor_laws.specs.admission.admission_core.Conditions.{MeetsConditions};
ghost use Rattle.floor_laws.specs.admission.admission_core.States.{State};
ghost use Rattle.floor_laws.specs.admission.admission_core.Entries.{AllStand};
ghost use Rattle.floor_laws.specs.admission.admission_core.Rule.{DescentsSawPass, EnabledStand, FinishedAreFree, CoreIsQuiet, CoreIsReached, IsStart, LocksAreHeldOnce, OthersYieldTo, RecordsYield, UnplacedAreBorn, WalksSawPass};

/// The start of a run is quiet, so events may lead from it.
pub fn a_run_starts_quiet()
    ensures { (nodes : List (List Elem)) (s : State) → IsStart s → CoreIsQuiet nodes s }
{}

/// The rule of admission holds in each state that events lead to.
pub fn events_keep_the_rule()
    // Of two live tasks that have records that interfere, one yields to the other.
    ensures records { (nodes : List (List Elem)) (s : State) → IsTreeOfPaths nodes → CoreIsReached nodes s → RecordsYield s }
    // For a descent, each record strictly above its last node passes.
    ensures descents { (nodes : List (List Elem)) (s : State) → IsTreeOfPaths nodes → CoreIsReached nodes s
        → DescentsSawPass nodes s }
    // For a walk, each record strictly above its last node passes, and so does each at or below a finished node, and each at
    // a node that is apart from the effect with all that lies below it.
    ensures walks { (nodes : List (List Elem)) (s : State) → IsTreeOfPaths nodes → CoreIsReached nodes s
        → WalksSawPass nodes s }
    // No lock at or below a finished node of a walk is held, except of nodes that are apart from its effect with all that
    // lies below them.
    ensures finished { (nodes : List (List Elem)) (s : State) → IsTreeOfPaths nodes → CoreIsReached nodes s
        → FinishedAreFree nodes s }
    // No lock is held by two workers.
    ensures locks { (nodes : List (List Elem)) (s : State) → IsTreeOfPaths nodes → CoreIsReached nodes s
        → LocksAreHeldOnce s }
    // An enabled task has a record for each effect, unless it is a spawned child that is still to be placed.
    ensures enabled { (nodes : List (List Elem)) (s : State) → IsTreeOfPaths nodes → CoreIsReached nodes s
        → EnabledStand nodes s }
    // Such a child is enabled. Its parent's last entry made it, the worker that has its first turn has the parent's turn,
    // and the parent is enabled and placed.
    ensures unplaced { (nodes : List (List Elem)) (s : State) → IsTreeOfPaths nodes → CoreIsReached nodes s
        → UnplacedAreBorn s.tasks }
    // The tasks keep meeting what the core asks of them. An admission is no exception: the tasks stay isolated.
    ensures conditions { (nodes : List (List Elem)) (s : State) → IsTreeOfPaths nodes → CoreIsReached nodes s
        → MeetsConditions s.tasks }
{}

/// If all records of a task that is still to be admitted stand, each other enabled task that interferes with it yields to
/// it.
pub fn a_placed_task_may_be_admitted()
    ensures { (nodes : List (List Elem)) (s : State) (t : ℕ) (task : Task) → IsTreeOfPaths nodes → CoreIsReached nodes s
        → IsTask s.tasks t task → task.status ≡ Made → AllStand nodes s.records t task → OthersYieldTo s.tasks t }
{}
