//! The laws on what workers learn of nodes and of waits, and the law that admission rests on.
ghost use Rattle.std.specs.Prelude.{◌≡◌, ℕ, List, Some};
ghost use Rattle.region_paths.specs.declared.elements.Elem.{Elem};
ghost use Rattle.twe_base.specs.Limits.{Bounds};
ghost use Rattle.twe_program.specs.Program.{Program};
ghost use Rattle.machine_state.specs.Legal.{MayAdmit};
ghost use Rattle.machine_state.specs.Runs.{state_after};
ghost use Rattle.seg_journal.specs.declared.numbered.NumberedEntry.{NumberedEntry};
ghost use Rattle.seg_journal.specs.Merging.{journal_of};
ghost use Rattle.floor_laws.specs.declared.rule.view.HeldTurn.{HeldTurn};
ghost use Rattle.floor_laws.specs.declared.rule.view.Phase.TheVariants.{Waits};
ghost use Rattle.floor_laws.specs.rule.Floors.{Floor};
ghost use Rattle.floor_laws.specs.admission.admission_core.States.{IsAmong, Record, State};
ghost use Rattle.floor_laws.specs.rule.nodes.Fitting.{IsPlaced};
ghost use Rattle.floor_laws.specs.rule.nodes.FactSteps.{FindsClear, HasOnly, HasPlacedAll, IsInTheWay, IsKnownToWait, IsToPlace, after_finding_clear, after_following};
ghost use Rattle.floor_laws.specs.rule.nodes.Rule.{KeepsBoth, KeepsNodes};
ghost use Rattle.floor_laws.specs.rule.nodes.Trees.{Tree};

/// Each record that stands is of a task that was made and of one of its effects, and stands at that effect's place.
pub fn records_stand_at_their_places()
    ensures { (nodes : List (List Elem)) (p : Program) (lim : Bounds) (log : List NumberedEntry) (f : Floor) (tree : Tree)
        (core : State) (r : Record) → KeepsBoth nodes p lim log f tree core → IsAmong r core.records
        → IsPlaced nodes (state_after p lim (journal_of log)) r }
{}

/// If a worker has placed a record for each effect of a task that is still to be admitted, the admission of the task is
/// legal: each enabled task that interferes with it yields to it.
pub fn a_placed_task_is_legal_to_admit()
    ensures { (nodes : List (List Elem)) (p : Program) (lim : Bounds) (log : List NumberedEntry) (f : Floor) (tree : Tree)
        (core : State) (i t : ℕ) → KeepsBoth nodes p lim log f tree core → HasPlacedAll nodes f.held tree i t
        → MayAdmit (state_after p lim (journal_of log)) t }
{}

/// If no worker has a turn but one that has the turn of a task, and a record stands in the way of that task, then its
/// admission is not legal. So a single worker that meets such a record may leave the task.
pub fn what_is_in_the_way_forbids_the_admission()
    ensures { (nodes : List (List Elem)) (p : Program) (lim : Bounds) (log : List NumberedEntry) (f : Floor) (tree : Tree)
        (core : State) (i t : ℕ) (r : Record) → KeepsBoth nodes p lim log f tree core → HasOnly f.held t
        → IsInTheWay (state_after p lim (journal_of log)) f.held core.records i t r
        → ¬ MayAdmit (state_after p lim (journal_of log)) t }
{}

/// A worker that has the turn of a task, and does not find a record of it in the content of the record's node, knows that it does
/// not stand.
pub fn not_finding_a_record_keeps_the_rule()
    ensures { (nodes : List (List Elem)) (p : Program) (lim : Bounds) (log : List NumberedEntry) (f : Floor) (tree : Tree)
        (core : State) (i : ℕ) (r : Record) → KeepsBoth nodes p lim log f tree core → FindsClear f.held tree i r
        → KeepsNodes nodes p lim log f (after_finding_clear tree i r) core }
{}

/// The content of a node has what a worker has placed there. Of a task that is new or still to be admitted it has nothing else,
/// if the worker has the task's turn.
pub fn a_node_has_what_its_worker_has_placed()
    ensures there { (nodes : List (List Elem)) (p : Program) (lim : Bounds) (log : List NumberedEntry) (f : Floor) (tree : Tree)
        (core : State) (i n : ℕ) (content : List Record) (r : Record) → KeepsBoth nodes p lim log f tree core
        → tree.contents n ≡ Some content → IsAmong r (tree.fresh i) → r.node ≡ n → IsAmong r content }
    ensures own { (nodes : List (List Elem)) (p : Program) (lim : Bounds) (log : List NumberedEntry) (f : Floor) (tree : Tree)
        (core : State) (i n : ℕ) (content : List Record) (r : Record) (turn : HeldTurn) → KeepsBoth nodes p lim log f tree core
        → tree.contents n ≡ Some content → IsAmong r content → f.held i r.task ≡ Some turn → IsToPlace turn
        → IsAmong r (tree.fresh i) }
{}

/// A worker that knows of a chain of waits, and finds that its last task waits for another, knows that chain too.
pub fn following_a_wait_keeps_the_rule()
    ensures { (nodes : List (List Elem)) (p : Program) (lim : Bounds) (log : List NumberedEntry) (f : Floor) (tree : Tree)
        (core : State) (i s u v : ℕ) → KeepsBoth nodes p lim log f tree core → IsKnownToWait (tree.waits i) s u
        → f.phases u ≡ Waits v → KeepsNodes nodes p lim log f (after_following tree i s v) core }
{}
