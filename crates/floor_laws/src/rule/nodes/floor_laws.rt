//! The laws on the steps of the floor, beside which the nodes keep their rule. A step on a turn is one event of the core of
//! admission on its tasks; the others change nothing that the core knows.
ghost use Rattle.std.specs.Prelude.{◌≡◌, ◌≢◌, ◌+◌, ◌++◌, ◌<◌, ℕ, ℤ, List, [], ◌∷◌, None, Some, false};
ghost use Rattle.region_paths.specs.declared.elements.Elem.{Elem};
ghost use Rattle.twe_base.specs.Limits.{Bounds};
ghost use Rattle.twe_program.specs.Program.{Program};
ghost use Rattle.seg_meaning.specs.declared.frame.Frame.{Frame};
ghost use Rattle.seg_meaning.specs.declared.stop.Stop.{Stop};
ghost use Rattle.seg_journal.specs.declared.numbered.NumberedEntry.{NumberedEntry};
ghost use Rattle.floor_laws.specs.declared.rule.view.HeldTurn.{HeldTurn};
ghost use Rattle.floor_laws.specs.declared.rule.view.Phase.{Phase};
ghost use Rattle.floor_laws.specs.rule.Floors.{Floor, Free};
ghost use Rattle.floor_laws.specs.rule.Steps.{MayCommit, after_entry, after_finding_done, after_giving, after_join, after_load, after_phase};
ghost use Rattle.floor_laws.specs.rule.Steps.{after_split, after_store, after_taking, entry_drawn};
ghost use Rattle.floor_laws.specs.admission.admission_core.States.{IsAmong, Record, State};
ghost use Rattle.floor_laws.specs.rule.Rule.{KeepsRule};
ghost use Rattle.floor_laws.specs.rule.nodes.AdmitSteps.{MayDrawAdmission, admission_drawn, after_admission};
ghost use Rattle.floor_laws.specs.rule.nodes.Rule.{KeepsBoth, KeepsNodes};
ghost use Rattle.floor_laws.specs.rule.nodes.Trees.{Tree};
ghost use Rattle.floor_laws.specs.rule.nodes.TurnSteps.{HasPlacedChildren, IsTaskEvent, MayGiveFirst, MayGiveTaken, after_forgetting, after_joining};

/// Steps on cells and on phases, and what a seat learns from them, change nothing of the nodes.
pub fn cells_and_phases_leave_the_nodes()
    ensures load { (nodes : List (List Elem)) (p : Program) (lim : Bounds) (log : List NumberedEntry) (f : Floor) (tree : Tree)
        (core : State) (i t c : ℕ) (value : ℤ) → KeepsNodes nodes p lim log f tree core
        → KeepsNodes nodes p lim log (after_load f i t c value) tree core }
    ensures store { (nodes : List (List Elem)) (p : Program) (lim : Bounds) (log : List NumberedEntry) (f : Floor) (tree : Tree)
        (core : State) (i t c : ℕ) (value : ℤ) → KeepsNodes nodes p lim log f tree core
        → KeepsNodes nodes p lim log (after_store f i t c value) tree core }
    ensures done { (nodes : List (List Elem)) (p : Program) (lim : Bounds) (log : List NumberedEntry) (f : Floor) (tree : Tree)
        (core : State) (i t : ℕ) (value : ℤ) → KeepsNodes nodes p lim log f tree core
        → KeepsNodes nodes p lim log (after_finding_done f i t value) tree core }
    ensures phase { (nodes : List (List Elem)) (p : Program) (lim : Bounds) (log : List NumberedEntry) (f : Floor) (tree : Tree)
        (core : State) (i t : ℕ) (turn : HeldTurn) (phase : Phase) → KeepsNodes nodes p lim log f tree core
        → f.held i t ≡ Some turn → KeepsNodes nodes p lim log (after_phase f i t turn phase) tree core }
{}

/// If a seat takes a free turn, no record of the task stands that would have to be of its own.
pub fn taking_a_turn_keeps_the_nodes()
    ensures { (nodes : List (List Elem)) (p : Program) (lim : Bounds) (log : List NumberedEntry) (f : Floor) (tree : Tree)
        (core : State) (i t : ℕ) (turn : HeldTurn) → KeepsBoth nodes p lim log f tree core → f.turns t ≡ Free → turn.first ≡ false
        → IsTaskEvent nodes p lim log (after_taking f i t turn) tree core }
{}

/// A seat may give a turn that it took, if it does nothing in the tree, has placed all of its task's children, and leaves no
/// record of a task that is not enabled.
pub fn giving_a_turn_keeps_the_nodes()
    ensures { (nodes : List (List Elem)) (p : Program) (lim : Bounds) (log : List NumberedEntry) (f : Floor) (tree : Tree)
        (core : State) (i t : ℕ) (turn : HeldTurn) → KeepsBoth nodes p lim log f tree core
        → MayGiveTaken nodes f.held tree i t turn
        → IsTaskEvent nodes p lim log (after_giving f i t turn) (after_forgetting tree i t) core }
{}

/// A seat may give the first turn of a task, if it has placed a record for each effect of a spawned one.
pub fn giving_a_first_turn_keeps_the_nodes()
    ensures { (nodes : List (List Elem)) (p : Program) (lim : Bounds) (log : List NumberedEntry) (f : Floor) (tree : Tree)
        (core : State) (i t : ℕ) (turn : HeldTurn) → KeepsBoth nodes p lim log f tree core
        → MayGiveFirst nodes f.held tree i t turn
        → IsTaskEvent nodes p lim log (after_giving f i t turn) (after_forgetting tree i t) core }
{}

/// An entry of a segment keeps the rule on nodes, if the seat has placed all children of its task.
pub fn entries_keep_the_nodes()
    ensures { (nodes : List (List Elem)) (p : Program) (lim : Bounds) (log : List NumberedEntry) (f : Floor) (tree : Tree)
        (core : State) (i t : ℕ) (turn : HeldTurn) (frame : Frame) (stop : Stop) → KeepsBoth nodes p lim log f tree core
        → MayCommit p f i t turn frame stop → HasPlacedChildren f.held i t
        → IsTaskEvent nodes p lim (log ++ entry_drawn lim f t frame stop ∷ []) (after_entry lim f i t turn frame stop) tree core }
{}

/// A seat that has placed a record for each effect of a task that is still to be admitted may draw the task's admission.
/// The floor keeps its rule, with the log that has the entry, and the nodes keep theirs.
pub fn admissions_keep_the_rules()
    ensures floor { (nodes : List (List Elem)) (p : Program) (lim : Bounds) (log : List NumberedEntry) (f : Floor) (tree : Tree)
        (core : State) (i t : ℕ) → KeepsBoth nodes p lim log f tree core → (may : MayDrawAdmission nodes f.held tree i t)
        → KeepsRule p lim (log ++ admission_drawn f t ∷ []) (after_admission f i t may.placed.turn) }
    ensures nodes { (nodes : List (List Elem)) (p : Program) (lim : Bounds) (log : List NumberedEntry) (f : Floor) (tree : Tree)
        (core : State) (i t : ℕ) → KeepsBoth nodes p lim log f tree core → (may : MayDrawAdmission nodes f.held tree i t)
        → IsTaskEvent nodes p lim (log ++ admission_drawn f t ∷ []) (after_admission f i t may.placed.turn) tree core }
{}

/// The task that is made next has nothing in the tree: no seat has placed a record of it. So the first turn of a task that is
/// to be admitted can be given at once.
pub fn the_next_task_has_no_record()
    ensures { (nodes : List (List Elem)) (p : Program) (lim : Bounds) (log : List NumberedEntry) (f : Floor) (tree : Tree)
        (core : State) (i : ℕ) (r : Record) → KeepsBoth nodes p lim log f tree core → f.asked + 1 < lim.tasks
        → IsAmong r (tree.fresh i) → r.task ≢ f.asked + 1 }
{}

/// A new seat, which does nothing in the tree, keeps the rule, and so does a seat that is joined to another.
pub fn seats_keep_the_nodes()
    ensures split { (nodes : List (List Elem)) (p : Program) (lim : Bounds) (log : List NumberedEntry) (f : Floor) (tree : Tree)
        (core : State) (i worker : ℕ) → KeepsNodes nodes p lim log f tree core → tree.activities i ≡ None
        → KeepsNodes nodes p lim log (after_split f i worker) tree core }
    ensures join { (nodes : List (List Elem)) (p : Program) (lim : Bounds) (log : List NumberedEntry) (f : Floor) (tree : Tree)
        (core : State) (i j : ℕ) → KeepsNodes nodes p lim log f tree core → j ≢ i
        → KeepsNodes nodes p lim log (after_join f i j) (after_joining tree i j) core }
{}
