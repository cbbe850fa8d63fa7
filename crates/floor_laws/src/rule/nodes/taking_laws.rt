//! What a seat learns of the nodes when it takes a turn, and that it may give the turn again as it was.
ghost use Rattle.std.specs.Prelude.{◌≡◌, ◌≢◌, ℕ, List, None, Some, false};
ghost use Rattle.region_paths.specs.declared.elements.Elem.{Elem};
ghost use Rattle.twe_base.specs.Limits.{Bounds};
ghost use Rattle.twe_program.specs.Program.{Program};
ghost use Rattle.machine_state.specs.Runs.{state_after};
ghost use Rattle.seg_journal.specs.declared.numbered.NumberedEntry.{NumberedEntry};
ghost use Rattle.seg_journal.specs.Merging.{journal_of};
ghost use Rattle.floor_laws.specs.declared.rule.view.HeldTurn.{HeldTurn};
ghost use Rattle.floor_laws.specs.rule.Fitting.{RowIs, Turns};
ghost use Rattle.floor_laws.specs.rule.Floors.{Floor, Free};
ghost use Rattle.floor_laws.specs.rule.Steps.{after_taking};
ghost use Rattle.floor_laws.specs.admission.admission_core.States.{IsAmong, Record, State};
ghost use Rattle.floor_laws.specs.rule.nodes.Rule.{KeepsBoth};
ghost use Rattle.floor_laws.specs.rule.nodes.Taking.{after_taking_up, clear_after_taking};
ghost use Rattle.floor_laws.specs.rule.nodes.Trees.{Tree};
ghost use Rattle.floor_laws.specs.rule.nodes.TurnSteps.{HasPlacedChildren, IsTaskEvent, MayGiveTaken};

/// A seat that takes the free turn of a task which is not enabled knows that no record of the task's effects stands at any node.
/// Whatever the task's status, the seat has placed no record of it since it got a turn of it, and each spawned child of it is
/// placed.
pub fn taking_a_turn_tells_of_the_nodes()
    ensures clear { (nodes : List (List Elem)) (p : Program) (lim : Bounds) (log : List NumberedEntry) (f : Floor) (tree : Tree)
        (core : State) (i t : ℕ) (turn : HeldTurn) → KeepsBoth nodes p lim log f tree core → f.turns t ≡ Free → turn.first ≡ false
        → RowIs (state_after p lim (journal_of log)) t turn.row
        → IsTaskEvent nodes p lim log (after_taking f i t turn) (after_taking_up nodes tree i t turn.row) core }
    ensures fresh { (nodes : List (List Elem)) (p : Program) (lim : Bounds) (log : List NumberedEntry) (f : Floor) (tree : Tree)
        (core : State) (i t : ℕ) (r : Record) → KeepsBoth nodes p lim log f tree core → f.turns t ≡ Free
        → IsAmong r (tree.fresh i) → r.task ≢ t }
    ensures children { (nodes : List (List Elem)) (p : Program) (lim : Bounds) (log : List NumberedEntry) (f : Floor)
        (tree : Tree) (core : State) (i t : ℕ) → KeepsBoth nodes p lim log f tree core → f.turns t ≡ Free
        → HasPlacedChildren f.held i t }
{}

/// A seat that took a turn may give it again as it was, whatever the task's status, if it does nothing in the tree and knows what
/// it learned when it took the turn.
pub fn a_turn_may_be_given_as_it_was_taken()
    ensures { (nodes : List (List Elem)) (turns : Turns) (tree : Tree) (i t : ℕ) (turn : HeldTurn) (clear : List Record)
        → turns i t ≡ Some turn → turn.first ≡ false → tree.activities i ≡ None → HasPlacedChildren turns i t
        → ((r : Record) → IsAmong r (tree.fresh i) → r.task ≢ t)
        → tree.clear i ≡ clear_after_taking nodes t turn.row.status turn.row.effects.effects clear
        → MayGiveTaken nodes turns tree i t turn }
{}
