//! Taking and giving a turn on a table with nodes, for a seat that holds no node.
ghost use Rattle.std.specs.Prelude.{◌≡◌, ◌≢◌, ◌<◌, ◌==◌, ℕ, List, None};
ghost use prog.Atomic.{either};
ghost use Rattle.atomic_table.specs.Table.{Allows, step};
ghost use mathlib.Core.Option.{none};
ghost use Rattle.region_paths.specs.declared.elements.Elem.{Elem};
ghost use Rattle.twe_base.specs.Limits.{Bounds};
ghost use Rattle.twe_program.specs.Program.{Program};
ghost use Rattle.floor_laws.specs.declared.rule.view.HeldTurn.{HeldTurn};
ghost use Rattle.floor_laws.specs.declared.table.view.SeatKind.TheVariants.{Spent};
ghost use Rattle.floor_laws.specs.table.Layout.{free_word, taken_word, turn_place};
ghost use Rattle.floor_laws.specs.declared.table.nodes.slot.TreeSlot.{TreeSlot};
ghost use Rattle.floor_laws.specs.declared.table.nodes.view.TreeView.{TreeView};
ghost use Rattle.floor_laws.specs.table.nodes.FloorSeats.{HasTaskSlots};
ghost use Rattle.floor_laws.specs.table.nodes.Holds.{TreeKeeps};
ghost use Rattle.floor_laws.specs.table.nodes.Layout.{tree_slot_count};
ghost use Rattle.floor_laws.specs.table.nodes.Seats.{TreeSeat};
ghost use Rattle.floor_laws.specs.table.nodes.TurnSeats.{GivesTreeTurn, MayGiveTreeTurn, TookTreeTurn, TriesTreeTurn};

/// A seat may try to take a turn. It asks nothing of nodes. If it took the turn of a task that is not enabled, it knows that no
/// record of the task stands at any node. If it is the only one, it takes the turn of each task that was made, unless it has it.
pub fn a_turn_may_be_tried_beside_nodes()
    ensures { (nodes : List (List Elem)) (p : Program) (lim : Bounds) (id : ℕ) (v : TreeView) (mine : List (ℕ × TreeSlot))
        → HasTaskSlots lim.tasks mine → (t : ℕ) → v.floor.kind ≢ Spent → t < lim.tasks
        → Allows (TreeKeeps nodes p lim) (tree_slot_count nodes lim) id (v, mine) (turn_place p t)
        (λ n. either (n == free_word) (taken_word v.floor.worker) n)
        (TriesTreeTurn nodes p lim (step (tree_slot_count nodes lim) (turn_place p t) free_word (taken_word v.floor.worker) none)
        (v, mine)) }
{}

/// A seat may give a turn, by a store to the turn word, if the task's slot is the latest that it has out and holds what the last
/// entry left, and if it knows enough of the records of the task: none is left that has to be removed, and none is missing.
pub fn a_turn_may_be_given_beside_nodes()
    ensures { (nodes : List (List Elem)) (p : Program) (lim : Bounds) (id : ℕ) (v : TreeView) (mine : List (ℕ × TreeSlot))
        → HasTaskSlots lim.tasks mine → (t : ℕ) (turn : HeldTurn) (rest : List (ℕ × TreeSlot)) → v.floor.kind ≢ Spent
        → t < lim.tasks → MayGiveTreeTurn nodes (v, mine) t turn rest
        → Allows (TreeKeeps nodes p lim) (tree_slot_count nodes lim) id (v, mine) (turn_place p t) (λ n. free_word)
        (λ n. GivesTreeTurn nodes p (step (tree_slot_count nodes lim) (turn_place p t) free_word 0 none) (v, mine) free_word) }
{}

/// A turn that was taken may be given at once as it was, whatever the status of its task.
pub fn a_taken_turn_may_be_given_again()
    ensures { (nodes : List (List Elem)) (before after : TreeSeat) (t : ℕ) → (took : TookTreeTurn nodes before t after)
        → before.0.activity ≡ None → before.0.floor.segment ≡ None → MayGiveTreeTurn nodes after t took.turn before.1 }
{}
