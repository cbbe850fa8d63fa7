//! The steps on the locks of nodes. Each law is what `atomic_table` requires of a call: whatever the table is when the word
//! changes, the seat can pick a view and move slots so that the rule holds afterwards. It also says what the step tells the
//! seat. `v` is the seat's view and `mine` are the slots that it has out, the latest first.
ghost use Rattle.std.specs.Prelude.{◌≡◌, ◌==◌, ℕ, List, Option};
ghost use prog.Atomic.{either};
ghost use Rattle.atomic_table.specs.Table.{Allows, step};
ghost use mathlib.Core.Option as core;
ghost use Rattle.region_paths.specs.declared.elements.Elem.{Elem};
ghost use Rattle.twe_base.specs.Limits.{Bounds};
ghost use Rattle.twe_program.specs.Program.{Program};
ghost use Rattle.floor_laws.specs.admission.admission_core.States.{Activity};
ghost use Rattle.floor_laws.specs.rule.nodes.Trees.{Unlocked};
ghost use Rattle.floor_laws.specs.declared.table.nodes.slot.TreeSlot.{TreeSlot};
ghost use Rattle.floor_laws.specs.declared.table.nodes.view.TreeView.{TreeView};
ghost use Rattle.floor_laws.specs.table.nodes.Holds.{TreeKeeps};
ghost use Rattle.floor_laws.specs.table.nodes.Layout.{left_lock, lock_of_word, lock_place, taken_lock, tree_slot_count};
ghost use Rattle.floor_laws.specs.table.nodes.Plays.{PassesNode, SeatGoesOn, SeatStopsAt, TriesNode};
ghost use Rattle.floor_laws.specs.table.nodes.Seats.{HasContent, MayGoOn, MayLock, MayPass, MayStop};

/// A seat may try to lock a node, by a compare-exchange of its lock word from a word by which nobody has locked it. If that was
/// the word, the seat has locked the node and has its content. Otherwise nothing changes. At the root the seat announces what it
/// goes for.
pub fn a_lock_may_be_tried()
    ensures { (nodes : List (List Elem)) (p : Program) (lim : Bounds) (id n : ℕ) (v : TreeView) (mine : List (ℕ × TreeSlot))
        (said : core.Option TreeSlot) (next : Activity) (free : ℕ) → lock_of_word free ≡ Unlocked → MayLock nodes v said n next
        → Allows (TreeKeeps nodes p lim) (tree_slot_count nodes lim) id (v, mine) (lock_place p lim n)
        (λ x. either (x == free) (taken_lock v.floor.worker) x)
        (TriesNode nodes p lim (step (tree_slot_count nodes lim) (lock_place p lim n) free (taken_lock v.floor.worker) said)
        (v, mine)) }
{}

/// A seat may unlock a node and go on, by a store to its lock word: the parent of the other node that it holds, or a node that it
/// has finished. The node's slot is the latest that it has out, with the content that it knows.
pub fn a_node_may_be_left()
    ensures { (nodes : List (List Elem)) (p : Program) (lim : Bounds) (id n : ℕ) (v : TreeView)
        (mine rest : List (ℕ × TreeSlot)) (next : Activity) → MayGoOn nodes v n next → (has : HasContent lim (v, mine) n rest)
        → Allows (TreeKeeps nodes p lim) (tree_slot_count nodes lim) id (v, mine) (lock_place p lim n)
        (λ x. left_lock has.content)
        (λ x. SeatGoesOn nodes p lim
        (step (tree_slot_count nodes lim) (lock_place p lim n) (left_lock has.content) 0 core.none) (v, mine)
        (left_lock has.content)) }
{}

/// A seat may stop at any moment, and unlock the last node that it holds, by a store to its lock word. From then on it only gives
/// back what it holds; once that is nothing, it does nothing in the tree any more.
pub fn a_seat_may_stop()
    ensures { (nodes : List (List Elem)) (p : Program) (lim : Bounds) (id n : ℕ) (v : TreeView)
        (mine rest : List (ℕ × TreeSlot)) (next : Option Activity) → MayStop v n next → (has : HasContent lim (v, mine) n rest)
        → Allows (TreeKeeps nodes p lim) (tree_slot_count nodes lim) id (v, mine) (lock_place p lim n)
        (λ x. left_lock has.content)
        (λ x. SeatStopsAt p lim (step (tree_slot_count nodes lim) (lock_place p lim n) (left_lock has.content) 0 core.none)
        (v, mine) (left_lock has.content)) }
{}

/// A seat that walks through a node may pass by a child that has no children, by a load of the child's lock word. If the word
/// says that no record lies there, the seat has finished the child. Otherwise nothing changes.
pub fn a_node_may_be_passed_by()
    ensures { (nodes : List (List Elem)) (p : Program) (lim : Bounds) (id c : ℕ) (v : TreeView) (mine : List (ℕ × TreeSlot))
        (next : Activity) → MayPass nodes v c next
        → Allows (TreeKeeps nodes p lim) (tree_slot_count nodes lim) id (v, mine) (lock_place p lim c) (λ x. x)
        (PassesNode nodes p lim (step (tree_slot_count nodes lim) (lock_place p lim c) 0 0 core.none) (v, mine)) }
{}
