//! Steps of the floor on a table with nodes, for a seat that holds no node. What the step tells the floor's seat, it tells this
//! one.
ghost use Rattle.std.specs.Prelude.{◌≡◌, ◌≢◌, ◌<◌, ◌^◌, ℕ, ℤ, List};
ghost use Rattle.atomic_table.specs.Table.{Allows, step};
ghost use mathlib.Core.Option.{none};
ghost use Rattle.region_paths.specs.declared.elements.Elem.{Elem};
ghost use Rattle.twe_base.specs.Limits.{Bounds};
ghost use Rattle.twe_program.specs.Program.{Program, cell_count};
ghost use Rattle.seg_meaning.specs.Access.{Reads, Writes};
ghost use Rattle.floor_laws.specs.declared.rule.view.HeldTurn.{HeldTurn};
ghost use Rattle.floor_laws.specs.declared.rule.view.Phase.{Phase};
ghost use Rattle.floor_laws.specs.declared.table.view.SeatKind.TheVariants.{Spent};
ghost use Rattle.floor_laws.specs.table.Layout.{cell_place, phase_place, value_of_word, word_of_phase};
ghost use Rattle.floor_laws.specs.table.Tells.{IsLatest, MayStore, MayTouchCell};
ghost use Rattle.floor_laws.specs.declared.table.nodes.slot.TreeSlot.{TreeSlot};
ghost use Rattle.floor_laws.specs.declared.table.nodes.view.TreeView.{TreeView};
ghost use Rattle.floor_laws.specs.table.nodes.FloorSeats.{HasTaskSlots, LoadsTreeCell, StoresTreeCell, StoresTreePhase, floor_seat};
ghost use Rattle.floor_laws.specs.table.nodes.Holds.{TreeKeeps};
ghost use Rattle.floor_laws.specs.table.nodes.Layout.{tree_slot_count};

/// A seat may load a cell that the segment of its task may read.
pub fn a_cell_may_be_loaded_beside_nodes()
    ensures { (nodes : List (List Elem)) (p : Program) (lim : Bounds) (id : ℕ) (v : TreeView) (mine : List (ℕ × TreeSlot))
        → HasTaskSlots lim.tasks mine → (t c : ℕ) (any : ℤ) → v.floor.kind ≢ Spent → c < cell_count p
        → IsLatest (floor_seat (v, mine)) t → MayTouchCell p (floor_seat (v, mine)) t (Reads c any)
        → Allows (TreeKeeps nodes p lim) (tree_slot_count nodes lim) id (v, mine) (cell_place c) (λ n. n)
        (LoadsTreeCell lim (step (tree_slot_count nodes lim) (cell_place c) 0 0 none) (v, mine)) }
{}

/// A seat may store a value to a cell that the segment of its task may write.
pub fn a_cell_may_be_stored_beside_nodes()
    ensures { (nodes : List (List Elem)) (p : Program) (lim : Bounds) (id : ℕ) (v : TreeView) (mine : List (ℕ × TreeSlot))
        → HasTaskSlots lim.tasks mine → (t c x : ℕ) (value : ℤ) → v.floor.kind ≢ Spent → c < cell_count p → x < 2 ^ 32
        → value_of_word x ≡ value → IsLatest (floor_seat (v, mine)) t → MayTouchCell p (floor_seat (v, mine)) t (Writes c value)
        → Allows (TreeKeeps nodes p lim) (tree_slot_count nodes lim) id (v, mine) (cell_place c) (λ n. x)
        (λ n. StoresTreeCell lim (step (tree_slot_count nodes lim) (cell_place c) x 0 none) (v, mine) x) }
{}

/// A seat that has a turn may store a phase.
pub fn a_phase_may_be_stored_beside_nodes()
    ensures { (nodes : List (List Elem)) (p : Program) (lim : Bounds) (id : ℕ) (v : TreeView) (mine : List (ℕ × TreeSlot))
        → HasTaskSlots lim.tasks mine → (t : ℕ) (turn : HeldTurn) (phase : Phase) → v.floor.kind ≢ Spent → t < lim.tasks
        → MayStore (floor_seat (v, mine)) t turn phase
        → Allows (TreeKeeps nodes p lim) (tree_slot_count nodes lim) id (v, mine) (phase_place p t) (λ n. word_of_phase phase)
        (λ n. StoresTreePhase p lim (step (tree_slot_count nodes lim) (phase_place p t) (word_of_phase phase) 0 none) (v, mine)
        (word_of_phase phase)) }
{}
