//! Entries on a table with nodes. Each is drawn by a fetch-and-add on the clock. What the step finds there gives the entry its
//! number. `v` is the seat's view and `mine` are the slots that it has out, the latest first.
ghost use Rattle.std.specs.Prelude.{◌≢◌, ◌+◌, ◌%◌, ◌^◌, ℕ, List};
ghost use Rattle.atomic_table.specs.Table.{Allows};
ghost use Rattle.region_paths.specs.declared.elements.Elem.{Elem};
ghost use Rattle.twe_base.specs.Limits.{Bounds};
ghost use Rattle.twe_program.specs.Program.{Program};
ghost use Rattle.seg_meaning.specs.declared.frame.Frame.{Frame};
ghost use Rattle.seg_meaning.specs.declared.stop.Stop.{Stop};
ghost use Rattle.floor_laws.specs.declared.rule.view.HeldTurn.{HeldTurn};
ghost use Rattle.floor_laws.specs.declared.table.view.SeatKind.TheVariants.{Spent};
ghost use Rattle.floor_laws.specs.table.Layout.{clock_place};
ghost use Rattle.floor_laws.specs.table.Tells.{IsLatest, MayDraw, clock_step};
ghost use Rattle.floor_laws.specs.rule.nodes.TurnSteps.{HasPlacedChildren};
ghost use Rattle.floor_laws.specs.declared.table.nodes.slot.TreeSlot.{TreeSlot};
ghost use Rattle.floor_laws.specs.declared.table.nodes.view.TreeView.{TreeView};
ghost use Rattle.floor_laws.specs.table.nodes.EntrySeats.{DrewAdmission, DrewTreeEntry, MayAdmitLatest};
ghost use Rattle.floor_laws.specs.table.nodes.FloorSeats.{HasTaskSlots, floor_seat};
ghost use Rattle.floor_laws.specs.table.nodes.Holds.{TreeKeeps};
ghost use Rattle.floor_laws.specs.table.nodes.Layout.{tree_slot_count};
ghost use Rattle.floor_laws.specs.table.nodes.Seats.{turns_seen};

/// A seat that holds no node may draw an entry of a segment, once it has carried out the segment of the task whose slot is the
/// latest that it has out, and has placed all children of the task. If the entry makes a task, the seat had no turn of that
/// task and has placed no record of it. The clock never overflows.
pub fn an_entry_may_be_drawn_beside_nodes()
    ensures { (nodes : List (List Elem)) (p : Program) (lim : Bounds) (id t : ℕ) (v : TreeView) (mine : List (ℕ × TreeSlot))
        (turn : HeldTurn) (frame : Frame) (stop : Stop) → HasTaskSlots lim.tasks mine → v.floor.kind ≢ Spent
        → IsLatest (floor_seat (v, mine)) t → MayDraw p (floor_seat (v, mine)) t turn frame stop
        → HasPlacedChildren (turns_seen v) 0 t
        → Allows (TreeKeeps nodes p lim) (tree_slot_count nodes lim) id (v, mine) clock_place
        (λ n. (n + clock_step stop) % 2 ^ 64) (DrewTreeEntry p lim (v, mine)) }
{}

/// A seat that does nothing in the tree may draw the admission of the task whose slot is the latest that it has out, once it has
/// placed a record for each effect of the task. The seat has the entry from then on, and knows that the task is enabled. The
/// clock never overflows.
pub fn an_admission_may_be_drawn()
    ensures { (nodes : List (List Elem)) (p : Program) (lim : Bounds) (id t : ℕ) (v : TreeView) (mine : List (ℕ × TreeSlot))
        (turn : HeldTurn) → v.floor.kind ≢ Spent → MayAdmitLatest nodes (v, mine) t turn
        → Allows (TreeKeeps nodes p lim) (tree_slot_count nodes lim) id (v, mine) clock_place (λ n. (n + 1) % 2 ^ 64)
        (DrewAdmission nodes (v, mine)) }
{}
