//! How a seat learns for whom a task waits.
ghost use Rattle.std.specs.Prelude.{◌≢◌, ◌<◌, ℕ, List};
ghost use Rattle.atomic_table.specs.Table.{Allows, step};
ghost use mathlib.Core.Option.{none};
ghost use Rattle.region_paths.specs.declared.elements.Elem.{Elem};
ghost use Rattle.twe_base.specs.Limits.{Bounds};
ghost use Rattle.twe_program.specs.Program.{Program};
ghost use Rattle.floor_laws.specs.declared.table.view.SeatKind.TheVariants.{Spent};
ghost use Rattle.floor_laws.specs.table.Layout.{phase_place};
ghost use Rattle.floor_laws.specs.declared.table.nodes.slot.TreeSlot.{TreeSlot};
ghost use Rattle.floor_laws.specs.declared.table.nodes.view.TreeView.{TreeView};
ghost use Rattle.floor_laws.specs.table.nodes.Follows.{FollowsWait};
ghost use Rattle.floor_laws.specs.table.nodes.Holds.{TreeKeeps};
ghost use Rattle.floor_laws.specs.table.nodes.Layout.{tree_slot_count};

/// A seat may load a phase word, whatever it holds. If it finds that the task waits, it knows for whom, also of all that it knew
/// to wait for the task. If it finds that the task is done, it knows its value. If it is the only one and does not have the
/// task's turn, it finds the phase that the task's last entry has left.
pub fn a_wait_may_be_followed()
    ensures { (nodes : List (List Elem)) (p : Program) (lim : Bounds) (id u : ℕ) (v : TreeView) (mine : List (ℕ × TreeSlot))
        → v.floor.kind ≢ Spent → u < lim.tasks
        → Allows (TreeKeeps nodes p lim) (tree_slot_count nodes lim) id (v, mine) (phase_place p u) (λ n. n)
        (FollowsWait p lim (step (tree_slot_count nodes lim) (phase_place p u) 0 0 none) (v, mine)) }
{}
