//! What a table with nodes says that is closed at a quiet point.
ghost use Rattle.std.specs.Prelude.{◌≡◌, ℕ, List};
ghost use Rattle.atomic_table.specs.Table.{Final, Seen};
ghost use Rattle.region_paths.specs.declared.elements.Elem.{Elem};
ghost use Rattle.twe_base.specs.Limits.{Bounds};
ghost use Rattle.twe_program.specs.Program.{Program};
ghost use Rattle.floor_laws.specs.declared.table.view.SeatKind.TheVariants.{Main};
ghost use Rattle.floor_laws.specs.table.Holds.{HasGivenAll};
ghost use Rattle.floor_laws.specs.declared.table.nodes.slot.TreeSlot.{TreeSlot};
ghost use Rattle.floor_laws.specs.declared.table.nodes.view.TreeView.{TreeView};
ghost use Rattle.floor_laws.specs.table.nodes.Holds.{TreeKeeps};
ghost use Rattle.floor_laws.specs.table.nodes.Shown.{EndedBesideNodes};

/// If the table is closed once all seats were joined to the main one and all turns given, the slots of tasks hold tasks, and with
/// the words of the floor they show the journal and the state that it leads to, as a closed table of the floor does.
pub fn a_closed_tree_table_shows_the_rest()
    ensures { (nodes : List (List Elem)) (p : Program) (lim : Bounds) (id : ℕ) (v : TreeView) (words : List ℕ)
        (slots : List TreeSlot) → v.floor.kind ≡ Main → v.floor.out ≡ 0 → HasGivenAll v.floor
        → Final (Seen (TreeKeeps nodes p lim) id v) words slots → EndedBesideNodes nodes p lim v words slots }
{}
