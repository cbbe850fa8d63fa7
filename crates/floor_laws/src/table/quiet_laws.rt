//! What a table says that is closed at a quiet point.
ghost use Rattle.std.specs.Prelude.{◌≡◌, ℕ, List, Option};
ghost use Rattle.atomic_table.specs.Table.{Final, Seen};
ghost use Rattle.twe_base.specs.Limits.{Bounds};
ghost use Rattle.twe_program.specs.Program.{Program};
ghost use Rattle.floor_laws.specs.declared.rule.view.TaskSlot.{TaskSlot};
ghost use Rattle.floor_laws.specs.declared.table.view.SeatKind.TheVariants.{Main};
ghost use Rattle.floor_laws.specs.declared.table.view.View.{View};
ghost use Rattle.floor_laws.specs.table.Holds.{HasGivenAll, TableKeeps};
ghost use Rattle.floor_laws.specs.table.Shown.{EndedQuiet};

/// If the table is closed once all seats were joined to the main one and all turns given, its words and slots show the rest of
/// the state too: how many tasks were asked for, each task's phase, and which tasks are not made.
pub fn a_closed_table_shows_the_rest()
    ensures { (p : Program) (lim : Bounds) (id : ℕ) (v : View) (words : List ℕ) (slots : List (Option TaskSlot))
        → v.kind ≡ Main → v.out ≡ 0 → HasGivenAll v → Final (Seen (TableKeeps p lim) id v) words slots
        → EndedQuiet p lim v words slots }
{}
