//! The laws of pictures.
ghost use Rattle.std.specs.Prelude.{◌≡◌, ◌≤◌, ◌+◌, ℕ, List, Some, slice_get};
ghost use Rattle.std.specs.List.{All, sum_by};
ghost use Rattle.seg_journal.specs.declared.moves.Move.{Move};
ghost use Rattle.twe_base.specs.Limits.{Bounds};
ghost use Rattle.twe_program.specs.Program.{Program};
ghost use Rattle.machine_state.specs.declared.state.TaskRow.{TaskRow};
ghost use Rattle.machine_state.specs.Runs.{counted};
ghost use Rattle.span_profile.specs.LeadsTo.{LeadsTo};
ghost use Rattle.span_profile.specs.Strands.{strands, weight_of};
ghost use Rattle.span_profile.specs.heaviest_chain.Chains.{Leads, weight_at};
ghost use Rattle.held_span.specs.Freed.{Frees, stages};
ghost use Rattle.held_span.specs.declared.hold.Hold.{Hold as AnyHold};
ghost use Rattle.twe_draw.specs.picture.Bars.{Shows, bar_length, end_of_bars};
ghost use Rattle.twe_draw.specs.picture.HeldBars.{StandsBetween};
ghost use Rattle.twe_draw.specs.picture.Pictures.{IsPicture, held_rows};
ghost use Rattle.twe_draw.specs.declared.picture.bars.EntryBar.{EntryBar as AnyBar};

/// Each entry that counts has exactly one bar, that of its number. The bar shows what the entry did, and is as long as it
/// weighs.
pub fn each_entry_has_one_bar()
    ensures shows { (p : Program) (lim : Bounds) (moves : List Move) (work span held : ℕ) (chain : List ℕ)
        (bars : List AnyBar) (tasks : List TaskRow) (holds : List AnyHold)
        → (picture : IsPicture p lim moves work span held chain bars tasks holds)
        → Shows 0 (strands p lim (counted picture.drawn.journal)) bars }
    ensures weighs { (p : Program) (lim : Bounds) (moves : List Move) (work span held : ℕ) (chain : List ℕ)
        (bars : List AnyBar) (tasks : List TaskRow) (holds : List AnyHold)
        → (picture : IsPicture p lim moves work span held chain bars tasks holds) → (number : ℕ) (bar : AnyBar)
        → slice_get bars number ≡ Some bar
        → bar.ends ≡ bar.begins + weight_at weight_of (strands p lim (counted picture.drawn.journal)) number }
{}

/// What leads to another entry, or frees it, ends before that begins.
pub fn what_leads_ends_first()
    ensures leads { (p : Program) (lim : Bounds) (moves : List Move) (work span held : ℕ) (chain : List ℕ)
        (bars : List AnyBar) (tasks : List TaskRow) (holds : List AnyHold)
        → (picture : IsPicture p lim moves work span held chain bars tasks holds)
        → (i j : ℕ) (first second : AnyBar) → slice_get bars i ≡ Some first → slice_get bars j ≡ Some second
        → Leads LeadsTo (strands p lim (counted picture.drawn.journal)) i j → first.ends ≤ second.begins }
    ensures frees { (p : Program) (lim : Bounds) (moves : List Move) (work span held : ℕ) (chain : List ℕ)
        (bars : List AnyBar) (tasks : List TaskRow) (holds : List AnyHold)
        → (picture : IsPicture p lim moves work span held chain bars tasks holds)
        → (i j : ℕ) (first second : AnyBar) → slice_get bars i ≡ Some first → slice_get bars j ≡ Some second
        → Leads (Frees (held_rows picture)) (stages p lim (counted picture.drawn.journal)) i j → first.ends ≤ second.begins }
{}

/// The last bar ends at the held span, and the lengths of all bars add up to the work.
pub fn a_run_ends_at_its_held_span()
    ensures last { (p : Program) (lim : Bounds) (moves : List Move) (work span held : ℕ) (chain : List ℕ)
        (bars : List AnyBar) (tasks : List TaskRow) (holds : List AnyHold)
        → IsPicture p lim moves work span held chain bars tasks holds → end_of_bars bars ≡ held }
    ensures sum { (p : Program) (lim : Bounds) (moves : List Move) (work span held : ℕ) (chain : List ℕ)
        (bars : List AnyBar) (tasks : List TaskRow) (holds : List AnyHold)
        → IsPicture p lim moves work span held chain bars tasks holds → sum_by bar_length bars ≡ work }
{}

/// The entry that a bar names as the previous one, or as the giver of its value, leads to that of the bar.
pub fn links_are_of_entries()
    ensures previous { (p : Program) (lim : Bounds) (moves : List Move) (work span held : ℕ) (chain : List ℕ)
        (bars : List AnyBar) (tasks : List TaskRow) (holds : List AnyHold)
        → (picture : IsPicture p lim moves work span held chain bars tasks holds)
        → (number before : ℕ) (bar : AnyBar) → slice_get bars number ≡ Some bar → bar.previous ≡ Some before
        → Leads LeadsTo (strands p lim (counted picture.drawn.journal)) before number }
    ensures giver { (p : Program) (lim : Bounds) (moves : List Move) (work span held : ℕ) (chain : List ℕ)
        (bars : List AnyBar) (tasks : List TaskRow) (holds : List AnyHold)
        → (picture : IsPicture p lim moves work span held chain bars tasks holds)
        → (number before : ℕ) (bar : AnyBar) → slice_get bars number ≡ Some bar → bar.giver ≡ Some before
        → Leads LeadsTo (strands p lim (counted picture.drawn.journal)) before number }
{}

/// The time of a hold is that between the bar of the entry that made the task and the bar of its admission, which begins as that
/// of the entry that freed it ends.
pub fn a_hold_is_between_bars()
    ensures { (p : Program) (lim : Bounds) (moves : List Move) (work span held : ℕ) (chain : List ℕ)
        (bars : List AnyBar) (tasks : List TaskRow) (holds : List AnyHold)
        → IsPicture p lim moves work span held chain bars tasks holds
        → All (StandsBetween bars) holds }
{}
