//! The steps of a seat. Each law is what `atomic_table` requires of a call: whatever the table is when the word changes, the
//! seat can pick a view and move slots so that the rule of the floor holds afterwards. It also says what the step tells the
//! seat, in the words of `specs/Plays.antt` and `specs/Tells.antt`. `v` is the seat's view and `mine` are the slots that it
//! has out, the latest first.
ghost use Rattle.std.specs.Prelude.{◌≡◌, ◌≢◌, ◌+◌, ◌%◌, ◌^◌, ◌<◌, ◌==◌, ℕ, ℤ, List, Option};
ghost use prog.Atomic.{either};
ghost use Rattle.atomic_table.specs.Table.{Allows, Final, Joins, Seen, Splits, opening, step};
ghost use mathlib.Core.Option.{none};
ghost use Rattle.twe_base.specs.Limits.{Bounds, IsWithin};
ghost use Rattle.twe_program.specs.Program.{Program, cell_count};
ghost use Rattle.twe_program.specs.WellFormed.{IsWellFormed};
ghost use Rattle.seg_meaning.specs.declared.frame.Frame.{Frame};
ghost use Rattle.seg_meaning.specs.declared.stop.Stop.{Stop};
ghost use Rattle.seg_meaning.specs.Access.{Reads, Writes};
ghost use Rattle.isolation_laws.specs.soundness.KeepsEffects.{KeepsEffects};
ghost use Rattle.machine_state.specs.declared.state.State.{State};
ghost use Rattle.machine_state.specs.Runs.{IsRun};
ghost use Rattle.seg_journal.specs.declared.numbered.NumberedEntry.{NumberedEntry};
ghost use Rattle.seg_journal.specs.Merging.{journal_of, prints_of};
ghost use Rattle.floor_laws.specs.declared.rule.view.HeldTurn.{HeldTurn};
ghost use Rattle.floor_laws.specs.declared.rule.view.Phase.{Phase};
ghost use Rattle.floor_laws.specs.declared.rule.view.TaskSlot.{TaskSlot};
ghost use Rattle.floor_laws.specs.rule.Rule.{AreInOrder};
ghost use Rattle.floor_laws.specs.declared.table.view.SeatKind.TheVariants.{Main, Other, Spent};
ghost use Rattle.floor_laws.specs.declared.table.view.View.{View};
ghost use Rattle.floor_laws.specs.table.Holds.{Ended, HasGivenAll, IsLaidOut, TableKeeps, first_view, joined_view, left_view, right_view, spent_view};
ghost use Rattle.floor_laws.specs.table.Layout.{cell_place, clock_place, free_word, phase_place, taken_word, turn_place, value_of_word, word_of_phase};
ghost use Rattle.floor_laws.specs.table.Tells.{IsLatest, MayDraw, MayGiveTurn, MayStore, MayTouchCell, clock_step};
ghost use Rattle.floor_laws.specs.table.Tells.{DrewOne};
ghost use Rattle.floor_laws.specs.table.Plays.{GivesTurn, LoadsCell, LoadsPhase, StoresCell, StoresPhase, TriesTurn};

/// A table may be opened whose words and slots show the state of a run. Its first seat has the entries of the run.
pub fn a_table_may_be_opened()
    ensures { (p : Program) (lim : Bounds) (log : List NumberedEntry) (st : State) → IsWellFormed p → KeepsEffects p
        → IsWithin lim.fuel lim.tasks → IsRun p lim (journal_of log) st → AreInOrder log → st.prints ≡ prints_of log
        → (words : List ℕ) (slots : List (Option TaskSlot)) → IsLaidOut p lim log st words slots
        → TableKeeps p lim (opening words slots (first_view log)) }
{}

/// A seat may try to take a turn, by a compare-exchange of the turn word. If the word was free, the seat has the turn and the
/// task's slot, with the frame that the last entry left. Otherwise nothing changes.
pub fn a_turn_may_be_tried()
    ensures { (p : Program) (lim : Bounds) (id t : ℕ) (v : View) (mine : List (ℕ × Option TaskSlot)) → v.kind ≢ Spent
        → t < lim.tasks
        → Allows (TableKeeps p lim) lim.tasks id (v, mine) (turn_place p t) (λ n. either (n == free_word) (taken_word v.worker) n)
        (TriesTurn p (step lim.tasks (turn_place p t) free_word (taken_word v.worker) none) (v, mine)) }
{}

/// A seat may give a turn, by a store to the turn word, if the task's slot is the latest that it has out and holds what the
/// last entry left.
pub fn a_turn_may_be_given()
    ensures { (p : Program) (lim : Bounds) (id t : ℕ) (v : View) (mine rest : List (ℕ × Option TaskSlot)) (turn : HeldTurn)
        → v.kind ≢ Spent → t < lim.tasks → MayGiveTurn (v, mine) t turn rest
        → Allows (TableKeeps p lim) lim.tasks id (v, mine) (turn_place p t) (λ n. free_word)
        (λ n. GivesTurn p (step lim.tasks (turn_place p t) free_word 0 none) (v, mine) free_word) }
{}

/// A seat that has a turn may store a phase.
pub fn a_phase_may_be_stored()
    ensures { (p : Program) (lim : Bounds) (id t : ℕ) (v : View) (mine : List (ℕ × Option TaskSlot)) (turn : HeldTurn)
        (phase : Phase) → v.kind ≢ Spent → t < lim.tasks → MayStore (v, mine) t turn phase
        → Allows (TableKeeps p lim) lim.tasks id (v, mine) (phase_place p t) (λ n. word_of_phase phase)
        (λ n. StoresPhase p (step lim.tasks (phase_place p t) (word_of_phase phase) 0 none) (v, mine) (word_of_phase phase)) }
{}

/// A seat may load a phase. If it finds that the task is done, it knows the task's value. A task waits for one with a higher
/// number, which is one of the run.
pub fn a_phase_may_be_loaded()
    ensures { (p : Program) (lim : Bounds) (id t : ℕ) (v : View) (mine : List (ℕ × Option TaskSlot)) → v.kind ≢ Spent
        → t < lim.tasks
        → Allows (TableKeeps p lim) lim.tasks id (v, mine) (phase_place p t) (λ n. n)
        (LoadsPhase p lim (step lim.tasks (phase_place p t) 0 0 none) (v, mine)) }
{}

/// A seat may load a cell that the segment of its task may read. The word fits 32 bits. If the segment has touched the cell
/// before, the value is that of the last touch.
pub fn a_cell_may_be_loaded()
    ensures { (p : Program) (lim : Bounds) (id t c : ℕ) (v : View) (mine : List (ℕ × Option TaskSlot)) (any : ℤ)
        → v.kind ≢ Spent → c < cell_count p → IsLatest (v, mine) t → MayTouchCell p (v, mine) t (Reads c any)
        → Allows (TableKeeps p lim) lim.tasks id (v, mine) (cell_place c) (λ n. n)
        (LoadsCell (step lim.tasks (cell_place c) 0 0 none) (v, mine)) }
{}

/// A seat may store a value to a cell that the segment of its task may write.
pub fn a_cell_may_be_stored()
    ensures { (p : Program) (lim : Bounds) (id t c : ℕ) (v : View) (mine : List (ℕ × Option TaskSlot)) (x : ℕ) (value : ℤ)
        → v.kind ≢ Spent → c < cell_count p → x < 2 ^ 32 → value_of_word x ≡ value → IsLatest (v, mine) t
        → MayTouchCell p (v, mine) t (Writes c value)
        → Allows (TableKeeps p lim) lim.tasks id (v, mine) (cell_place c) (λ n. x)
        (λ n. StoresCell (step lim.tasks (cell_place c) x 0 none) (v, mine) x) }
{}

/// A seat may draw an entry, by a fetch-and-add on the clock, once it has carried out the segment of the task whose slot is
/// the latest that it has out. What it finds gives the entry its number, and a task that is made its number; the seat had no
/// turn of such a task. The clock never overflows.
pub fn an_entry_may_be_drawn()
    ensures { (p : Program) (lim : Bounds) (id t : ℕ) (v : View) (mine : List (ℕ × Option TaskSlot)) (turn : HeldTurn)
        (frame : Frame) (stop : Stop) → v.kind ≢ Spent → IsLatest (v, mine) t → MayDraw p (v, mine) t turn frame stop
        → Allows (TableKeeps p lim) lim.tasks id (v, mine) clock_place (λ n. (n + clock_step stop) % 2 ^ 64)
        (DrewOne p lim (v, mine)) }
{}

/// A seat may be split off from the main one.
pub fn a_seat_may_be_split()
    ensures { (p : Program) (lim : Bounds) (id : ℕ) (v : View) → v.kind ≡ Main
        → Splits (TableKeeps p lim) id v (left_view v) (right_view v) }
{}

/// A seat that has given all its turns may be joined to the main one.
pub fn seats_may_be_joined()
    ensures { (p : Program) (lim : Bounds) (id other : ℕ) (v w : View) → v.kind ≡ Main → w.kind ≡ Other → HasGivenAll w
        → Joins (TableKeeps p lim) id v other w (joined_view v w) spent_view }
{}

/// If the table is closed once all seats were joined to the main one and all turns given, the entries of that seat are the
/// journal. It is legal, and the words and slots show the state that it leads to.
pub fn a_closed_table_shows_the_state()
    ensures { (p : Program) (lim : Bounds) (id : ℕ) (v : View) (words : List ℕ) (slots : List (Option TaskSlot))
        → v.kind ≡ Main → v.out ≡ 0 → HasGivenAll v → Final (Seen (TableKeeps p lim) id v) words slots
        → Ended p lim v words slots }
{}
