//! The laws of the floor. Each kind of step keeps the rule, whatever the other seats did before, if the seat that takes the
//! step knows enough. So the rule holds between any two steps of any number of seats, in any order.
//!
//! All laws are of a program that keeps the rules on effects. Seats are numbered. The log has the entries that all seats
//! have drawn so far.
ghost use Rattle.std.specs.Prelude.{◌≡◌, ◌≢◌, ◌++◌, ℕ, ℤ, List, [], ◌∷◌, Contains, Some, false, true};
ghost use Rattle.twe_base.specs.Limits.{Bounds};
ghost use Rattle.twe_program.specs.Program.{Program};
ghost use Rattle.twe_program.specs.WellFormed.{IsWellFormed};
ghost use Rattle.seg_meaning.specs.declared.frame.Frame.{Frame};
ghost use Rattle.seg_meaning.specs.declared.stop.Stop.{Stop};
ghost use Rattle.seg_meaning.specs.Access.{Access, Reads, Writes, after};
ghost use Rattle.seg_meaning.specs.Segment.{segment};
ghost use Rattle.isolation_laws.specs.soundness.DeclaredNow.{access_of};
ghost use Rattle.isolation_laws.specs.soundness.KeepsEffects.{KeepsEffects};
ghost use Rattle.machine_state.specs.declared.state.State.{State};
ghost use Rattle.machine_state.specs.Changes.{IsDoneWith};
ghost use Rattle.machine_state.specs.Runs.{IsReached, IsRun, state_after};
ghost use Rattle.isolation_laws.specs.CoveredNow.{CoveredNow};
ghost use Rattle.seg_journal.specs.declared.numbered.NumberedEntry.{NumberedEntry};
ghost use Rattle.seg_journal.specs.Merging.{journal_of, prints_of};
ghost use Rattle.floor_laws.specs.declared.rule.view.HeldTurn.{HeldTurn};
ghost use Rattle.floor_laws.specs.declared.rule.view.OpenSegment.{OpenSegment};
ghost use Rattle.floor_laws.specs.declared.rule.view.Phase.{Phase};
ghost use Rattle.floor_laws.specs.declared.rule.view.Phase.TheVariants.{Done};
ghost use Rattle.floor_laws.specs.rule.Floors.{Floor, Free, Holds};
ghost use Rattle.floor_laws.specs.rule.Fitting.{DoneFramesHaveValues, MayRunFrom, PhaseFits};
ghost use Rattle.floor_laws.specs.rule.Rows.{slot_of};
ghost use Rattle.floor_laws.specs.rule.Rule.{AreInOrder, KeepsRule};
ghost use Rattle.floor_laws.specs.rule.Steps.{HasNoTurn, IsOwn, IsQuiet, MayCommit, MayGive, MayJoin, MayStorePhase, MayTouch, ShowsState, floor_at};
ghost use Rattle.floor_laws.specs.rule.Steps.{after_entry, after_finding_done, after_giving, after_join, after_load, after_phase, after_split};
ghost use Rattle.floor_laws.specs.rule.Steps.{after_store, after_taking, entry_drawn};
ghost use Rattle.floor_laws.specs.admission.admission_core.States.{IsAmong};
ghost use Rattle.floor_laws.specs.rule.Touches.{accesses_of, cell_at, is_written, touches_of};

/// The floor that starts from the state of a run keeps the rule. Its log has the entries of the run, in order, with the
/// numbers that the run has printed.
pub fn a_floor_starts_by_the_rule()
    ensures { (p : Program) (lim : Bounds) (log : List NumberedEntry) (st : State) → IsRun p lim (journal_of log) st
        → AreInOrder log → st.prints ≡ prints_of log → KeepsRule p lim log (floor_at log st) }
{}

/// If the turn of a task is free, a seat can take it. The slot holds the task's frame. The seat knows the task's row and its
/// phase from then on.
pub fn free_turns_can_be_taken()
    ensures { (p : Program) (lim : Bounds) (log : List NumberedEntry) (f : Floor) (i t : ℕ) → IsWellFormed p → KeepsEffects p
        → KeepsRule p lim log f → f.turns t ≡ Free
        → (turn : HeldTurn) × (turn.first ≡ false) × (f.homes t ≡ Holds (slot_of turn.row))
        × KeepsRule p lim log (after_taking f i t turn) }
{}

/// A seat that gives the turn of a task keeps the rule if the phase word is that of the task's row, the slot gets the row's
/// frame, and no segment of the task is open. If the task is done, the seat knows its value.
pub fn giving_a_turn_keeps_the_rule()
    ensures { (p : Program) (lim : Bounds) (log : List NumberedEntry) (f : Floor) (i t : ℕ) (turn : HeldTurn) → IsWellFormed p
        → KeepsEffects p → KeepsRule p lim log f → MayGive f i t turn → KeepsRule p lim log (after_giving f i t turn) }
{}

/// A store to a phase word keeps the rule, if the seat has the task's turn and the phase is the one of the task's row, or
/// `Running` once the awaited task is known to be done.
pub fn storing_a_phase_keeps_the_rule()
    ensures { (p : Program) (lim : Bounds) (log : List NumberedEntry) (f : Floor) (i t : ℕ) (turn : HeldTurn) (phase : Phase)
        → IsWellFormed p → KeepsEffects p → KeepsRule p lim log f → MayStorePhase f i t turn phase
        → KeepsRule p lim log (after_phase f i t turn phase) }
{}

/// A phase word says the truth. A task that it calls done is done, and one that it calls faulted has met a fault. If it says
/// that a task waits for another, a wait for that one is the task's next operation. It says something only of a task that was
/// made. A seat that finds `Done` knows the task's value from then on.
pub fn phases_say_the_truth()
    ensures fits { (p : Program) (lim : Bounds) (log : List NumberedEntry) (f : Floor) (t : ℕ) → KeepsRule p lim log f
        → PhaseFits (state_after p lim (journal_of log)) t (f.phases t) }
    ensures done { (p : Program) (lim : Bounds) (log : List NumberedEntry) (f : Floor) (i t : ℕ) → IsWellFormed p
        → KeepsEffects p → KeepsRule p lim log f → f.phases t ≡ Done
        → (value : ℤ) × IsDoneWith (state_after p lim (journal_of log)) t value
        × KeepsRule p lim log (after_finding_done f i t value) }
{}

/// If a seat may run the next segment of a task, it may make each access that this segment makes over any cells.
pub fn segments_may_make_their_accesses()
    ensures { (p : Program) (f : Floor) (i t : ℕ) (turn : HeldTurn) (ready : Frame) (cells : List ℤ) (access : Access)
        → f.held i t ≡ Some turn → MayRunFrom turn (f.facts i) ready → IsOwn f i t
        → Contains (segment p ready cells).accesses access → MayTouch p f i t access }
{}

/// A load of a cell finds the value of the state, or the one that this segment wrote last, whatever the other seats have
/// stored. It keeps the rule.
pub fn loads_find_the_values_of_the_state()
    ensures value { (p : Program) (lim : Bounds) (log : List NumberedEntry) (f : Floor) (i t c : ℕ) (value : ℤ) → IsWellFormed p
        → KeepsEffects p → KeepsRule p lim log f → value ≡ cell_at f.cells c → MayTouch p f i t (Reads c value)
        → value ≡ cell_at (after (state_after p lim (journal_of log)).cells (accesses_of (touches_of (f.segments i)))) c }
    ensures rule { (p : Program) (lim : Bounds) (log : List NumberedEntry) (f : Floor) (i t c : ℕ) (value : ℤ) → IsWellFormed p
        → KeepsEffects p → KeepsRule p lim log f → value ≡ cell_at f.cells c → MayTouch p f i t (Reads c value)
        → KeepsRule p lim log (after_load f i t c value) }
{}

/// A store to a cell keeps the rule: it changes no value that another open segment has read or written, or may read next.
pub fn stores_keep_the_rule()
    ensures { (p : Program) (lim : Bounds) (log : List NumberedEntry) (f : Floor) (i t c : ℕ) (value : ℤ) → IsWellFormed p
        → KeepsEffects p → KeepsRule p lim log f → MayTouch p f i t (Writes c value)
        → KeepsRule p lim log (after_store f i t c value) }
{}

/// An entry keeps the rule, with the log that has it as its last entry. So the journal stays legal: the entry is the move
/// that the sequential machine makes there, and it ends as it does there.
pub fn entries_keep_the_rule()
    ensures { (p : Program) (lim : Bounds) (log : List NumberedEntry) (f : Floor) (i t : ℕ) (turn : HeldTurn) (frame : Frame)
        (stop : Stop) → IsWellFormed p → KeepsEffects p → KeepsRule p lim log f → MayCommit p f i t turn frame stop
        → KeepsRule p lim (log ++ entry_drawn lim f t frame stop ∷ []) (after_entry lim f i t turn frame stop) }
{}

/// What a seat may draw for a task is one entry: the segment leaves one frame, and stops in one way.
pub fn a_seat_may_draw_one_entry()
    ensures { (p : Program) (lim : Bounds) (log : List NumberedEntry) (f : Floor) (i t : ℕ) (turn : HeldTurn)
        (frame other : Frame) (stop last : Stop) → IsWellFormed p → KeepsEffects p → KeepsRule p lim log f
        → MayCommit p f i t turn frame stop
        → MayCommit p f i t turn other last → (frame ≡ other) × (stop ≡ last) }
{}

/// A new seat, which has no turn, keeps the rule.
pub fn splitting_a_seat_keeps_the_rule()
    ensures { (p : Program) (lim : Bounds) (log : List NumberedEntry) (f : Floor) (i worker : ℕ) → IsWellFormed p
        → KeepsEffects p → KeepsRule p lim log f → HasNoTurn f i → KeepsRule p lim log (after_split f i worker) }
{}

/// Joining two seats keeps the rule: one gets the entries and the facts of both. The other has no turn and no open segment.
pub fn joining_seats_keeps_the_rule()
    ensures { (p : Program) (lim : Bounds) (log : List NumberedEntry) (f : Floor) (i j : ℕ) → IsWellFormed p
        → KeepsEffects p → KeepsRule p lim log f → MayJoin f i j → KeepsRule p lim log (after_join f i j) }
{}

/// Segments that are open at the same time do not disturb one another. Each access that one has made is covered for its task
/// in the state. No cell that one has written has been read or written by another.
pub fn open_segments_stay_apart()
    ensures covered { (p : Program) (lim : Bounds) (log : List NumberedEntry) (f : Floor) (i : ℕ) (s : OpenSegment)
        (access : Access)
        → IsWellFormed p → KeepsEffects p → KeepsRule p lim log f → f.segments i ≡ Some s → IsAmong access (accesses_of s.touches)
        → CoveredNow (state_after p lim (journal_of log)) s.task (access_of p access) }
    ensures apart { (p : Program) (lim : Bounds) (log : List NumberedEntry) (f : Floor) (i j c : ℕ) (s r : OpenSegment)
        (value : ℤ)
        → IsWellFormed p → KeepsEffects p → KeepsRule p lim log f → i ≢ j → f.segments i ≡ Some s → f.segments j ≡ Some r
        → is_written c (accesses_of s.touches) ≡ true
        → ¬ IsAmong (Reads c value) (accesses_of r.touches) × ¬ IsAmong (Writes c value) (accesses_of r.touches) }
{}

/// In each reached state the frame of a done task has the task's value. So whoever has the turn of a done task can read the
/// value in the task's slot.
pub fn done_frames_have_values()
    ensures { (p : Program) (lim : Bounds) (st : State) → IsWellFormed p → IsReached p lim st → DoneFramesHaveValues st }
{}

/// At a quiet point, when no seat has a turn and no segment is open, the floor shows the state that the journal leads to.
pub fn quiet_floors_show_the_state()
    ensures { (p : Program) (lim : Bounds) (log : List NumberedEntry) (f : Floor) → KeepsRule p lim log f → IsQuiet f
        → ShowsState (state_after p lim (journal_of log)) f }
{}
