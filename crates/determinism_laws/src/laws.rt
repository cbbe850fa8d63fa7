//! Laws of runs of a program that keeps the rules on effects: what deterministic tasks do, and in which order conflicting
//! accesses below a task come.
ghost use Rattle.std.specs.Prelude.{ℕ, List};
ghost use Rattle.seg_journal.specs.declared.journal.Entry.{Entry};
ghost use Rattle.twe_base.specs.Limits.{Bounds};
ghost use Rattle.twe_program.specs.Program.{Program};
ghost use Rattle.twe_program.specs.WellFormed.{IsWellFormed};
ghost use Rattle.isolation_laws.specs.soundness.KeepsEffects.{KeepsEffects};
ghost use Rattle.machine_state.specs.declared.state.State.{State};
ghost use Rattle.machine_state.specs.declared.state.TaskRow.{TaskRow};
ghost use Rattle.machine_state.specs.Rows.{IsRow};
ghost use Rattle.machine_state.specs.Runs.{IsReached, state_after};
ghost use Rattle.determinism_laws.specs.AcceptedRuns.{IsAcceptedRun};
ghost use Rattle.determinism_laws.specs.Deterministic.{ChildrenAreDeterministic, IsDeterministic, WaitsAreForChildren};
ghost use Rattle.determinism_laws.specs.ElisionOrder.{ConflictsKeepRanks, KeepsElisionOrder};
ghost use Rattle.determinism_laws.specs.Ranks.{AllHaveRanks, OneRankEach, OneSegmentEach, SegmentsAreInOrder};
ghost use Rattle.determinism_laws.specs.Execution.{DoneTasksAreExecuted, DoneTasksExecuteAlike, ExecutionsAreInRankOrder, RowsStayBetweenSegments};
ghost use Rattle.determinism_laws.specs.Frames.{ChildrenBegin, EndsGiveValues, JoinsTakeValues, MakersGoOn};
ghost use Rattle.determinism_laws.specs.Sequential.{ExecutesInRankOrder, SegmentsCanBeListed};
ghost use Rattle.determinism_laws.specs.Orders.{AgreeOn, FindSameValues, HaveSameWriters, LeaveSameCells, PrintAlike, SegmentAccesses, SegmentsConflict};

/// In each reached state, all tasks that a deterministic task spawned are deterministic, joined or not. A deterministic task
/// waits only for its own unjoined children: each of its waits is the join of one of them, written or at its end.
pub fn deterministic_tasks_fork_and_join()
    ensures children { (p : Program) → IsWellFormed p → KeepsEffects p
        → (lim : Bounds) (st : State) → IsReached p lim st → ChildrenAreDeterministic p st }
    ensures waits { (p : Program) → IsWellFormed p → KeepsEffects p
        → (lim : Bounds) (st : State) → IsReached p lim st → WaitsAreForChildren p st }
{}

/// In every legal journal, each segment of a task and of the tasks below it has exactly one rank, and each rank is that of
/// one segment. Of two segments one comes first by rank. So the ranks are an order of these segments.
pub fn ranks_order_the_segments()
    ensures all { (p : Program) (lim : Bounds) (journal : List Entry) → IsAcceptedRun p lim journal
        → (t : ℕ) → AllHaveRanks p lim journal t }
    ensures one_rank { (p : Program) (lim : Bounds) (journal : List Entry) → IsAcceptedRun p lim journal
        → (t : ℕ) → OneRankEach p lim journal t }
    ensures one_segment { (p : Program) (lim : Bounds) (journal : List Entry) → IsAcceptedRun p lim journal
        → (t : ℕ) → OneSegmentEach p lim journal t }
    ensures in_order { (p : Program) (lim : Bounds) (journal : List Entry) → IsAcceptedRun p lim journal
        → (t : ℕ) → SegmentsAreInOrder p lim journal t }
{}

/// In every legal journal, of two segments of a task and of the tasks below it that make conflicting accesses, the earlier
/// in the journal is the earlier in the order in which sequential code would execute them.
pub fn conflicts_keep_the_elision_order()
    ensures { (p : Program) (lim : Bounds) (journal : List Entry) → IsAcceptedRun p lim journal
        → (t : ℕ) → ConflictsKeepRanks p lim journal t }
{}

/// Every legal journal keeps the elision order of each deterministic task: conflicting accesses below the task are in the
/// order of sequential code, all accesses there lie within its effects, and while it is enabled no other task makes an
/// access that interferes with one of them.
pub fn deterministic_tasks_keep_the_elision_order()
    ensures { (p : Program) (lim : Bounds) (journal : List Entry) → IsAcceptedRun p lim journal
        → (t : ℕ) (row : TaskRow) → IsRow (state_after p lim journal) t row → IsDeterministic p row
        → KeepsElisionOrder p lim journal t row }
{}

/// If two orders of the same segments agree on each pair of segments with conflicting accesses, each segment has the same
/// last writer before it, in each cell that it accesses, and all writers before that one are the same, too. So it finds the
/// same value there. At the end each cell has the same value, and the segments that print came in the same order.
pub fn orders_that_agree_on_conflicts_give_the_same_values()
    ensures writers { (p : Program) (xs ys : List SegmentAccesses) → AgreeOn (SegmentsConflict p) xs ys
        → HaveSameWriters xs ys }
    ensures values { (p : Program) (xs ys : List SegmentAccesses) → AgreeOn (SegmentsConflict p) xs ys
        → FindSameValues xs ys }
    ensures cells { (p : Program) (xs ys : List SegmentAccesses) → AgreeOn (SegmentsConflict p) xs ys → LeaveSameCells xs ys }
    ensures prints { (p : Program) (xs ys : List SegmentAccesses) → AgreeOn (SegmentsConflict p) xs ys → PrintAlike xs ys }
{}

/// The segments of a task and of the tasks below it, among any entries of a legal journal, can be listed in the order of the
/// journal. Take those of a deterministic task, among entries before which it is enabled, and execute them in the order of
/// sequential code, on the cells as they were before these entries. In each cell that it accesses each segment finds the
/// value that it found in the journal. At the end each cell under the effects of the task has the value that it has after
/// the entries, and the segments that print came in the order of the journal.
pub fn deterministic_tasks_execute_in_rank_order()
    ensures listed { (p : Program) (lim : Bounds) (journal : List Entry) → IsAcceptedRun p lim journal
        → (t : ℕ) → SegmentsCanBeListed p lim journal t }
    ensures alike { (p : Program) (lim : Bounds) (journal : List Entry) → IsAcceptedRun p lim journal
        → (t : ℕ) (row : TaskRow) → IsRow (state_after p lim journal) t row → IsDeterministic p row
        → ExecutesInRankOrder p lim journal t row }
{}

/// In every legal journal, a deterministic task that is done at the end has been executed whole, from each of its segments
/// on: each segment finishes the task, or ends at a join and is followed by the next one, or spawned a child, which is
/// executed whole, too, from its first segment on, and is followed by the next one. The execution of a task from its first
/// segment on has all segments below the task, each once, in the order of their ranks.
pub fn done_tasks_are_executed_whole()
    ensures executed { (p : Program) (lim : Bounds) (journal : List Entry) → IsAcceptedRun p lim journal
        → DoneTasksAreExecuted p lim journal }
    ensures in_order { (p : Program) (lim : Bounds) (journal : List Entry) → IsAcceptedRun p lim journal
        → ExecutionsAreInRankOrder p lim journal }
{}

/// Take a deterministic task of a legal journal that is done at the end, and the entries from any place between the one
/// that enabled it and its first segment, up to the one that finished it. Its execution has all segments below it that are
/// among these entries. Executed as sequential code does, on the cells as they were before these entries, each segment finds
/// the values that it found in the journal. At the end each cell under the effects of the task has the value that it has
/// after the entries, and the segments that print came in the order of the journal.
pub fn done_deterministic_tasks_execute_alike()
    ensures { (p : Program) (lim : Bounds) (journal : List Entry) → IsAcceptedRun p lim journal
        → DoneTasksExecuteAlike p lim journal }
{}

/// In every legal journal, a task that is admitted keeps its row up to its next segment, so its frame is the one that its
/// segment before left, whatever other tasks do between the two.
pub fn rows_stay_between_segments()
    ensures { (p : Program) (lim : Bounds) (journal : List Entry) → IsAcceptedRun p lim journal
        → RowsStayBetweenSegments p lim journal }
{}

/// In every legal journal, each segment of a task but its first starts from the frame that the segment before it left: after
/// a join once the frame has taken the value that the joined task has at the end, and after a make with the new task in it.
/// A segment that finishes its task gives it the value that it has at the end. The first segment of a spawned task starts
/// from the frame that was made for it, with all of the fuel.
pub fn segments_start_from_the_frames_left()
    ensures joins { (p : Program) (lim : Bounds) (journal : List Entry) → IsAcceptedRun p lim journal
        → JoinsTakeValues p lim journal }
    ensures makes { (p : Program) (lim : Bounds) (journal : List Entry) → IsAcceptedRun p lim journal
        → MakersGoOn p lim journal }
    ensures ends { (p : Program) (lim : Bounds) (journal : List Entry) → IsAcceptedRun p lim journal
        → EndsGiveValues p lim journal }
    ensures children { (p : Program) (lim : Bounds) (journal : List Entry) → IsAcceptedRun p lim journal
        → ChildrenBegin p lim journal }
{}
