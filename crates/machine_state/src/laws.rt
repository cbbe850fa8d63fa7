//! Laws of runs: what holds in each reached state and of each legal journal, and what a legal move changes. A reached
//! state is one that a legal journal leads to.
ghost use Rattle.std.specs.Prelude.{◌≡◌, ◌≤◌, ◌+◌, ◌*◌, ℕ, ℤ, List, Some, count_by, length, true};
ghost use Rattle.seg_journal.specs.declared.journal.Entry.{Entry};
ghost use Rattle.seg_journal.specs.declared.moves.Move.{Move};
ghost use Rattle.twe_base.specs.Limits.{Bounds, IsWithin};
ghost use Rattle.wait_graph.specs.Link.{IsOrdered};
ghost use Rattle.wait_graph.specs.Waiting.{WaitsOnUnlessDone};
ghost use Rattle.twe_program.specs.Program.{Program};
ghost use Rattle.twe_program.specs.WellFormed.{IsWellFormed};
ghost use Rattle.machine_state.specs.declared.state.State.{State};
ghost use Rattle.machine_state.specs.declared.state.TaskRow.{TaskRow};
ghost use Rattle.machine_state.specs.declared.state.TaskStatus.TheVariants.{Done};
ghost use Rattle.machine_state.specs.Changes.{IsDoneWith, LeavesAlone, next_segment};
ghost use Rattle.machine_state.specs.Legal.{MayMove};
ghost use Rattle.machine_state.specs.LowestFirst.{LowestFirst};
ghost use Rattle.machine_state.specs.Moves.{MaySettle, move_result};
ghost use Rattle.machine_state.specs.Rows.{IsRow, LinksAgree, EffectsAreFilled};
ghost use Rattle.machine_state.specs.Runs.{AllTasksDone, EachAtMostOnce, EachOnce, IsReachable, IsReached, Legal, LegalFrom, admits, makes, replayed, state_after};

/// In each reached state, the links agree with the rows.
pub fn links_agree()
    ensures { (p : Program) (st : State) → IsReachable p st → LinksAgree st }
{}

/// In each reached state, a task waits only for a task that was made after it, and a spawned task was made after its
/// parent.
pub fn links_are_in_order()
    ensures { (p : Program) (lim : Bounds) (st : State) → IsWellFormed p → IsWithin lim.fuel lim.tasks
        → IsReached p lim st → IsOrdered st.links }
{}

/// Under given limits a program has at most one lowest-first journal.
pub fn one_lowest_first()
    ensures { (p : Program) (lim : Bounds) (journal other : List Entry) → LowestFirst p lim journal
        → LowestFirst p lim other → journal ≡ other }
{}

/// In each reached state, no effect of a task has a variable.
pub fn effects_are_filled()
    ensures { (p : Program) (st : State) → IsWellFormed p → IsReachable p st → EffectsAreFilled st }
{}

/// In each reached state, a joined task is done, and a task is done only after all tasks that it spawned were joined.
pub fn children_are_done_first()
    ensures joined { (p : Program) (st : State) → IsWellFormed p → IsReachable p st
        → (t : ℕ) (row : TaskRow) → IsRow st t row → row.joined ≡ true → row.status ≡ Done }
    ensures children { (p : Program) (st : State) → IsWellFormed p → IsReachable p st
        → (t c : ℕ) (row child : TaskRow) → IsRow st t row → IsRow st c child → child.parent ≡ Some t
        → row.status ≡ Done → child.joined ≡ true }
{}

/// In every legal journal each task is made, enabled and finished at most once, and exactly once if all tasks are
/// done at its end. A spawned task is never admitted, since the move that makes it enables it. Task 0 is never made,
/// since it is there from the start.
pub fn each_thing_happens_once()
    ensures at_most_once { (p : Program) (lim : Bounds) (journal : List Entry) → IsWellFormed p → Legal p lim journal
        → EachAtMostOnce journal }
    ensures once { (p : Program) (lim : Bounds) (journal : List Entry) → IsWellFormed p → Legal p lim journal
        → AllTasksDone (state_after p lim journal) → EachOnce journal (state_after p lim journal) }
    ensures spawned { (p : Program) (lim : Bounds) (journal : List Entry) → IsWellFormed p → Legal p lim journal
        → (t parent : ℕ) (row : TaskRow) → IsRow (state_after p lim journal) t row → row.parent ≡ Some parent
        → count_by (admits t) journal ≡ 0 }
    ensures first { (p : Program) (lim : Bounds) (journal : List Entry) → IsWellFormed p → Legal p lim journal
        → count_by (makes 0) journal ≡ 0 }
{}

/// A legal journal has at most two entries for each unit of fuel of each task that the limits allow, and two more for
/// each such task. So every run ends.
pub fn journals_are_short()
    ensures { (p : Program) (lim : Bounds) (journal : List Entry) → IsWellFormed p → IsWithin lim.fuel lim.tasks
        → Legal p lim journal → length journal ≤ lim.tasks * (2 * lim.fuel + 2) }
{}

/// A legal move changes the row and the links of its own task. It marks a child as joined if it takes its join, and
/// it adds the task that it makes. It leaves the rows and links of all other tasks alone. The cells, the printed
/// numbers, the count of makes and the first fault change as its segment and its end say.
pub fn a_move_leaves_the_rest_alone()
    ensures { (p : Program) (lim : Bounds) (st : State) (mv : Move) → IsWellFormed p → IsReached p lim st → MayMove st mv
        → LeavesAlone p st (move_result p lim st mv).0 mv (move_result p lim st mv).1 }
{}

/// A chain of waits from one task to another stays over legal moves until the other task is done.
pub fn chains_of_waits_stay()
    ensures a_move { (p : Program) (lim : Bounds) (st : State) (mv : Move) (s u : ℕ) → IsWellFormed p → IsReached p lim st
        → MayMove st mv → WaitsOnUnlessDone st.links s u → WaitsOnUnlessDone (move_result p lim st mv).0.links s u }
    ensures a_journal { (p : Program) (lim : Bounds) (st : State) (entries : List Entry) (s u : ℕ) → IsWellFormed p
        → IsReached p lim st → LegalFrom p lim st entries → WaitsOnUnlessDone st.links s u
        → WaitsOnUnlessDone (replayed p lim st entries).links s u }
{}

/// A task that is done stays done over legal moves, with its value.
pub fn done_tasks_stay_done()
    ensures a_move { (p : Program) (lim : Bounds) (st : State) (mv : Move) (u : ℕ) (value : ℤ) → MayMove st mv
        → IsDoneWith st u value → IsDoneWith (move_result p lim st mv).0 u value }
    ensures a_journal { (p : Program) (lim : Bounds) (st : State) (entries : List Entry) (u : ℕ) (value : ℤ)
        → LegalFrom p lim st entries → IsDoneWith st u value → IsDoneWith (replayed p lim st entries) u value }
{}

/// In each reached state, the frame that the next segment of a task leaves may be settled.
pub fn segments_may_be_settled()
    ensures { (p : Program) (lim : Bounds) (st : State) (t : ℕ) (row : TaskRow) → IsWellFormed p
        → IsWithin lim.fuel lim.tasks → IsReached p lim st → IsRow st t row
        → MaySettle lim st t (next_segment p st row).frame (next_segment p st row).stop }
{}
