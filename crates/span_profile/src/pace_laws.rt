//! How fast the entries of a run can be on several workers.
ghost use Rattle.std.specs.Prelude.{◌≡◌, ◌<◌, ◌≤◌, ◌+◌, ◌-◌, ◌*◌, ℕ, List};
ghost use Rattle.seg_journal.specs.declared.moves.Move.{Move};
ghost use Rattle.twe_base.specs.Limits.{Bounds};
ghost use Rattle.twe_program.specs.Program.{Program};
ghost use Rattle.machine_state.specs.Runs.{counted};
ghost use Rattle.span_profile.specs.Profiles.{HasEarliest, IsProfile};
ghost use Rattle.schedules.specs.Schedules.{least_time};
ghost use Rattle.schedules.specs.Timetables.{IsPacedTime, Slot, time_of};
ghost use Rattle.span_profile.specs.Speed.{IsGreedyRun, IsRunSchedule, IsRunTimetable, run_time};

/// No schedule of the entries of a run that keeps their order is shorter than the least time.
pub fn no_workers_are_faster()
    ensures { (p : Program) (lim : Bounds) (moves : List Move) (work span workers : ℕ) (chain : List ℕ) (start : ℕ → ℕ)
        → 0 < workers → (profile : IsProfile p lim moves work span chain)
        → IsRunSchedule p lim (counted profile.journal) workers start
        → least_time work span workers ≤ run_time p lim (counted profile.journal) start }
{}

/// A schedule of the entries of a run that keeps their order, and in which no worker is idle while an entry could run, takes
/// at most the work shared out to the workers, and the span but for one worker's share of it.
pub fn greedy_workers_are_fast()
    ensures { (p : Program) (lim : Bounds) (moves : List Move) (work span workers : ℕ) (chain : List ℕ) (start : ℕ → ℕ)
        → (profile : IsProfile p lim moves work span chain) → IsGreedyRun p lim (counted profile.journal) workers start
        → workers * run_time p lim (counted profile.journal) start ≤ work + (workers - 1) * span }
{}

/// The paced timetable of the entries of a run keeps their order, takes no less than the least time, and at most the work
/// shared out to the workers, and the span.
pub fn paced_workers_are_fast()
    ensures keeps { (p : Program) (lim : Bounds) (moves : List Move) (span workers time : ℕ) (starts ends : List ℕ)
        → (times : HasEarliest p lim moves span starts ends) → IsPacedTime starts ends workers time
        → (slots : List Slot) × IsRunTimetable p lim (counted times.journal) workers slots × (time ≡ time_of slots) }
    ensures least { (p : Program) (lim : Bounds) (moves : List Move) (work span workers time : ℕ) (chain starts ends : List ℕ)
        → 0 < workers → IsProfile p lim moves work span chain → HasEarliest p lim moves span starts ends
        → IsPacedTime starts ends workers time → least_time work span workers ≤ time }
    ensures short { (p : Program) (lim : Bounds) (moves : List Move) (work span workers time : ℕ) (chain starts ends : List ℕ)
        → IsProfile p lim moves work span chain → HasEarliest p lim moves span starts ends → IsPacedTime starts ends workers time
        → workers * time ≤ work + workers * span }
{}
