//! How fast the entries of a run can be on several workers, in the order of the held span.
ghost use Rattle.std.specs.Prelude.{◌≡◌, ◌<◌, ◌≤◌, ◌+◌, ◌*◌, ℕ, List, length, sum_by};
ghost use Rattle.seg_journal.specs.declared.moves.Move.{Move};
ghost use Rattle.twe_base.specs.Limits.{Bounds};
ghost use Rattle.twe_program.specs.Program.{Program};
ghost use Rattle.span_profile.specs.heaviest_chain.Chains.{Leads, weight_at};
ghost use Rattle.schedules.specs.Schedules.{IsSchedule, length_of};
ghost use Rattle.schedules.specs.Timetables.{IsPacedTime, IsTimetable, Slot, time_of};
ghost use Rattle.held_span.specs.Freed.{FollowsFreed, stage_weight, stages};
ghost use Rattle.held_span.specs.HeldSpans.{IsHeldProfile, IsHeldSpan};
ghost use Rattle.held_span.specs.declared.hold.Hold.{Hold as AnyHold};

/// The paced timetable of the entries of a run with the times of its held profile keeps the order of the held span, in which an
/// admission also follows what freed it. It takes at most the work shared out to the workers, and the held span.
pub fn paced_workers_keep_admissions()
    ensures keeps { (p : Program) (lim : Bounds) (moves : List Move) (span workers time : ℕ) (starts ends : List ℕ)
        (holds : List AnyHold) → (profile : IsHeldProfile p lim moves span starts ends holds)
        → IsPacedTime starts ends workers time
        → (slots : List Slot) × IsTimetable (Leads (FollowsFreed profile.held.st.tasks) (stages p lim profile.held.journal))
        (weight_at stage_weight (stages p lim profile.held.journal)) (length (stages p lim profile.held.journal)) workers slots
        × (time ≡ time_of slots) }
    ensures short { (p : Program) (lim : Bounds) (moves : List Move) (span workers time : ℕ) (starts ends : List ℕ)
        (holds : List AnyHold) → (profile : IsHeldProfile p lim moves span starts ends holds)
        → IsPacedTime starts ends workers time
        → workers * time ≤ sum_by stage_weight (stages p lim profile.held.journal) + workers * span }
{}

/// One worker can take the entries one after another: that too keeps the order of the held span, and takes the work.
pub fn one_worker_keeps_admissions()
    ensures { (p : Program) (lim : Bounds) (moves : List Move) (span workers : ℕ) → 0 < workers
        → (held : IsHeldSpan p lim moves span) → (start : ℕ → ℕ)
        × IsSchedule (Leads (FollowsFreed held.st.tasks) (stages p lim held.journal))
        (weight_at stage_weight (stages p lim held.journal)) (length (stages p lim held.journal)) workers start
        × (length_of (weight_at stage_weight (stages p lim held.journal)) start (length (stages p lim held.journal))
        ≡ sum_by stage_weight (stages p lim held.journal)) }
{}
