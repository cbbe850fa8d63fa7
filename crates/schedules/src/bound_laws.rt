//! The laws of schedules.
ghost use Rattle.std.specs.Prelude.{◌≡◌, ◌≤◌, ◌<◌, ◌+◌, ◌-◌, ◌*◌, ℕ, List};
ghost use Rattle.schedules.specs.Chains.{LeadsForward, SpanIsAtMost, SpanIsReached};
ghost use Rattle.schedules.specs.Graphs.{LeadsIn, entry_count, weight_in};
ghost use Rattle.schedules.specs.Schedules.{IsGreedy, IsSchedule, least_time, length_of};
ghost use Rattle.schedules.specs.Sums.{sum_below};
ghost use Rattle.schedules.specs.Timetables.{AreEarliest, IsPacedTime, IsTimetable, Slot, time_of};
ghost use Rattle.schedules.specs.declared.graph.Graph.{Graph as AnyGraph};

/// No schedule that keeps the order is shorter than the span, nor than the work shared out to all processors.
pub fn no_schedule_is_shorter()
    ensures { (graph : AnyGraph) (processors span : ℕ) (start : ℕ → ℕ) → 0 < processors
        → IsSchedule (LeadsIn graph) (weight_in graph) (entry_count graph) processors start
        → SpanIsReached (LeadsIn graph) (weight_in graph) (entry_count graph) span
        → least_time (sum_below (weight_in graph) (entry_count graph)) span processors
        ≤ length_of (weight_in graph) start (entry_count graph) }
{}

/// A greedy schedule takes at most the work shared out to all processors, and the span but for one processor's share of it:
/// Graham's bound. It is stated without a division: the time of all processors together is at most the work, and one span for
/// each processor but one. So one processor takes no more than the work.
pub fn a_greedy_schedule_is_short()
    ensures { (graph : AnyGraph) (processors span : ℕ) (start : ℕ → ℕ) → LeadsForward (LeadsIn graph)
        → IsGreedy (LeadsIn graph) (weight_in graph) (entry_count graph) processors start
        → SpanIsAtMost (LeadsIn graph) (weight_in graph) (entry_count graph) span
        → processors * length_of (weight_in graph) start (entry_count graph)
        ≤ sum_below (weight_in graph) (entry_count graph) + (processors - 1) * span }
{}

/// Entries one after another are a schedule, if what leads to another comes before it, and there is a processor. It takes the work.
pub fn one_after_another_takes_the_work()
    ensures { (graph : AnyGraph) (processors : ℕ) → 0 < processors → LeadsForward (LeadsIn graph) → (start : ℕ → ℕ)
        × IsSchedule (LeadsIn graph) (weight_in graph) (entry_count graph) processors start
        × (length_of (weight_in graph) start (entry_count graph) ≡ sum_below (weight_in graph) (entry_count graph)) }
{}

/// There is a greedy schedule of entries, if what leads to another comes before it, and there is a processor.
pub fn a_greedy_schedule_exists()
    ensures { (graph : AnyGraph) (processors : ℕ) → 0 < processors → LeadsForward (LeadsIn graph)
        → (start : ℕ → ℕ) × IsGreedy (LeadsIn graph) (weight_in graph) (entry_count graph) processors start }
{}

/// The paced timetable of entries is one: what leads to another ends before that starts, and no step has more entries than
/// there are processors. It takes no less than the least time, and no more than the work shared out to all processors, and
/// the span.
pub fn a_paced_timetable_is_short()
    ensures keeps { (graph : AnyGraph) (span : ℕ) (starts ends : List ℕ) (processors time : ℕ)
        → AreEarliest (LeadsIn graph) (weight_in graph) (entry_count graph) span starts ends
        → IsPacedTime starts ends processors time
        → (slots : List Slot) × IsTimetable (LeadsIn graph) (weight_in graph) (entry_count graph) processors slots
        × (time ≡ time_of slots) }
    ensures least { (graph : AnyGraph) (span : ℕ) (starts ends : List ℕ) (processors time : ℕ)
        → AreEarliest (LeadsIn graph) (weight_in graph) (entry_count graph) span starts ends
        → IsPacedTime starts ends processors time
        → 0 < processors → least_time (sum_below (weight_in graph) (entry_count graph)) span processors ≤ time }
    ensures short { (graph : AnyGraph) (span : ℕ) (starts ends : List ℕ) (processors time : ℕ)
        → AreEarliest (LeadsIn graph) (weight_in graph) (entry_count graph) span starts ends
        → IsPacedTime starts ends processors time
        → processors * time ≤ sum_below (weight_in graph) (entry_count graph) + processors * span }
{}
