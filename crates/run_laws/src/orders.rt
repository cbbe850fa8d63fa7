//! Laws of orders: waits form paths, and the order in which tasks are enabled is the order in which they yield.
ghost use Rattle.std.specs.Prelude.{◌≡◌, ◌≢◌, ◌<◌, ◌≤◌, ◌⊎◌, ◌↔◌, ℕ, List};
ghost use Rattle.seg_journal.specs.declared.journal.Entry.{Entry};
ghost use Rattle.twe_base.specs.Limits.{Bounds};
ghost use Rattle.twe_program.specs.Program.{Program};
ghost use Rattle.twe_program.specs.WellFormed.{IsWellFormed};
ghost use Rattle.wait_graph.specs.Waiting.{IsDone, WaitsFor, WaitsOn, WaitsOnUnlessDone, YieldsTo};
ghost use Rattle.isolation_laws.specs.soundness.KeepsEffects.{KeepsEffects};
ghost use Rattle.machine_state.specs.declared.state.State.{State};
ghost use Rattle.machine_state.specs.declared.state.TaskStatus.TheVariants.{Enabled, Made};
ghost use Rattle.machine_state.specs.Legal.{Interfere, IsBar};
ghost use Rattle.machine_state.specs.Rows.{HasStatus};
ghost use Rattle.machine_state.specs.Runs.{IsReached, Legal, LegalFrom, replayed, state_after};
ghost use Rattle.run_laws.specs.Orders.{DecidesFor, EarlierYield, HasMade, IsAdmittedAfter, WasEnabledBefore};

/// A task waits only for tasks that it has made. Each task is waited for by at most one other, so waits form paths: of two tasks
/// that wait for a third, directly or through others, one waits for the other, or they are the same.
pub fn waits_form_paths()
    ensures made { (p : Program) → IsWellFormed p → (lim : Bounds) (journal : List Entry) → Legal p lim journal
        → (s u : ℕ) → WaitsFor (state_after p lim journal).links s u → HasMade journal s u }
    ensures one { (p : Program) → IsWellFormed p → (lim : Bounds) (st : State) → IsReached p lim st
        → (s r u : ℕ) → WaitsFor st.links s u → WaitsFor st.links r u → s ≡ r }
    ensures ordered { (p : Program) → IsWellFormed p → (lim : Bounds) (st : State) → IsReached p lim st
        → (s r u : ℕ) → WaitsOn st.links s u → WaitsOn st.links r u → WaitsOn st.links s r ⊎ WaitsOn st.links r s }
{}

/// Who yields to a task goes on yielding to it over legal moves, until that task is done.
pub fn yielding_stays()
    ensures { (p : Program) → IsWellFormed p → (lim : Bounds) (st : State) → IsReached p lim st
        → (entries : List Entry) → LegalFrom p lim st entries → (s t : ℕ) → YieldsTo st.links s t
        → ¬ IsDone (replayed p lim st entries).links t → YieldsTo (replayed p lim st entries).links s t }
{}

/// Tasks are enabled one by one. Of two different tasks that are enabled after a legal journal, one was enabled before the other,
/// and never each before the other. Who was enabled before a second that was enabled before a third was enabled before the third.
pub fn tasks_are_enabled_one_by_one()
    ensures one_first { (p : Program) → IsWellFormed p → (lim : Bounds) (journal : List Entry) → Legal p lim journal
        → (s t : ℕ) → s ≢ t → HasStatus (state_after p lim journal) s Enabled → HasStatus (state_after p lim journal) t Enabled
        → WasEnabledBefore p lim journal s t ⊎ WasEnabledBefore p lim journal t s }
    ensures never_both { (p : Program) → IsWellFormed p → (lim : Bounds) (journal : List Entry) → Legal p lim journal
        → (s t : ℕ) → WasEnabledBefore p lim journal s t → ¬ WasEnabledBefore p lim journal t s }
    ensures on_and_on { (p : Program) → IsWellFormed p → (lim : Bounds) (journal : List Entry) → Legal p lim journal
        → (s t u : ℕ) → WasEnabledBefore p lim journal s t → WasEnabledBefore p lim journal t u
        → WasEnabledBefore p lim journal s u }
{}

/// After each legal journal, of two enabled tasks that interfere, the one that was enabled before the other yields to it. So the
/// order of enabling is the order of yielding.
pub fn who_is_enabled_earlier_yields()
    ensures { (p : Program) → IsWellFormed p → KeepsEffects p
        → (lim : Bounds) (journal : List Entry) → Legal p lim journal → EarlierYield p lim journal }
{}

/// Who yields to another task has a lower number. So of two enabled tasks that interfere, the one with the lower number yields to
/// the other, and was enabled before it: the order of enabling is that of the numbers, in which the tasks were made.
pub fn who_is_made_earlier_yields()
    ensures up { (p : Program) → IsWellFormed p → (lim : Bounds) (st : State) → IsReached p lim st
        → (s t : ℕ) → YieldsTo st.links s t → s ≤ t }
    ensures lower { (p : Program) → IsWellFormed p → (lim : Bounds) (st : State) → IsReached p lim st → KeepsEffects p
        → (s t : ℕ) → s < t → HasStatus st s Enabled → HasStatus st t Enabled → Interfere st s t → YieldsTo st.links s t }
    ensures earlier { (p : Program) → IsWellFormed p → KeepsEffects p → (lim : Bounds) (journal : List Entry)
        → Legal p lim journal → (s t : ℕ)
        → HasStatus (state_after p lim journal) s Enabled → HasStatus (state_after p lim journal) t Enabled
        → Interfere (state_after p lim journal) s t → (WasEnabledBefore p lim journal s t ↔ (s < t)) }
{}

/// To a task that is not admitted yet, those alone yield that wait for it, directly or through others. So an enabled task that
/// interferes with it and doesn't wait for it is a bar, and who does is none.
pub fn who_does_not_wait_is_a_bar()
    ensures yields { (p : Program) → IsWellFormed p → (lim : Bounds) (st : State) → IsReached p lim st
        → (s t : ℕ) → HasStatus st t Made → (YieldsTo st.links s t ↔ WaitsOn st.links s t) }
    ensures bar { (p : Program) → IsWellFormed p → (lim : Bounds) (st : State) → IsReached p lim st
        → (s t : ℕ) → HasStatus st t Made → HasStatus st s Enabled → Interfere st s t
        → (IsBar st s t ↔ (¬ WaitsOn st.links s t)) }
{}

/// The task that was admitted last decides for those before it: who is enabled when it is admitted, and interferes with it, waits
/// for it, directly or through others, until it is done. So if it waits for another task, or yields to it, so does each enabled
/// task that interferes with it and was enabled before it.
pub fn who_is_admitted_last_decides()
    // From the admission on, until the admitted task is done.
    ensures admitted { (p : Program) → IsWellFormed p → (lim : Bounds) (journal : List Entry) → Legal p lim journal
        → (w r : ℕ) → IsAdmittedAfter p lim journal w r → WaitsOnUnlessDone (state_after p lim journal).links r w }
    ensures waits { (p : Program) → IsWellFormed p → KeepsEffects p → (lim : Bounds) (journal : List Entry) → Legal p lim journal
        → (w r : ℕ) → DecidesFor p lim journal w r → WaitsOn (state_after p lim journal).links r w }
    ensures leads { (p : Program) → IsWellFormed p → KeepsEffects p → (lim : Bounds) (journal : List Entry) → Legal p lim journal
        → (w r : ℕ) → DecidesFor p lim journal w r
        → (t : ℕ) → WaitsOn (state_after p lim journal).links w t → WaitsOn (state_after p lim journal).links r t }
    ensures yields { (p : Program) → IsWellFormed p → KeepsEffects p → (lim : Bounds) (journal : List Entry) → Legal p lim journal
        → (w r : ℕ) → DecidesFor p lim journal w r
        → (t : ℕ) → YieldsTo (state_after p lim journal).links w t → YieldsTo (state_after p lim journal).links r t }
{}
