//! What holds of every list of links: how chains of waits and chains of descent go on, and what a task that is added
//! and a field that is set do to them. Each law is the contract of a function that does nothing.
ghost use Rattle.std.specs.Prelude.{◌≡◌, ◌≢◌, ℕ, ◌<◌, ◌≤◌, ◌↔◌, ◌⊎◌, List, [], ◌∷◌, ◌++◌, length, Option};
ghost use Rattle.std.specs.Option.{ForSome};
ghost use Rattle.wait_graph.specs.declared.tasks.Link.{Link};
ghost use Rattle.wait_graph.specs.Link.{IsOrdered, link_of, new_link, with_wait, with_joined, with_done};
ghost use Rattle.wait_graph.specs.StuckCycle.{AllAreHeldUp, IsCycle, IsUndone, stuck_cycle};
ghost use Rattle.wait_graph.specs.Waiting.{WaitsFor, WaitsForNobody, WaitsOn, IsDone, WaitsOnUnlessDone, SpawnedBy, DescendsFrom, YieldsTo};

/// A chain goes on by another that begins where it ends.
pub fn chains_compose()
    ensures waits { (links : List Link) (s u v : ℕ) → WaitsOn links s u → WaitsOn links u v → WaitsOn links s v }
    ensures descents { (links : List Link) (t u v : ℕ) → DescendsFrom links t u → DescendsFrom links u v
        → DescendsFrom links t v }
{}

/// Chains from one task don't fork: of two tasks that they lead to, a chain leads from one to the other.
pub fn chains_do_not_fork()
    ensures waits { (links : List Link) (s u v : ℕ) → WaitsOn links s u → WaitsOn links s v
        → WaitsOn links u v ⊎ WaitsOn links v u }
    ensures descents { (links : List Link) (t u v : ℕ) → DescendsFrom links t u → DescendsFrom links t v
        → DescendsFrom links u v ⊎ DescendsFrom links v u }
{}

/// Waits lead to higher numbers, and descent leads to lower ones.
pub fn chains_are_ordered()
    ensures waits_up { (links : List Link) (s u : ℕ) → IsOrdered links → WaitsOn links s u → s ≤ u }
    ensures descents_down { (links : List Link) (t u : ℕ) → IsOrdered links → DescendsFrom links t u → u ≤ t }
{}

/// A chain of waits that leads to `u` unless `u` is done goes on in the same way to the task that `u` awaits.
pub fn a_chain_goes_on_by_a_wait()
    ensures { (links : List Link) (s u v : ℕ) → WaitsOnUnlessDone links s u → ¬ IsDone links u
        → (link_of links u).waits ≡ Option.Some v → WaitsOnUnlessDone links s v }
{}

/// Nobody waits for a task that is done.
pub fn a_done_task_is_not_waited_for()
    ensures waits { (links : List Link) (s t : ℕ) → IsDone links t → ¬ WaitsFor links s t }
    ensures chains { (links : List Link) (s t : ℕ) → IsDone links t → (WaitsOn links s t ↔ (s ≡ t)) }
{}

/// From a task that no unjoined child has as its parent nobody descends but the task itself.
pub fn a_task_without_children_is_no_ancestor()
    ensures { (links : List Link) (t c : ℕ) → ((child : ℕ) → ¬ SpawnedBy links child t)
        → (DescendsFrom links c t ↔ (c ≡ t)) }
{}

/// A task waits for nobody if and only if its next operation is no wait, or awaits a task that is done.
pub fn waiting_for_nobody()
    ensures { (links : List Link) (t : ℕ)
        → (WaitsForNobody links t ↔ ForSome (link_of links t).waits (IsDone links)) }
{}

/// How yielding goes along chains, and what it is if one of the two chains has no step.
pub fn yielding_follows_chains()
    // Who waits on a task yields to whomever that task yields to.
    ensures along_waits { (links : List Link) (s u t : ℕ) → WaitsOn links s u → YieldsTo links u t
        → YieldsTo links s t }
    // Who yields to a task yields to those that descend from it.
    ensures along_descents { (links : List Link) (s t c : ℕ) → YieldsTo links s t → DescendsFrom links c t
        → YieldsTo links s c }
    // A task that waits for nobody yields to those alone that descend from it.
    ensures without_wait { (links : List Link) (s t : ℕ) → WaitsForNobody links s
        → (YieldsTo links s t ↔ DescendsFrom links t s) }
    // To a task that has no parent, or that is joined, those alone yield that wait on it.
    ensures without_parent { (links : List Link) (s t : ℕ) → ((p : ℕ) → ¬ SpawnedBy links t p)
        → (YieldsTo links s t ↔ WaitsOn links s t) }
{}

/// Setting what a task waits for changes the waits of that task and nothing else.
pub fn setting_a_wait()
    ensures others { (links : List Link) (t s u : ℕ) (on : Option ℕ) → s ≢ t
        → (WaitsFor (with_wait links t on) s u ↔ WaitsFor links s u) }
    ensures own { (links : List Link) (t u : ℕ) (on : Option ℕ) → t < length links
        → (WaitsFor (with_wait links t on) t u ↔ ((on ≡ Option.Some u) × ¬ IsDone links u)) }
    ensures done { (links : List Link) (t u : ℕ) (on : Option ℕ)
        → (IsDone (with_wait links t on) u ↔ IsDone links u) }
    ensures spawned { (links : List Link) (t c p : ℕ) (on : Option ℕ)
        → (SpawnedBy (with_wait links t on) c p ↔ SpawnedBy links c p) }
    ensures descents { (links : List Link) (t c u : ℕ) (on : Option ℕ)
        → (DescendsFrom (with_wait links t on) c u ↔ DescendsFrom links c u) }
{}

/// If a task waits for nobody, since its next operation is no wait or awaits a done task, then setting what it waits
/// for ends no chain.
pub fn a_wait_set_where_none_was_keeps_chains()
    ensures waits { (links : List Link) (t s u : ℕ) (on : Option ℕ) → WaitsForNobody links t
        → WaitsOn links s u → WaitsOn (with_wait links t on) s u }
    ensures unless_done { (links : List Link) (t s u : ℕ) (on : Option ℕ) → WaitsForNobody links t
        → WaitsOnUnlessDone links s u → WaitsOnUnlessDone (with_wait links t on) s u }
    ensures yields { (links : List Link) (t s c : ℕ) (on : Option ℕ) → WaitsForNobody links t
        → YieldsTo links s c → YieldsTo (with_wait links t on) s c }
    // Taking a wait of a done task away changes no chain at all.
    ensures taken_away { (links : List Link) (t s u : ℕ) → WaitsForNobody links t
        → (WaitsOn (with_wait links t Option.None) s u ↔ WaitsOn links s u) }
{}

/// A task that is done is no longer waited for, and nothing else changes.
pub fn setting_a_task_done()
    ensures waits { (links : List Link) (t s u : ℕ) → t < length links
        → (WaitsFor (with_done links t) s u ↔ (WaitsFor links s u × (u ≢ t))) }
    ensures done { (links : List Link) (t u : ℕ) → t < length links
        → (IsDone (with_done links t) u ↔ ((u ≡ t) ⊎ IsDone links u)) }
    ensures spawned { (links : List Link) (t c p : ℕ)
        → (SpawnedBy (with_done links t) c p ↔ SpawnedBy links c p) }
    ensures descents { (links : List Link) (t c u : ℕ)
        → (DescendsFrom (with_done links t) c u ↔ DescendsFrom links c u) }
{}

/// If a task waits for nobody when it is done, only the chains of waits that lead to it itself end.
pub fn a_done_task_that_waited_for_nobody_ends_no_other_chain()
    ensures waits { (links : List Link) (t s u : ℕ) → WaitsForNobody links t → u ≢ t
        → (WaitsOn (with_done links t) s u ↔ WaitsOn links s u) }
    ensures unless_done { (links : List Link) (t s u : ℕ) → t < length links → WaitsForNobody links t
        → WaitsOnUnlessDone links s u → WaitsOnUnlessDone (with_done links t) s u }
    ensures yields { (links : List Link) (t s c : ℕ) → WaitsForNobody links t → ¬ DescendsFrom links c t
        → (YieldsTo (with_done links t) s c ↔ YieldsTo links s c) }
{}

/// A task that is joined no longer descends from its parent, and nothing else changes.
pub fn setting_a_task_joined()
    ensures waits { (links : List Link) (t s u : ℕ)
        → (WaitsFor (with_joined links t) s u ↔ WaitsFor links s u) }
    ensures chains { (links : List Link) (t s u : ℕ)
        → (WaitsOn (with_joined links t) s u ↔ WaitsOn links s u) }
    ensures unless_done { (links : List Link) (t s u : ℕ)
        → (WaitsOnUnlessDone (with_joined links t) s u ↔ WaitsOnUnlessDone links s u) }
    ensures done { (links : List Link) (t u : ℕ) → (IsDone (with_joined links t) u ↔ IsDone links u) }
    ensures spawned { (links : List Link) (t c p : ℕ) → t < length links
        → (SpawnedBy (with_joined links t) c p ↔ (SpawnedBy links c p × (c ≢ t))) }
    ensures descents { (links : List Link) (t c u : ℕ) → ¬ DescendsFrom links c t
        → (DescendsFrom (with_joined links t) c u ↔ DescendsFrom links c u) }
    ensures yields { (links : List Link) (t s c : ℕ) → ¬ DescendsFrom links c t
        → (YieldsTo (with_joined links t) s c ↔ YieldsTo links s c) }
    // To the joined task those alone yield that wait on it.
    ensures joined { (links : List Link) (t s : ℕ) → t < length links
        → (YieldsTo (with_joined links t) s t ↔ WaitsOn links s t) }
{}

/// A task that is added leaves waits, descent and yielding among the others as they were.
pub fn adding_a_task()
    ensures waits { (links : List Link) (parent : Option ℕ) (s u : ℕ)
        → (WaitsFor (links ++ new_link parent ∷ []) s u ↔ WaitsFor links s u) }
    ensures chains { (links : List Link) (parent : Option ℕ) (s u : ℕ)
        → (WaitsOn (links ++ new_link parent ∷ []) s u ↔ WaitsOn links s u) }
    ensures unless_done { (links : List Link) (parent : Option ℕ) (s u : ℕ)
        → (WaitsOnUnlessDone (links ++ new_link parent ∷ []) s u ↔ WaitsOnUnlessDone links s u) }
    ensures done { (links : List Link) (parent : Option ℕ) (u : ℕ)
        → (IsDone (links ++ new_link parent ∷ []) u ↔ IsDone links u) }
    ensures spawned { (links : List Link) (parent : Option ℕ) (c p : ℕ)
        → (SpawnedBy (links ++ new_link parent ∷ []) c p
        ↔ (SpawnedBy links c p ⊎ ((c ≡ length links) × (parent ≡ Option.Some p)))) }
    ensures descents { (links : List Link) (parent : Option ℕ) (c u : ℕ) → IsOrdered links → c ≢ length links
        → (DescendsFrom (links ++ new_link parent ∷ []) c u ↔ DescendsFrom links c u) }
    ensures yields { (links : List Link) (parent : Option ℕ) (s c : ℕ) → IsOrdered links → c ≢ length links
        → (YieldsTo (links ++ new_link parent ∷ []) s c ↔ YieldsTo links s c) }
{}

/// Who the added task waits for, descends from and yields to, and who waits for it and yields to it.
pub fn an_added_task()
    ensures waits { (links : List Link) (parent : Option ℕ)
        → WaitsForNobody (links ++ new_link parent ∷ []) (length links) }
    ensures awaited { (links : List Link) (parent : Option ℕ) (s : ℕ) → IsOrdered links
        → ¬ WaitsFor (links ++ new_link parent ∷ []) s (length links) }
    ensures descends { (links : List Link) (parent : Option ℕ) (u : ℕ) → IsOrdered links
        → ForSome parent (λ p. p < length links)
        → (DescendsFrom (links ++ new_link parent ∷ []) (length links) u
        ↔ ((u ≡ length links) ⊎ ((p : ℕ) × (parent ≡ Option.Some p) × DescendsFrom links p u))) }
    ensures yields { (links : List Link) (parent : Option ℕ) (t : ℕ) → IsOrdered links
        → ForSome parent (λ p. p < length links)
        → (YieldsTo (links ++ new_link parent ∷ []) (length links) t ↔ (t ≡ length links)) }
    // Those yield to it that yield to its parent.
    ensures yielded { (links : List Link) (parent : Option ℕ) (s : ℕ) → IsOrdered links
        → ForSome parent (λ p. p < length links)
        → (YieldsTo (links ++ new_link parent ∷ []) s (length links)
        ↔ ((s ≡ length links) ⊎ ((p : ℕ) × (parent ≡ Option.Some p) × YieldsTo links s p))) }
{}

/// If each task that isn't done is held up and some task isn't done, the edges of the stuck cycle are true and go round
/// once, from the lowest of their tasks on.
pub fn a_stuck_cycle_goes_round()
    ensures { (links : List Link) (held : List (Option ℕ)) (t : ℕ) → IsOrdered links → AllAreHeldUp links held
        → IsUndone links t → IsCycle links held (stuck_cycle links held) }
{}
