//! What follows from the invariant if only one worker can take from a deck.
ghost use Rattle.std.specs.Prelude.{◌≡◌, ℕ, List, [], ◌∷◌, ◌++◌};
ghost use Rattle.steal_pool.specs.declared.law.Hand.{Hand};
ghost use Rattle.steal_pool.specs.Stands.{Leaves, WasEmpty};

/// If the owner alone can take from its deck, it takes the numbers that it pushed, in order. The number that it takes
/// next is the first that it pushed and has not taken. It finds its deck empty only once it has taken all of them.
pub fn lone_worker_takes_in_order()
    ensures first { (old new : Hand) (number : ℕ) → Leaves old (number ∷ []) new → old.takers ≡ 1
        → (held : List ℕ) × (old.pushed ≡ old.took ++ number ∷ held) }
    ensures empty { (known : Hand) → WasEmpty known → known.takers ≡ 1 → known.pushed ≡ known.took }
{}
