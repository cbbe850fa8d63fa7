//! The laws on locks. Locks are taken hand over hand: after the root, a node is locked only by the worker that has locked
//! its parent. Each of these steps is one event of the core of admission.
ghost use Rattle.std.specs.Prelude.{◌≡◌, ℕ, List, [], ◌∷◌, Some, None};
ghost use Rattle.region_paths.specs.declared.elements.Elem.{Elem};
ghost use Rattle.effect_sets.specs.declared.effects.Effect.{Effect};
ghost use Rattle.twe_base.specs.Limits.{Bounds};
ghost use Rattle.twe_program.specs.Program.{Program};
ghost use Rattle.seg_journal.specs.declared.numbered.NumberedEntry.{NumberedEntry};
ghost use Rattle.floor_laws.specs.rule.Floors.{Floor};
ghost use Rattle.floor_laws.specs.admission.admission_core.States.{Activity, Leaves, Stage, State, Steps, Walks};
ghost use Rattle.floor_laws.specs.rule.nodes.LockSteps.{LocksNode, MayEnter, MayGiveNodeBack, MayGiveParent, MayGoDown, MayPassBy, MayWalkDown, MayWalkUp, UnlocksNode};
ghost use Rattle.floor_laws.specs.rule.nodes.LockSteps.{after_turning, stopped};
ghost use Rattle.floor_laws.specs.rule.nodes.Rule.{IsOneEvent, KeepsBoth};
ghost use Rattle.floor_laws.specs.rule.nodes.Trees.{Tree, Unlocked};

/// A worker that does nothing in the tree may lock the root.
pub fn the_root_may_be_locked()
    ensures { (nodes : List (List Elem)) (p : Program) (lim : Bounds) (log : List NumberedEntry) (f : Floor) (tree : Tree)
        (core : State) (i : ℕ) (a : Activity) → KeepsBoth nodes p lim log f tree core → MayEnter nodes f.held tree i a
        → tree.locks 0 ≡ Unlocked → LocksNode nodes p lim log f tree core i 0 a }
{}

/// A worker above its place may lock the next node on the way to it.
pub fn a_node_on_the_way_may_be_locked()
    ensures { (nodes : List (List Elem)) (p : Program) (lim : Bounds) (log : List NumberedEntry) (f : Floor) (tree : Tree)
        (core : State) (i : ℕ) (a : Activity) (n c : ℕ) → KeepsBoth nodes p lim log f tree core → MayGoDown nodes tree i a n c
        → tree.locks c ≡ Unlocked → LocksNode nodes p lim log f tree core i c (record a { stage = Steps n c }) }
{}

/// A worker whose effect has a wildcard may lock an unfinished node below the last one that it has locked.
pub fn a_node_below_may_be_locked()
    ensures { (nodes : List (List Elem)) (p : Program) (lim : Bounds) (log : List NumberedEntry) (f : Floor) (tree : Tree)
        (core : State) (i : ℕ) (a : Activity) (t : ℕ) (e : Effect) (n c : ℕ) (stack done : List ℕ)
        → KeepsBoth nodes p lim log f tree core → MayWalkDown nodes tree i a t e n c stack done → tree.locks c ≡ Unlocked
        → LocksNode nodes p lim log f tree core i c (record a { stage = Walks (c ∷ n ∷ stack) done }) }
{}

/// A worker that has locked a node and its child may unlock the node.
pub fn a_parent_may_be_unlocked()
    ensures { (nodes : List (List Elem)) (p : Program) (lim : Bounds) (log : List NumberedEntry) (f : Floor) (tree : Tree)
        (core : State) (i : ℕ) (a : Activity) (n c : ℕ) (stage : Stage) → KeepsBoth nodes p lim log f tree core
        → MayGiveParent tree i a n c stage → UnlocksNode nodes p lim log f tree core i n (record a { stage = stage }) }
{}

/// A worker that has been through all that lies below a node, and sees the node's records pass, may unlock it as finished.
pub fn a_finished_node_may_be_unlocked()
    ensures { (nodes : List (List Elem)) (p : Program) (lim : Bounds) (log : List NumberedEntry) (f : Floor) (tree : Tree)
        (core : State) (i : ℕ) (a : Activity) (c n : ℕ) (stack done : List ℕ) → KeepsBoth nodes p lim log f tree core
        → MayWalkUp nodes tree i a c n stack done
        → UnlocksNode nodes p lim log f tree core i c (record a { stage = Walks (n ∷ stack) (c ∷ done) }) }
{}

/// A worker that only gives back what it holds may unlock the next node.
pub fn a_node_may_be_given_back()
    ensures { (nodes : List (List Elem)) (p : Program) (lim : Bounds) (log : List NumberedEntry) (f : Floor) (tree : Tree)
        (core : State) (i : ℕ) (a : Activity) (n : ℕ) (others : List ℕ) → KeepsBoth nodes p lim log f tree core
        → MayGiveNodeBack tree i a n others → UnlocksNode nodes p lim log f tree core i n (record a { stage = Leaves others }) }
{}

/// A worker that walks through a node may take a child as finished that has no children, if no record lies at the child. No word
/// changes.
pub fn a_bare_node_may_be_passed_by()
    ensures { (nodes : List (List Elem)) (p : Program) (lim : Bounds) (log : List NumberedEntry) (f : Floor) (tree : Tree)
        (core : State) (i : ℕ) (a : Activity) (n c : ℕ) (stack done : List ℕ) → KeepsBoth nodes p lim log f tree core
        → MayPassBy nodes tree i a n c stack done → tree.contents c ≡ Some []
        → IsOneEvent nodes p lim log f core
        (after_turning tree i (Some (record a { stage = Walks (n ∷ stack) (c ∷ done) }))) }
{}

/// A worker may stop at any moment, and only give back what it holds from then on. No word changes.
pub fn an_activity_may_stop()
    ensures { (nodes : List (List Elem)) (p : Program) (lim : Bounds) (log : List NumberedEntry) (f : Floor) (tree : Tree)
        (core : State) (i : ℕ) (a : Activity) → KeepsBoth nodes p lim log f tree core → tree.activities i ≡ Some a
        → IsOneEvent nodes p lim log f core (after_turning tree i (Some (stopped a))) }
{}

/// A worker that has given all back does nothing in the tree any more. No word changes.
pub fn an_activity_may_end()
    ensures { (nodes : List (List Elem)) (p : Program) (lim : Bounds) (log : List NumberedEntry) (f : Floor) (tree : Tree)
        (core : State) (i : ℕ) (a : Activity) → KeepsBoth nodes p lim log f tree core → tree.activities i ≡ Some a
        → a.stage ≡ Leaves [] → IsOneEvent nodes p lim log f core (after_turning tree i None) }
{}
