//! The laws on starts and on quiet points: how the nodes lie when a floor starts from the state of a run, and when no worker
//! has a turn.
ghost use Rattle.std.specs.Prelude.{◌≡◌, ℕ, List, []};
ghost use Rattle.region_paths.specs.declared.elements.Elem.{Elem};
ghost use Rattle.prefix_tree.specs.Nodes.{IsTreeOfPaths};
ghost use Rattle.twe_base.specs.Limits.{Bounds};
ghost use Rattle.twe_program.specs.Program.{Program};
ghost use Rattle.twe_program.specs.WellFormed.{IsWellFormed};
ghost use Rattle.isolation_laws.specs.soundness.KeepsEffects.{KeepsEffects};
ghost use Rattle.machine_state.specs.declared.state.State as machine;
ghost use Rattle.machine_state.specs.Moves.{start_of};
ghost use Rattle.machine_state.specs.Runs.{IsRun, state_after};
ghost use Rattle.seg_journal.specs.declared.numbered.NumberedEntry.{NumberedEntry};
ghost use Rattle.seg_journal.specs.Merging.{journal_of};
ghost use Rattle.floor_laws.specs.rule.Floors.{Floor};
ghost use Rattle.floor_laws.specs.rule.Steps.{HasNoTurn, floor_at};
ghost use Rattle.floor_laws.specs.admission.admission_core.States.{Record, State};
ghost use Rattle.floor_laws.specs.rule.nodes.Rule.{KeepsBoth, KeepsNodes};
ghost use Rattle.floor_laws.specs.rule.nodes.Starts.{AreContents, AreOfEnabled, core_at, tree_at};
ghost use Rattle.floor_laws.specs.rule.nodes.Trees.{Tree};

/// If a floor starts from the state of a run, and one record for each effect of each enabled task lies at the effect's place,
/// the nodes keep the rule.
pub fn nodes_wake_by_the_rule()
    ensures { (nodes : List (List Elem)) (p : Program) (lim : Bounds) (log : List NumberedEntry) (st : machine.State)
        (records : List Record) (contents : ℕ → List Record) → IsWellFormed p → KeepsEffects p → IsTreeOfPaths nodes
        → IsRun p lim (journal_of log) st → AreOfEnabled nodes st records → AreContents records contents
        → KeepsNodes nodes p lim log (floor_at log st) (tree_at records contents) (core_at (journal_of log) st records) }
{}

/// At the start of a run no record stands, and the nodes keep the rule.
pub fn nodes_start_by_the_rule()
    ensures { (nodes : List (List Elem)) (p : Program) (lim : Bounds) → IsWellFormed p → KeepsEffects p → IsTreeOfPaths nodes
        → KeepsNodes nodes p lim [] (floor_at [] (start_of p lim)) (tree_at [] (λ n. [])) (core_at [] (start_of p lim) []) }
{}

/// If no worker has a turn, the records that stand are those of the enabled tasks: one for each effect, at the effect's place.
/// So the nodes lie as when a floor starts from the state that the journal has led to.
pub fn quiet_nodes_show_the_enabled_tasks()
    ensures { (nodes : List (List Elem)) (p : Program) (lim : Bounds) (log : List NumberedEntry) (f : Floor) (tree : Tree)
        (core : State) → KeepsBoth nodes p lim log f tree core → ((i : ℕ) → HasNoTurn f i)
        → AreOfEnabled nodes (state_after p lim (journal_of log)) core.records }
{}
