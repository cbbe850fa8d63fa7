//! The laws on records. Each of these steps changes the content of one node, which the worker has locked, and is one event of
//! the core of admission.
ghost use Rattle.std.specs.Prelude.{ℕ, List};
ghost use Rattle.region_paths.specs.declared.elements.Elem.{Elem};
ghost use Rattle.effect_sets.specs.declared.effects.Effect.{Effect};
ghost use Rattle.twe_base.specs.Limits.{Bounds};
ghost use Rattle.twe_program.specs.Program.{Program};
ghost use Rattle.seg_journal.specs.declared.numbered.NumberedEntry.{NumberedEntry};
ghost use Rattle.floor_laws.specs.rule.Floors.{Floor};
ghost use Rattle.floor_laws.specs.admission.admission_core.States.{Activity, Record, State};
ghost use Rattle.floor_laws.specs.rule.nodes.RecordSteps.{MayPlace, MayPlaceChild, MayTakeOut, after_placing, after_removing, record_here};
ghost use Rattle.floor_laws.specs.rule.nodes.Rule.{IsOneEvent, KeepsBoth};
ghost use Rattle.floor_laws.specs.rule.nodes.Trees.{Tree};

/// A worker at its place may place the record of a task that is to be admitted.
pub fn a_record_may_be_placed()
    ensures { (nodes : List (List Elem)) (p : Program) (lim : Bounds) (log : List NumberedEntry) (f : Floor) (tree : Tree)
        (core : State) (i : ℕ) (a : Activity) (t : ℕ) (e : Effect) (done : List ℕ) (content : List Record)
        → KeepsBoth nodes p lim log f tree core → MayPlace nodes tree i a t e done content
        → IsOneEvent nodes p lim log f core (after_placing tree i a (record_here t e a) content) }
{}

/// A worker at its place may place the record of a spawned child, whatever stands there.
pub fn a_childs_record_may_be_placed()
    ensures { (nodes : List (List Elem)) (p : Program) (lim : Bounds) (log : List NumberedEntry) (f : Floor) (tree : Tree)
        (core : State) (i : ℕ) (a : Activity) (c : ℕ) (e : Effect) (done : List ℕ) (content : List Record)
        → KeepsBoth nodes p lim log f tree core → MayPlaceChild f.held tree i a c e done content
        → IsOneEvent nodes p lim log f core (after_placing tree i a (record_here c e a) content) }
{}

/// A worker at its place may remove the record of a task that is not enabled.
pub fn a_record_may_be_removed()
    ensures { (nodes : List (List Elem)) (p : Program) (lim : Bounds) (log : List NumberedEntry) (f : Floor) (tree : Tree)
        (core : State) (i : ℕ) (a : Activity) (t : ℕ) (e : Effect) (done : List ℕ) (before content fresh : List Record)
        → KeepsBoth nodes p lim log f tree core → MayTakeOut f.held tree i a t e done before content fresh
        → IsOneEvent nodes p lim log f core (after_removing tree i a (record_here t e a) content fresh) }
{}
