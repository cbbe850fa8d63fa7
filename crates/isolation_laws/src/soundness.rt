//! What an accepted program keeps to when it runs: each task does no more than it declares.
//!
//! The rules on effects are those of `effect_check`, and `seg_exec` defines what a segment does. The laws here connect
//! the two. They are about one task and its declaration; `isolation_laws` relates tasks to one another.
ghost use Rattle.std.specs.Prelude.{◌≡◌, ℕ, ℤ, Any, Bool, true, Contains, List, Some, length, slice_get};
ghost use Rattle.twe_base.specs.declared.place.Place.{Place};
ghost use Rattle.effect_sets.specs.declared.effects.Effect.{Effect};
ghost use Rattle.effect_sets.specs.declared.effects.Summary.{Summary};
ghost use Rattle.effect_sets.specs.Access.{SomeCoversAccess};
ghost use Rattle.effect_sets.specs.Covers.{EffectWithin};
ghost use Rattle.twe_program.specs.declared.program.Decl.{Decl};
ghost use Rattle.twe_program.specs.Fitting.{TakesArguments};
ghost use Rattle.twe_program.specs.Program.{Program};
ghost use Rattle.twe_program.specs.WellFormed.{IsWellFormed};
ghost use Rattle.seg_meaning.specs.declared.frame.Frame.{Frame};
ghost use Rattle.seg_meaning.specs.declared.stop.Stop.TheVariants.{Make};
ghost use Rattle.seg_meaning.specs.Access.{Access};
ghost use Rattle.seg_meaning.specs.Entry.{effects_at, entry_frame};
ghost use Rattle.seg_meaning.specs.Giving.{given};
ghost use Rattle.seg_meaning.specs.Segment.{segment};
ghost use Rattle.isolation_laws.specs.soundness.DeclaredNow.{DeclaredNow, access_of};
ghost use Rattle.isolation_laws.specs.soundness.KeepsEffects.{KeepsEffects};
ghost use Rattle.isolation_laws.specs.soundness.RunsWith.{RunsWith};

/// A task of a program that keeps the rules on effects does no more than it declares. Each access of its segment lies in
/// the set of one effect of its summary, filled with its arguments, and that effect writes if the access writes. This
/// holds whatever values the cells have.
pub fn accepted_programs_keep_their_effects()
    ensures { (p : Program) → IsWellFormed p → KeepsEffects p
        → (args : List ℤ) (frame : Frame) → RunsWith p args frame → (cells : List ℤ)
        → (access : Access) → Contains (segment p frame cells).accesses access → DeclaredNow p frame.decl args access }
{}

/// A task runs with its arguments from its first segment to its last. Before the first segment its frame runs with the
/// arguments, if there are as many as its declaration has parameters. It still does once it has taken a value that it
/// waited for, and after each segment. A task that a segment makes runs with the arguments that it is given, and its
/// effects are those of its declaration's summary, filled with them.
pub fn arguments_stay()
    ensures entry { (p : Program) (task : ℕ) (args : List ℤ) → TakesArguments (slice_get p.tasks task) (length args)
        → RunsWith p args (entry_frame p task args) }
    ensures given { (p : Program) (args : List ℤ) (frame : Frame) → RunsWith p args frame → (value : ℤ)
        → RunsWith p args (given frame value) }
    ensures later { (p : Program) → IsWellFormed p → KeepsEffects p
        → (args : List ℤ) (frame : Frame) → RunsWith p args frame → (cells : List ℤ)
        → RunsWith p args (segment p frame cells).frame }
    ensures made { (p : Program) → IsWellFormed p → KeepsEffects p
        → (args : List ℤ) (frame : Frame) → RunsWith p args frame → (cells : List ℤ)
        → (child : Frame) (given : List ℤ) (effects : Summary) (spawned : Bool) (future : ℕ) (place : Place)
        → (segment p frame cells).stop ≡ Make child given effects spawned future place
        → RunsWith p given child × (effects ≡ effects_at p child.decl given) }
{}

/// Each effect of a spawned task lies within one effect of its maker, which writes if that effect writes.
pub fn spawned_effects_lie_within()
    ensures { (p : Program) → IsWellFormed p → KeepsEffects p
        → (args : List ℤ) (frame : Frame) → RunsWith p args frame → (cells : List ℤ)
        → (child : Frame) (given : List ℤ) (effects : Summary) (future : ℕ) (place : Place)
        → (segment p frame cells).stop ≡ Make child given effects true future place
        → (e : Effect) → Contains effects.effects e → Any (λ d. EffectWithin d e) (effects_at p frame.decl args).effects }
{}

/// The first task of such a program does no more than `main` declares, as its summary is written.
pub fn main_keeps_to_its_summary()
    ensures { (p : Program) → IsWellFormed p → KeepsEffects p
        → (main : Decl) → slice_get p.tasks p.main ≡ Some main
        → (frame : Frame) → frame.decl ≡ p.main → (cells : List ℤ)
        → (access : Access) → Contains (segment p frame cells).accesses access
        → SomeCoversAccess main.summary.effects (access_of p access) }
{}
