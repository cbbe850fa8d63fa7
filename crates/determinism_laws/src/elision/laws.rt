//! Laws of sequential executions: the bound in their definition does not matter, and they are made of segments.
ghost use Rattle.std.specs.Prelude.{◌≡◌, ◌≢◌, ◌≤◌, ℕ, ℤ, List};
ghost use Rattle.twe_base.specs.Limits.{Bounds};
ghost use Rattle.twe_program.specs.Program.{Program};
ghost use Rattle.seg_meaning.specs.declared.frame.Frame.{Frame};
ghost use Rattle.determinism_laws.specs.declared.elision.progress.Progress.{Progress};
ghost use Rattle.determinism_laws.specs.elision.Building.{EndsAtDone, GoesOnAtJoin, GoesOnAtSpawn, RunsTo};
ghost use Rattle.determinism_laws.specs.elision.Elision.{elided, ends, frame_at_start, goes_on, most_segments, progress_at_start, run_within};

/// An execution that has ended within a bound on its segments ends in the same way within each larger bound. The bound of
/// the definition is large enough: within it each execution has ended.
pub fn larger_bounds_give_the_same()
    ensures larger { (p : Program) (lim : Bounds) (n m : ℕ) (frame : Frame) (s : Progress) → n ≤ m
        → run_within p lim n frame s ≢ goes_on → run_within p lim m frame s ≡ run_within p lim n frame s }
    ensures enough { (p : Program) (lim : Bounds) (task : ℕ) (args cells : List ℤ) → 1 ≤ lim.tasks
        → elided p lim task args cells ≢ goes_on }
{}

/// An execution is put together from its segments: a segment that ends its task ends the execution of the task; after a
/// join it goes on with the child's value; and after a spawn the execution of the child comes first. If an execution of
/// the declaration is put together so, it is the one of the definition.
pub fn executions_are_made_of_segments()
    ensures done { EndsAtDone }
    ensures joins { GoesOnAtJoin }
    ensures spawns { GoesOnAtSpawn }
    ensures whole { (p : Program) (lim : Bounds) (task : ℕ) (args cells : List ℤ) (value : ℤ) (after : Progress) → 1 ≤ lim.tasks
        → RunsTo p lim (frame_at_start p lim task args) (progress_at_start cells) value after
        → elided p lim task args cells ≡ ends value after }
{}
