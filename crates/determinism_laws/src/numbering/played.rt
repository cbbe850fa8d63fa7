//! What was run by frames with other numbers, segment by segment, is a sequential execution.
ghost use Rattle.std.specs.Prelude.{◌≡◌, ◌≤◌, ◌∷◌, ◌++◌, ℕ, ℤ, List, length};
ghost use Rattle.twe_base.specs.Limits.{Bounds};
ghost use Rattle.twe_program.specs.Program.{Program};
ghost use Rattle.twe_program.specs.WellFormed.{IsWellFormed};
ghost use Rattle.seg_meaning.specs.Entry.{entry_frame};
ghost use Rattle.determinism_laws.specs.elision.Elision.{first_frame};
ghost use Rattle.determinism_laws.specs.numbering.Played.{ElidesTo, FindTheSame, IsInjective, Played, PlayedStep};
ghost use Rattle.determinism_laws.specs.numbering.Numberings.{AllBelow, AllDiffer, numbering_of};
ghost use Rattle.determinism_laws.specs.numbering.Renumbering.{Numbering};

/// Take a task of a well-formed program that was run from its first frame on, with the tasks below it, each of their
/// segments over cells of its own; and list the segments in the order in which sequential code executes them. If each of
/// them, executed in this order on some cells, finds the values that it found, the sequential execution of the task's
/// declaration on these cells ends with the task's value. It leaves the cells and prints the numbers that the segments give
/// in this order.
pub fn what_was_played_is_elided()
    ensures { (p : Program) (lim : Bounds) (to : Numbering) (values : ℕ → ℤ) → IsWellFormed p → IsInjective to
        → (task : ℕ) (args cells : List ℤ) (steps : List PlayedStep) (upto : ℕ) → 1 ≤ lim.tasks
        → Played p lim to values (to 0) (first_frame lim (to 0) (entry_frame p task args)) steps 1 upto
        → FindTheSame p steps cells
        → ElidesTo p lim task args cells (values (to 0)) steps upto }
{}

/// A list of different numbers, all below a bound, gives a numbering that tells all tasks apart: the k-th number of the
/// list, and from the end of the list on the numbers from the bound on. There are at most as many numbers in the list as
/// the bound is.
pub fn lists_give_numberings()
    ensures apart { (beyond : ℕ) (names : List ℕ)
        → AllDiffer names → AllBelow beyond names → IsInjective (numbering_of beyond names) }
    ensures at { (beyond : ℕ) (before : List ℕ) (name : ℕ) (later : List ℕ)
        → numbering_of beyond (before ++ name ∷ later) (length before) ≡ name }
    ensures few { (beyond : ℕ) (names : List ℕ) → AllDiffer names → AllBelow beyond names → length names ≤ beyond }
{}
