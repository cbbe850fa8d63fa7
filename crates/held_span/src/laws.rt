//! The laws of the held span.
ghost use Rattle.std.specs.Prelude.{◌≡◌, ◌≤◌, ℕ, List};
ghost use Rattle.seg_journal.specs.declared.moves.Move.{Move};
ghost use Rattle.twe_base.specs.Limits.{Bounds};
ghost use Rattle.twe_program.specs.Program.{Program};
ghost use Rattle.span_profile.specs.Profiles.{IsProfile};
ghost use Rattle.held_span.specs.HeldSpans.{IsHeldProfile, IsHeldSpan};
ghost use Rattle.held_span.specs.declared.hold.Hold.{Hold as AnyHold};

/// The held span is no less than the span, and no more than the work.
pub fn the_held_span_is_between()
    ensures least { (p : Program) (lim : Bounds) (moves : List Move) (work span held : ℕ) (chain : List ℕ)
        → IsProfile p lim moves work span chain → IsHeldSpan p lim moves held → span ≤ held }
    ensures most { (p : Program) (lim : Bounds) (moves : List Move) (work span held : ℕ) (chain : List ℕ)
        → IsProfile p lim moves work span chain → IsHeldSpan p lim moves held → held ≤ work }
{}

/// A list of moves has one held profile: the held span, the times of the entries and the holds are functions of the program, the
/// limits and the moves.
pub fn one_held_profile()
    ensures { (p : Program) (lim : Bounds) (moves : List Move) (span other : ℕ) (starts ends firsts lasts : List ℕ)
        (holds others : List AnyHold)
        → IsHeldProfile p lim moves span starts ends holds → IsHeldProfile p lim moves other firsts lasts others
        → (span ≡ other) × (starts ≡ firsts) × (ends ≡ lasts) × (holds ≡ others) }
{}
