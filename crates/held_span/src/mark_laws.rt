//! The law of marks.
ghost use Rattle.std.specs.Prelude.{◌≡◌, ◌↔◌, ℕ, List, Some, slice_get};
ghost use Rattle.effect_sets.specs.Interference.{SomeInterfere};
ghost use Rattle.held_span.specs.Marks.{AreMarksOf, SharesMark};
ghost use Rattle.held_span.specs.Rivals.{EffectList};
ghost use Rattle.held_span.specs.declared.marks.EffectMarks.{EffectMarks};

/// One list sees a mark that another one leaves if and only if some effects of the two interfere.
pub fn shared_marks_tell_interference()
    ensures { (lists : List EffectList) (marks : EffectMarks) → AreMarksOf lists marks
        → (a b : ℕ) (first second : EffectList) → slice_get lists a ≡ Some first → slice_get lists b ≡ Some second
        → (SharesMark marks a b ↔ SomeInterfere first second) }
{}
