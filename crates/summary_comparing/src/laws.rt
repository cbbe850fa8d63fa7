//! Laws of comparisons: what may be left out, and what a method needs.
ghost use Rattle.std.specs.Prelude.{◌≡◌, false, IsTrue, List, Contains};
ghost use Rattle.effect_sets.specs.declared.effects.Effect.{Effect};
ghost use Rattle.summary_comparing.specs.Comparisons.{is_needed, needed_effects};
ghost use Rattle.summary_comparing.specs.Widest.{is_under};

/// What is covered by declared effects and is needed stays covered if those that nothing needs are left out.
pub fn idle_effects_can_be_left_out()
    ensures body { (body children declared : List Effect) (need : Effect) → Contains body need
        → IsTrue (is_under declared need) → IsTrue (is_under (needed_effects body children declared) need) }
    ensures children { (body children declared : List Effect) (need : Effect) → Contains children need
        → IsTrue (is_under declared need) → IsTrue (is_under (needed_effects body children declared) need) }
{}
