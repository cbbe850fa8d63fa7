//! Where paths meet, and what the rules say of them.
ghost use Rattle.std.specs.Prelude.{◌≡◌, ℕ, IsFalse, IsTrue, None};
ghost use Rattle.region_paths.specs.Apart.{apart};
ghost use Rattle.region_paths.specs.Concrete.{ConcretePath};
ghost use Rattle.region_paths.specs.Filled.{Valuation, filled};
ghost use Rattle.region_paths.specs.Written.{WrittenPath};
ghost use Rattle.effect_sets.specs.declared.effects.Effect.{Effect};
ghost use Rattle.effect_meeting.specs.Always.{deciding_local};
ghost use Rattle.effect_meeting.specs.Meeting.{AgreeBelow, MeetAt, NeverMeet};
ghost use Rattle.effect_meeting.specs.Meetings.{InterfereUnder};

/// Paths that are apart by the rules meet nowhere. Paths without variables that are not apart meet somewhere. With variables that
/// need not be so: `A:[i]:[i]` and `A:[1]:[2]` are not apart, since the rules compare them index by index, and they meet nowhere.
pub fn apart_paths_never_meet()
    ensures apart { (shared : ℕ) (p q : WrittenPath) → IsTrue (apart p q) → NeverMeet shared p q }
    ensures filled { (shared : ℕ) (p q : WrittenPath) → IsTrue (filled p) → IsTrue (filled q)
        → IsFalse (apart p q) → (c : ConcretePath) × MeetAt shared p q c }
{}

/// If no local decides whether two effects interfere, the values of the parameters do: whether they interfere is the same for all
/// values of the others.
pub fn parameters_decide()
    ensures { (shared : ℕ) (a b : Effect) → deciding_local shared a b ≡ None
        → (v w later_v later_w : Valuation) → AgreeBelow shared v w → AgreeBelow shared v later_v → AgreeBelow shared v later_w
        → InterfereUnder v w a b → InterfereUnder later_v later_w a b }
{}
