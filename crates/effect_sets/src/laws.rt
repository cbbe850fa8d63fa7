//! Laws that relate cover and interference of effects to single accesses, and written effects to filled ones.
ghost use Rattle.std.specs.Prelude.{◌≡◌, ◌↔◌, ℤ, All, Any, IsTrue, List};
ghost use Rattle.region_paths.specs.declared.elements.Elem.{Elem};
ghost use Rattle.region_paths.specs.Arguments.{ArgumentsStand, GivesValue, literals};
ghost use Rattle.region_paths.specs.Filled.{Valuation, filled, has_args};
ghost use Rattle.effect_sets.specs.declared.effects.Effect.{Effect};
ghost use Rattle.effect_sets.specs.Access.{PathAccess, AccessInterferes, AccessInterferesWithSome, Conflict, CoversAccess, SomeCoversAccess};
ghost use Rattle.effect_sets.specs.Covers.{EffectWithin, effect_covers};
ghost use Rattle.effect_sets.specs.Filled.{effect_under, fill_effect};
ghost use Rattle.effect_sets.specs.Interference.{Interferes, SomeInterfere, statically_interferes};

/// If one effect is within another, the other covers each access that the first covers. For a filled effect the
/// converse holds too. If each effect of one list is within some effect of another list, each access that the first
/// list covers is covered by the other list.
pub fn cover_is_of_accesses()
    ensures within { (d e : Effect) → EffectWithin d e
        → (a : PathAccess) → CoversAccess e a → CoversAccess d a }
    ensures exact { (d e : Effect) → IsTrue (filled e.path)
        → ((a : PathAccess) → CoversAccess e a → CoversAccess d a) → EffectWithin d e }
    ensures lists { (ds es : List Effect) → All (λ e. Any (λ d. EffectWithin d e) ds) es
        → (a : PathAccess) → SomeCoversAccess es a → SomeCoversAccess ds a }
{}

/// Two effects interfere if and only if they cover two accesses that conflict. An access interferes with an effect if
/// and only if it conflicts with an access that the effect covers. So if two effects, or two lists of effects, do not
/// interfere, then no access that one covers interferes with the other, and no accesses that they cover conflict.
pub fn interference_is_of_accesses()
    ensures effects { (d e : Effect) → Interferes d e
        ↔ ((a : PathAccess) × (b : PathAccess) × CoversAccess d a × CoversAccess e b × Conflict a b) }
    ensures access { (a : PathAccess) (e : Effect) → AccessInterferes a e
        ↔ ((b : PathAccess) × CoversAccess e b × Conflict a b) }
    ensures alone { (d e : Effect) → ¬ Interferes d e
        → (a : PathAccess) → CoversAccess d a → ¬ AccessInterferes a e }
    ensures apart { (d e : Effect) → ¬ Interferes d e
        → (a b : PathAccess) → CoversAccess d a → CoversAccess e b → ¬ Conflict a b }
    ensures lists_alone { (ds es : List Effect) → ¬ SomeInterfere ds es
        → (a : PathAccess) → SomeCoversAccess ds a → ¬ AccessInterferesWithSome a es }
    ensures lists_apart { (ds es : List Effect) → ¬ SomeInterfere ds es
        → (a b : PathAccess) → SomeCoversAccess ds a → SomeCoversAccess es b → ¬ Conflict a b }
{}

/// The tests on written effects are sound: what they find holds under every valuation of the variables.
pub fn written_tests_are_sound()
    ensures covered { (d e : Effect) → IsTrue (effect_covers d e)
        → (v : Valuation) → EffectWithin (effect_under v d) (effect_under v e) }
    ensures apart { (d e : Effect) → ¬ IsTrue (statically_interferes d e)
        → (v : Valuation) → ¬ Interferes (effect_under v d) (effect_under v e) }
{}

/// Filling an effect with numbers gives the same effect as a valuation that gives its variables these numbers. If each
/// written argument matches its number, the effect filled with the numbers is within the effect filled with the written
/// arguments.
pub fn filling_of_effects_is_sound()
    ensures numbers { (v : Valuation) (numbers : List ℤ) (e : Effect) → GivesValue v numbers
        → IsTrue (has_args (literals numbers) e.path)
        → fill_effect (literals numbers) e ≡ effect_under v e }
    ensures arguments { (v : Valuation) (args : List Elem) (numbers : List ℤ) (e : Effect)
        → ArgumentsStand v args numbers
        → EffectWithin (effect_under v (fill_effect args e)) (fill_effect (literals numbers) e) }
{}
