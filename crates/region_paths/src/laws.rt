//! Laws that relate the two tests on written paths to the sets of concrete paths.
ghost use Rattle.std.specs.Prelude.{◌≡◌, ℤ, IsFalse, IsTrue, List};
ghost use Rattle.region_paths.specs.declared.elements.Elem.{Elem};
ghost use Rattle.region_paths.specs.Written.{WrittenPath};
ghost use Rattle.region_paths.specs.Inside.{inside};
ghost use Rattle.region_paths.specs.Apart.{apart};
ghost use Rattle.region_paths.specs.Filled.{Valuation, fill, filled, has_args, under};
ghost use Rattle.region_paths.specs.Arguments.{ArgumentsStand, GivesValue, literals};
ghost use Rattle.region_paths.specs.Sets.{SetWithin, SetsApart, SetsMeet};

/// If a path is inside another, each concrete path of the first is one of the second, whatever the values of their
/// variables.
pub fn inside_is_sound()
    ensures { (p q : WrittenPath) → IsTrue (inside p q) → (v : Valuation) → SetWithin (under v p) (under v q) }
{}

/// If two paths are apart, they have no concrete path in common, whatever the values of their variables.
pub fn apart_is_sound()
    ensures { (p q : WrittenPath) → IsTrue (apart p q) → (v : Valuation) → SetsApart (under v p) (under v q) }
{}

/// For paths without variables both tests are exact. A path whose set is within the set of another is inside it. Paths
/// whose sets have nothing in common are apart, and paths that are not apart have a concrete path in common.
pub fn filled_tests_are_exact()
    ensures within { (p q : WrittenPath) → IsTrue (filled p) → IsTrue (filled q)
        → SetWithin p q → IsTrue (inside p q) }
    ensures disjoint { (p q : WrittenPath) → IsTrue (filled p) → IsTrue (filled q)
        → SetsApart p q → IsTrue (apart p q) }
    ensures meet { (p q : WrittenPath) → IsTrue (filled p) → IsTrue (filled q)
        → IsFalse (apart p q) → SetsMeet p q }
{}

/// Filling a path with numbers gives the same path as a valuation that gives its variables these numbers, if there is a
/// number for each of its variables.
pub fn filling_with_numbers_is_a_valuation()
    ensures { (v : Valuation) (numbers : List ℤ) (p : WrittenPath) → GivesValue v numbers
        → IsTrue (has_args (literals numbers) p) → fill (literals numbers) p ≡ under v p }
{}

/// If each written argument matches the number that it evaluates to, then each concrete path of the path filled with
/// the numbers is one of the path filled with the written arguments.
pub fn filling_is_sound()
    ensures { (v : Valuation) (args : List Elem) (numbers : List ℤ) (p : WrittenPath)
        → ArgumentsStand v args numbers → SetWithin (fill (literals numbers) p) (under v (fill args p)) }
{}
