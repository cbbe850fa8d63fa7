//! The laws on places, for every list of nodes. A path that isn't filled has an empty set, so the laws on paths whose sets
//! meet are about filled paths.
ghost use Rattle.std.specs.Prelude.{◌≡◌, ◌⊎◌, List, IsTrue};
ghost use Rattle.region_paths.specs.declared.elements.Elem.{Elem};
ghost use Rattle.region_paths.specs.Written.{WrittenPath};
ghost use Rattle.region_paths.specs.Inside.{inside};
ghost use Rattle.region_paths.specs.Sets.{SetsMeet};
ghost use Rattle.prefix_tree.specs.Prefix.{IsPrefix};
ghost use Rattle.effect_tree.specs.Place.{IsPlace, IsSolid};

/// A path has at most one place.
pub fn a_place_is_one()
    ensures { (nodes : List (List Elem)) (p : WrittenPath) (a b : List Elem) → IsPlace nodes p a → IsPlace nodes p b
        → a ≡ b }
{}

/// If the sets of two paths have a concrete path in common, one of their places is above the other.
pub fn meeting_paths_are_placed_above_one_another()
    ensures { (nodes : List (List Elem)) (p q : WrittenPath) (a b : List Elem) → IsPlace nodes p a
        → IsPlace nodes q b → SetsMeet p q → IsPrefix a b ⊎ IsPrefix b a }
{}

/// If a path without a wildcard has a concrete path in common with another, the other is placed above it.
pub fn what_meets_a_solid_path_is_placed_above()
    ensures { (nodes : List (List Elem)) (p q : WrittenPath) (a b : List Elem) → IsSolid p
        → IsPlace nodes p a → IsPlace nodes q b → SetsMeet p q → IsPrefix b a }
{}

/// If a path lies inside another, the other is placed above it.
pub fn an_inner_path_is_placed_below()
    ensures { (nodes : List (List Elem)) (p q : WrittenPath) (a b : List Elem) → IsPlace nodes p a → IsPlace nodes q b
        → IsTrue (inside p q) → IsPrefix b a }
{}
