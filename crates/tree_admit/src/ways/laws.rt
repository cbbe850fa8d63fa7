//! Laws on what lies below a node, where the nodes are those of a tree of paths, and on what is met there.
ghost use Rattle.std.specs.Prelude.{◌≡◌, ◌<◌, ℕ, false, List};
ghost use Rattle.region_paths.specs.declared.elements.Elem.{Elem};
ghost use Rattle.prefix_tree.specs.Nodes.{IsParent, IsTreeOfPaths};
ghost use Rattle.effect_sets.specs.declared.effects.Effect.{Effect};
ghost use Rattle.effect_sets.specs.Interference.{Interferes, statically_interferes};
ghost use Rattle.floor_laws.specs.admission.admission_core.States.{IsAbove};
ghost use Rattle.tree_admit.specs.ways.Ways.{room_below};

/// Two nodes right below one node that lie above one and the same node are one.
pub fn siblings_lie_apart()
    ensures { (nodes : List (List Elem)) → IsTreeOfPaths nodes → (n c d m : ℕ) → IsParent nodes n c → IsParent nodes n d
        → IsAbove nodes c m → IsAbove nodes d m → c ≡ d }
{}

/// What can lie below a node gets less from each node to one right below it.
pub fn room_below_shrinks()
    ensures { (nodes : List (List Elem)) (n c : ℕ) → IsParent nodes n c → room_below nodes c < room_below nodes n }
{}

/// If the test on written effects finds none, two effects don't interfere, whether they have variables or not.
pub fn the_test_of_effects_is_safe()
    ensures { (d e : Effect) → statically_interferes d e ≡ false → ¬ Interferes d e }
{}
