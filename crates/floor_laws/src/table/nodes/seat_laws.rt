//! Splitting and joining seats of a table with nodes.
ghost use Rattle.std.specs.Prelude.{◌≡◌, ℕ, List};
ghost use Rattle.atomic_table.specs.Table.{Joins, Splits};
ghost use Rattle.region_paths.specs.declared.elements.Elem.{Elem};
ghost use Rattle.twe_base.specs.Limits.{Bounds};
ghost use Rattle.twe_program.specs.Program.{Program};
ghost use Rattle.floor_laws.specs.declared.table.view.SeatKind.TheVariants.{Main, Other};
ghost use Rattle.floor_laws.specs.table.Holds.{HasGivenAll};
ghost use Rattle.floor_laws.specs.declared.table.nodes.view.TreeView.{TreeView};
ghost use Rattle.floor_laws.specs.table.nodes.Holds.{HasLeftTree, TreeKeeps, joined_tree_view, left_tree_view, right_tree_view, spent_tree_view};

/// A seat may be split off from the main one, whatever that one does in the tree.
pub fn a_tree_seat_may_be_split()
    ensures { (nodes : List (List Elem)) (p : Program) (lim : Bounds) (id : ℕ) (v : TreeView) → v.floor.kind ≡ Main
        → Splits (TreeKeeps nodes p lim) id v (left_tree_view v) (right_tree_view v) }
{}

/// A seat that has given all its turns and has left the tree may be joined to the main one.
pub fn tree_seats_may_be_joined()
    ensures { (nodes : List (List Elem)) (p : Program) (lim : Bounds) (id other : ℕ) (v w : TreeView) → v.floor.kind ≡ Main
        → w.floor.kind ≡ Other → HasGivenAll w.floor → HasLeftTree w
        → Joins (TreeKeeps nodes p lim) id v other w (joined_tree_view v w) spent_tree_view }
{}
