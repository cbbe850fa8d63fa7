//! How many workers get stands on one floor.
ghost use Rattle.std.specs.Prelude.{◌≡◌, []};
ghost use Rattle.floor_laws.specs.declared.table.view.SeatKind.TheVariants.{Main, Other};
ghost use Rattle.floor_laws.specs.table.Holds.{HasGivenAll};
ghost use Rattle.floor_laws.specs.table.nodes.Holds.{HasLeftTree, joined_tree_view, left_tree_view, right_tree_view};

use crate::floor::{Floor, Stand};
use floor_laws::table::Named;
use floor_laws::table::nodes::{BothTreeSeats, NextTreeSeat, Planted};

impl<N: Named + Planted> Floor<N> {
    /// A stand for the worker with the next number, split off from the main one.
    pub fn split(&self, stand: &mut Stand) -> Stand
        requires here { stand.old.table_id ≡ self.now }
        requires main { stand.old.me.0.floor.kind ≡ Main }
        ensures left { stand.new.me ≡ (left_tree_view stand.old.me.0, stand.old.me.1) }
        ensures right { result.me ≡ (right_tree_view stand.old.me.0, []) }
        ensures same { (stand.new.table_id ≡ stand.old.table_id) × (stand.new.id ≡ stand.old.id)
            × (result.table_id ≡ stand.old.table_id) }
    {
        self.table.shared.split_seat::<NextTreeSeat>(stand)
    }

    /// Joins a stand that has given all its turns and has left the tree to the main one. The main one has the entries and the
    /// facts of both from then on, and has placed and removed the records that both have.
    pub fn join(&self, stand: &mut Stand, other: Stand)
        requires here { (stand.old.table_id ≡ self.now) × (other.table_id ≡ self.now) }
        requires main { stand.old.me.0.floor.kind ≡ Main }
        requires other { (other.me.0.floor.kind ≡ Other) × (other.me.1 ≡ []) × HasGivenAll other.me.0.floor
            × HasLeftTree other.me.0 }
        ensures both { stand.new.me ≡ (joined_tree_view stand.old.me.0 other.me.0, stand.old.me.1) }
        ensures same { (stand.new.table_id ≡ stand.old.table_id) × (stand.new.id ≡ stand.old.id) }
    {
        self.table.shared.join_seat::<BothTreeSeats>(stand, other);
    }
}
