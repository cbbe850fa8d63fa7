//! How a floor is closed.
ghost use Rattle.std.specs.Prelude.{◌≡◌};
ghost use Rattle.core.specs.Mem.Slots.{IsFull, slots_items};
ghost use Rattle.floor_laws.specs.declared.table.view.SeatKind.TheVariants.{Main};
ghost use Rattle.floor_laws.specs.table.Holds.{HasGivenAll};
ghost use Rattle.floor_laws.specs.table.nodes.Shown.{EndedBesideNodes};

use crate::floor::{Floor, Stand};
use atomic_table::Closed;
use floor_laws::table::Named;
use floor_laws::table::nodes::{Planted, TreeSlot};
use std::alloc::Global;

impl<N: Named + Planted> Floor<N> {
    /// Closes the floor, once all other stands were joined to the main one and it has given all its turns. The entries of that
    /// stand are the journal. It is legal, and the words of the floor and the slots of tasks show the state that it leads to.
    pub fn close(self, stand: Stand) -> Closed<TreeSlot, Global>
        requires here { stand.table_id ≡ self }
        requires main { stand.me.0.floor.kind ≡ Main }
        requires alone { (stand.me.0.floor.out ≡ 0) × HasGivenAll stand.me.0.floor }
        ensures ended { EndedBesideNodes N.nodes N.prog N.lim stand.me.0 (slots_items result.words) (slots_items result.slots) }
        ensures full { IsFull result.words × IsFull result.slots }
    {
        let Floor {
            table,
            cells: _,
            words: _,
            tasks: _,
        } = self;
        table.close_with(stand)
    }
}
