//! The contents of nodes that a worker has locked. These calls touch the worker's own memory alone: they have no atomic step.
ghost use Rattle.std.specs.Prelude.{◌≡◌, ◌<◌, ℕ, List, length};
ghost use Rattle.floor_laws.specs.declared.table.nodes.slot.TreeSlot as slots;
ghost use Rattle.floor_laws.specs.table.nodes.Seats.{HasContent};
ghost use Rattle.task_floor.specs.Contents.{HasGivenContent, HasTakenContent, IsHandedOut};

use crate::floor::{Floor, Stand};
use floor_laws::table::Named;
use floor_laws::table::nodes::{NodeContent, Planted, TreeSlot};

impl<N: Named + Planted> Floor<N> {
    /// Takes the content out of the slot of a node that the stand has locked. The slot is the latest that the stand has out. What
    /// is returned is what the stand knows of the node.
    pub fn take_content(&self, stand: &mut Stand, node: u32) -> NodeContent
        requires here { stand.old.table_id ≡ self.now }
        requires node { node < length N.nodes }
        requires may { (rest : List (ℕ × slots.TreeSlot)) × HasContent N.lim stand.old.me node rest }
        ensures taken { (rest : List (ℕ × slots.TreeSlot)) → HasContent N.lim stand.old.me node rest
            → HasTakenContent N.lim stand.old.me node result rest stand.new.me }
        ensures same { (stand.new.table_id ≡ stand.old.table_id) × (stand.new.id ≡ stand.old.id) }
    {
        let slot = self.content_slot(node);
        match self
            .table
            .shared
            .exchange(stand, slot, TreeSlot::Task(None))
        {
            TreeSlot::Node(content) => content,
            TreeSlot::Task(_) => unreachable!(),
            TreeSlot::Errand(_) => unreachable!(),
        }
    }

    /// Puts a content into the slot of a node, from which it was taken. The slot is the latest that the stand has out.
    pub fn give_content(&self, stand: &mut Stand, node: u32, content: NodeContent)
        requires here { stand.old.table_id ≡ self.now }
        requires node { node < length N.nodes }
        requires may { (rest : List (ℕ × slots.TreeSlot)) × IsHandedOut N.lim stand.old.me node rest }
        ensures given { (rest : List (ℕ × slots.TreeSlot)) → IsHandedOut N.lim stand.old.me node rest
            → HasGivenContent N.lim stand.old.me node content rest stand.new.me }
        ensures same { (stand.new.table_id ≡ stand.old.table_id) × (stand.new.id ≡ stand.old.id) }
    {
        let slot = self.content_slot(node);
        let _nothing = self
            .table
            .shared
            .exchange(stand, slot, TreeSlot::Node(content));
    }
}
