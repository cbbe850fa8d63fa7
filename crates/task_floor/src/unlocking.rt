//! How a worker unlocks nodes. Each call has one atomic step.
ghost use Rattle.std.specs.Prelude.{◌≡◌, ◌<◌, ℕ, List, ◌∷◌, Option, Some, length};
ghost use Rattle.floor_laws.specs.admission.admission_core.States.{Activity};
ghost use Rattle.floor_laws.specs.declared.table.nodes.slot.TreeSlot as slots;
ghost use Rattle.floor_laws.specs.table.nodes.Seats.{GaveNode, MayGoOn, MayStop};
ghost use Rattle.task_floor.specs.Contents.{HasBehind, HasInHand};

use crate::floor::{Floor, Stand};
use crate::turning::turn_slots;
use crate::words::word_left;
use floor_laws::table::Named;
use floor_laws::table::nodes::{GoOn, NodeContent, Planted, StopAt};

impl<N: Named + Planted> Floor<N> {
    /// Puts its content back into a node, unlocks the node and goes on: the node is the parent of the other that the stand holds,
    /// or the stand has finished it. The node's slot is the latest that the stand has out.
    pub fn leave(&self, stand: &mut Stand, node: u32, content: NodeContent)
        requires here { stand.old.table_id ≡ self.now }
        requires node { node < length N.nodes }
        requires may { (next : Activity) × (rest : List (ℕ × slots.TreeSlot)) × MayGoOn N.nodes stand.old.me.0 node next
            × HasInHand N.lim stand.old.me node content rest }
        ensures gave { (next : Activity) (rest : List (ℕ × slots.TreeSlot)) → MayGoOn N.nodes stand.old.me.0 node next
            → HasInHand N.lim stand.old.me node content rest → GaveNode stand.old.me node (Some next) rest stand.new.me }
        ensures same { (stand.new.table_id ≡ stand.old.table_id) × (stand.new.id ≡ stand.old.id) }
    {
        let place = self.lock_place(node);
        let word = word_left(&content);
        self.give_content(stand, node, content);
        self.table.shared.store::<GoOn<N>>(stand, place, word);
    }

    /// The same for a node whose slot is the one before the latest, as it is once the stand has locked a child of the node.
    /// `others` is the number of slots that the stand took before the node's. The latest stays the latest.
    pub fn leave_parent(&self, stand: &mut Stand, node: u32, content: NodeContent, others: usize)
        requires here { stand.old.table_id ≡ self.now }
        requires node { node < length N.nodes }
        requires may { (next : Activity) × (latest : ℕ × slots.TreeSlot) × (rest : List (ℕ × slots.TreeSlot))
            × MayGoOn N.nodes stand.old.me.0 node next × HasBehind N.lim stand.old.me node content latest rest
            × (others ≡ length rest) }
        ensures gave { (next : Activity) (latest : ℕ × slots.TreeSlot) (rest : List (ℕ × slots.TreeSlot))
            → MayGoOn N.nodes stand.old.me.0 node next → HasBehind N.lim stand.old.me node content latest rest
            → GaveNode stand.old.me node (Some next) (latest ∷ rest) stand.new.me }
        ensures same { (stand.new.table_id ≡ stand.old.table_id) × (stand.new.id ≡ stand.old.id) }
    {
        stand.turn();
        self.leave(stand, node, content);
        turn_slots(stand, others);
    }

    /// Puts its content back into the last node that the stand holds, unlocks it and stops: from then on the stand only gives
    /// back the other nodes that it holds, by this call too. Once it holds none, it does nothing in the tree any more. The node's
    /// slot is the latest that the stand has out.
    pub fn back_out(&self, stand: &mut Stand, node: u32, content: NodeContent)
        requires here { stand.old.table_id ≡ self.now }
        requires node { node < length N.nodes }
        requires may { (next : Option Activity) × (rest : List (ℕ × slots.TreeSlot)) × MayStop stand.old.me.0 node next
            × HasInHand N.lim stand.old.me node content rest }
        ensures gave { (next : Option Activity) (rest : List (ℕ × slots.TreeSlot)) → MayStop stand.old.me.0 node next
            → HasInHand N.lim stand.old.me node content rest → GaveNode stand.old.me node next rest stand.new.me }
        ensures same { (stand.new.table_id ≡ stand.old.table_id) × (stand.new.id ≡ stand.old.id) }
    {
        let place = self.lock_place(node);
        let word = word_left(&content);
        self.give_content(stand, node, content);
        self.table.shared.store::<StopAt<N>>(stand, place, word);
    }
}
