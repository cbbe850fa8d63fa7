//! How a worker locks nodes, and passes by nodes at which no record lies. No call waits for a lock that another worker has.
//! The lock word of a node that nobody has locked says whether records may lie there, so a try to lock it has one atomic step
//! or two.
ghost use Rattle.std.specs.Prelude.{◌≡◌, ◌<◌, IsFalse, IsTrue, length};
ghost use mathlib.Core.Option.{none, some};
ghost use Rattle.floor_laws.specs.admission.admission_core.States.{Activity};
ghost use Rattle.floor_laws.specs.declared.table.nodes.slot.TreeSlot.TheVariants as kinds;
ghost use Rattle.floor_laws.specs.rule.nodes.Trees.{Unlocked};
ghost use Rattle.floor_laws.specs.table.nodes.Layout.{lock_of_word};
ghost use Rattle.floor_laws.specs.table.nodes.Seats.{MayLock, MayPass, TookNode, passed_view};

use crate::floor::{Floor, Stand};
use floor_laws::table::Named;
use floor_laws::table::nodes::{Errand, PassNode, Planted, TreeSlot, TryNode};

impl<N: Named + Planted> Floor<N> {
    /// Tries to lock the root for this worker, whose stand it is and which does nothing in the tree. The stand announces what it
    /// goes for. Returns whether it has locked the root: then it has the root's content; otherwise it is as it was.
    pub fn enter(&self, stand: &mut Stand, worker: u32, errand: Errand) -> bool
        requires here { stand.old.table_id ≡ self.now }
        requires root { 0 < length N.nodes }
        requires worker { worker ≡ stand.old.me.0.floor.worker }
        requires may { (next : Activity) × MayLock N.nodes stand.old.me.0 (some (kinds.Errand errand)) 0 next }
        ensures locked { IsTrue result → (next : Activity) → MayLock N.nodes stand.old.me.0 (some (kinds.Errand errand)) 0 next
            → TookNode N.lim stand.old.me 0 next stand.new.me }
        ensures missed { IsFalse result → stand.new.me ≡ stand.old.me }
        ensures same { (stand.new.table_id ≡ stand.old.table_id) × (stand.new.id ≡ stand.old.id) }
    {
        if self.enter_from(stand, worker, errand, 1) {
            return true;
        }
        self.enter_from(stand, worker, errand, 0)
    }

    /// The same, from this lock word, by which nobody has locked the root.
    fn enter_from(&self, stand: &mut Stand, worker: u32, errand: Errand, free: u64) -> bool
        requires here { stand.old.table_id ≡ self.now }
        requires root { 0 < length N.nodes }
        requires worker { worker ≡ stand.old.me.0.floor.worker }
        requires free { lock_of_word free ≡ Unlocked }
        requires may { (next : Activity) × MayLock N.nodes stand.old.me.0 (some (kinds.Errand errand)) 0 next }
        ensures locked { IsTrue result → (next : Activity) → MayLock N.nodes stand.old.me.0 (some (kinds.Errand errand)) 0 next
            → TookNode N.lim stand.old.me 0 next stand.new.me }
        ensures missed { IsFalse result → stand.new.me ≡ stand.old.me }
        ensures same { (stand.new.table_id ≡ stand.old.table_id) × (stand.new.id ≡ stand.old.id) }
    {
        let place = self.lock_place(0);
        let taken = worker as u64 + 2;
        let said = TreeSlot::Errand(errand);
        let found = self
            .table
            .shared
            .compare_exchange_with::<TryNode<N>>(stand, place, free, taken, &said);
        found == free
    }

    /// Tries to lock a node for this worker, whose stand it is: the next on the way to its place, whose parent alone it holds, or
    /// one below its place, whose parent is the last node that it holds. Returns whether it has locked the node: then it has the
    /// node's content; otherwise it is as it was.
    pub fn go_down(&self, stand: &mut Stand, worker: u32, node: u32) -> bool
        requires here { stand.old.table_id ≡ self.now }
        requires node { node < length N.nodes }
        requires worker { worker ≡ stand.old.me.0.floor.worker }
        requires may { (next : Activity) × MayLock N.nodes stand.old.me.0 none node next }
        ensures locked { IsTrue result → (next : Activity) → MayLock N.nodes stand.old.me.0 none node next
            → TookNode N.lim stand.old.me node next stand.new.me }
        ensures missed { IsFalse result → stand.new.me ≡ stand.old.me }
        ensures same { (stand.new.table_id ≡ stand.old.table_id) × (stand.new.id ≡ stand.old.id) }
    {
        if self.go_down_from(stand, worker, node, 1) {
            return true;
        }
        self.go_down_from(stand, worker, node, 0)
    }

    /// The same, from this lock word, by which nobody has locked the node.
    fn go_down_from(&self, stand: &mut Stand, worker: u32, node: u32, free: u64) -> bool
        requires here { stand.old.table_id ≡ self.now }
        requires node { node < length N.nodes }
        requires worker { worker ≡ stand.old.me.0.floor.worker }
        requires free { lock_of_word free ≡ Unlocked }
        requires may { (next : Activity) × MayLock N.nodes stand.old.me.0 none node next }
        ensures locked { IsTrue result → (next : Activity) → MayLock N.nodes stand.old.me.0 none node next
            → TookNode N.lim stand.old.me node next stand.new.me }
        ensures missed { IsFalse result → stand.new.me ≡ stand.old.me }
        ensures same { (stand.new.table_id ≡ stand.old.table_id) × (stand.new.id ≡ stand.old.id) }
    {
        let place = self.lock_place(node);
        let taken = worker as u64 + 2;
        let found = self
            .table
            .shared
            .compare_exchange::<TryNode<N>>(stand, place, free, taken);
        found == free
    }

    /// Tries to pass by a node that has no children, and whose parent is the last node of the stand's walk. Returns whether
    /// no record lies there: then the stand has finished the node; otherwise it is as it was.
    pub fn pass_by(&self, stand: &mut Stand, node: u32) -> bool
        requires here { stand.old.table_id ≡ self.now }
        requires node { node < length N.nodes }
        requires may { (next : Activity) × MayPass N.nodes stand.old.me.0 node next }
        ensures passed { IsTrue result → (next : Activity) → MayPass N.nodes stand.old.me.0 node next
            → stand.new.me ≡ (passed_view stand.old.me.0 next, stand.old.me.1) }
        ensures missed { IsFalse result → stand.new.me ≡ stand.old.me }
        ensures same { (stand.new.table_id ≡ stand.old.table_id) × (stand.new.id ≡ stand.old.id) }
    {
        let place = self.lock_place(node);
        let found = self.table.shared.load::<PassNode<N>>(stand, place);
        found == 1
    }
}
