//! How a worker marks what it has done at a node that it has locked. Each call has one atomic step. Whoever places a record says
//! by it in the decider word of the record's task whether that task decides there; the other steps leave the lock word as it was.
//! The content that the worker has in hand is its own: it has to change it as the mark says before it gives it back.
ghost use Rattle.std.specs.Prelude.{◌≡◌, ◌<◌, ℕ, IsTrue, List, Some, length};
ghost use Rattle.floor_laws.specs.admission.admission_core.States.{Activity, Record};
ghost use Rattle.floor_laws.specs.rule.nodes.FactSteps.{FindsClear};
ghost use Rattle.floor_laws.specs.table.nodes.Deciders.{AllWaitFor, MayDecide, learned_of};
ghost use Rattle.floor_laws.specs.table.nodes.Layout.{decider_at};
ghost use Rattle.floor_laws.specs.table.nodes.RecordSeats.{MayMark, MayUnmark, clear_view, marked_view, record_about, record_task, unmarked_view};
ghost use Rattle.floor_laws.specs.table.nodes.Seats.{tree_seen, turns_seen};

use crate::floor::{Floor, Stand};
use crate::words::decider_word;
use floor_laws::table::Named;
use floor_laws::table::nodes::{LookUpDecider, MarkClear, MarkPlaced, MarkRemoved, Planted};

impl<N: Named + Planted> Floor<N> {
    /// Marks the record of this task that this worker, whose stand it is, went for as placed at its place. The record is in front
    /// of the content from then on. The stand only gives back the nodes that it holds. `decides` says whether the task decides
    /// there for those before it: the stand knows that the tasks of all other records there wait for it.
    pub fn mark_placed(&self, stand: &mut Stand, worker: u32, task: u32, node: u32, decides: bool)
        requires here { stand.old.table_id ≡ self.now }
        requires node { node < length N.nodes }
        requires worker { worker ≡ stand.old.me.0.floor.worker }
        requires may { (a : Activity) × (content : List Record) × (a.place ≡ node) × (record_task a.purpose ≡ task)
            × (IsTrue decides → AllWaitFor stand.old.me.0.waits task content) × MayMark N.nodes stand.old.me.0 a content }
        ensures marked { (a : Activity) (content : List Record) → a.place ≡ node → MayMark N.nodes stand.old.me.0 a content
            → stand.new.me ≡ (marked_view stand.old.me.0 a content, stand.old.me.1) }
        ensures same { (stand.new.table_id ≡ stand.old.table_id) × (stand.new.id ≡ stand.old.id) }
    {
        let _cells = self.cells;
        if (task as usize) < self.tasks {
            self.mark_saying(stand, task, decider_word(node, decides));
        } else {
            self.mark_past(stand, worker, node);
        }
    }

    /// The same for a task of the run, whose decider word says this from then on.
    fn mark_saying(&self, stand: &mut Stand, task: u32, said: u64)
        requires here { stand.old.table_id ≡ self.now }
        requires task { task < N.lim.tasks }
        requires may { (a : Activity) × (content : List Record) × (record_task a.purpose ≡ task)
            × MayDecide stand.old.me.0 task a.place content said × MayMark N.nodes stand.old.me.0 a content }
        ensures marked { (a : Activity) (content : List Record) → MayMark N.nodes stand.old.me.0 a content
            → stand.new.me ≡ (marked_view stand.old.me.0 a content, stand.old.me.1) }
        ensures same { (stand.new.table_id ≡ stand.old.table_id) × (stand.new.id ≡ stand.old.id) }
    {
        let place = self.decider_place(task);
        self.table.shared.store::<MarkPlaced<N>>(stand, place, said);
    }

    /// The same for a task whose number is none of the run's.
    fn mark_past(&self, stand: &mut Stand, worker: u32, node: u32)
        requires here { stand.old.table_id ≡ self.now }
        requires node { node < length N.nodes }
        requires worker { worker ≡ stand.old.me.0.floor.worker }
        requires may { (a : Activity) × (content : List Record) × (a.place ≡ node) × (¬ (record_task a.purpose < N.lim.tasks))
            × MayMark N.nodes stand.old.me.0 a content }
        ensures marked { (a : Activity) (content : List Record) → MayMark N.nodes stand.old.me.0 a content
            → stand.new.me ≡ (marked_view stand.old.me.0 a content, stand.old.me.1) }
        ensures same { (stand.new.table_id ≡ stand.old.table_id) × (stand.new.id ≡ stand.old.id) }
    {
        let place = self.lock_place(node);
        let taken = worker as u64 + 2;
        self.table
            .shared
            .store::<MarkPlaced<N>>(stand, place, taken);
    }

    /// Whether a task decides at a node for those before it, by its decider word. If it does, and the stand has the content of
    /// the node, the stand knows from then on that the tasks of the records before the task's wait for it.
    pub fn decides(&self, stand: &mut Stand, task: u32, node: u32) -> bool
        requires here { stand.old.table_id ≡ self.now }
        requires task { task < N.lim.tasks }
        ensures told { (found : ℕ) × (stand.new.me ≡ (learned_of stand.old.me.0 task found, stand.old.me.1))
            × (IsTrue result → found ≡ decider_at node) }
        ensures same { (stand.new.table_id ≡ stand.old.table_id) × (stand.new.id ≡ stand.old.id) }
    {
        let place = self.decider_place(task);
        let found = self.table.shared.load::<LookUpDecider<N>>(stand, place);
        found == node as u64 + 1
    }

    /// Marks the record that this worker, whose stand it is, went for as removed from its place. The content is without the
    /// record from then on, and the stand knows that the record does not stand. The stand only gives back the nodes that it
    /// holds.
    pub fn mark_removed(&self, stand: &mut Stand, worker: u32, node: u32)
        requires here { stand.old.table_id ≡ self.now }
        requires node { node < length N.nodes }
        requires worker { worker ≡ stand.old.me.0.floor.worker }
        requires may { (a : Activity) × (content : List Record) × (a.place ≡ node) × MayUnmark stand.old.me.0 a content }
        ensures marked { (a : Activity) (content : List Record) → a.place ≡ node → MayUnmark stand.old.me.0 a content
            → stand.new.me ≡ (unmarked_view stand.old.me.0 a content, stand.old.me.1) }
        ensures same { (stand.new.table_id ≡ stand.old.table_id) × (stand.new.id ≡ stand.old.id) }
    {
        let place = self.lock_place(node);
        let taken = worker as u64 + 2;
        self.table
            .shared
            .store::<MarkRemoved<N>>(stand, place, taken);
    }

    /// Marks the record that this worker, whose stand it is, went for as not there: the content of its place does not have it.
    /// The stand knows from then on that the record does not stand.
    pub fn mark_clear(&self, stand: &mut Stand, worker: u32, node: u32)
        requires here { stand.old.table_id ≡ self.now }
        requires node { node < length N.nodes }
        requires worker { worker ≡ stand.old.me.0.floor.worker }
        requires may { (a : Activity) × (a.place ≡ node) × (stand.old.me.0.activity ≡ Some a)
            × FindsClear (turns_seen stand.old.me.0) (tree_seen stand.old.me.0) 0 (record_about a) }
        ensures marked { (a : Activity) → a.place ≡ node → stand.old.me.0.activity ≡ Some a
            → FindsClear (turns_seen stand.old.me.0) (tree_seen stand.old.me.0) 0 (record_about a)
            → stand.new.me ≡ (clear_view stand.old.me.0 (record_about a), stand.old.me.1) }
        ensures same { (stand.new.table_id ≡ stand.old.table_id) × (stand.new.id ≡ stand.old.id) }
    {
        let place = self.lock_place(node);
        let taken = worker as u64 + 2;
        self.table.shared.store::<MarkClear<N>>(stand, place, taken);
    }
}
