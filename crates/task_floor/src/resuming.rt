//! How a task that a stand has in hand goes on.
ghost use Rattle.std.specs.Prelude.{◌≡◌, ◌≢◌, ◌<◌, ℕ, None, IfNone, IfSome};
ghost use Rattle.floor_laws.specs.declared.rule.view.HeldTurn.{HeldTurn};
ghost use Rattle.floor_laws.specs.declared.rule.view.Phase.TheVariants.{Waits};
ghost use Rattle.floor_laws.specs.rule.Rows.{phase_of};
ghost use Rattle.floor_laws.specs.declared.table.view.SeatKind.TheVariants.{Spent};
ghost use Rattle.task_floor.specs.declared.steps.readiness.Readiness.TheVariants as readiness;
ghost use Rattle.task_floor.specs.steps.Resuming.{HasInHand, IsReadiness, KnowsValue};
ghost use Rattle.floor_laws.specs.table.nodes.FloorSeats.{HasTaskSlots, floor_seat};
ghost use Rattle.task_floor.specs.Alone.{IsUndoneIfAlone};
ghost use Rattle.task_floor.specs.Resuming.{KnowsEnough, KnowsMoreBeside, LeftTurnUnlessUndone, MovesOnBeside, WasNotDone};

use crate::floor::{Floor, Stand};
use crate::steps::Readiness;
use floor_laws::rule::Phase;
use floor_laws::table::nodes::Planted;
use floor_laws::table::{KeptSlot, Named};
use seg_meaning::Frame;

/// The value that lies in the slot of a done task.
fn value_in(slot: &KeptSlot) -> i32
    ensures { result ≡ slot.now.frame.value }
{
    slot.slot.frame.value
}

impl<N: Named + Planted> Floor<N> {
    /// The value of a task. `None` if its phase word does not say that it is done, or if its turn is not free just then, which this
    /// call has not taken itself: the stand has found that; the only stand finds the value of each done task. Otherwise the stand
    /// knows the task to be done with this value from then on. The stand holds no node and does nothing in the tree.
    pub fn value_of(&self, stand: &mut Stand, worker: u32, task: u32) -> Option<i32>
        requires here { stand.old.table_id ≡ self.now }
        requires live { stand.old.me.0.floor.kind ≢ Spent }
        requires slots { HasTaskSlots N.lim.tasks stand.old.me.1 }
        requires task { task < N.lim.tasks }
        requires worker { worker ≡ stand.old.me.0.floor.worker }
        requires closed { stand.old.me.0.floor.segment ≡ None }
        requires idle { stand.old.me.0.activity ≡ None }
        ensures value { IfSome result (λ value. KnowsValue (floor_seat stand.new.me) task value) }
        ensures none { IfNone result (WasNotDone stand.old.me.0.looks stand.new.me.0.looks task) }
        ensures left { IfNone result (LeftTurnUnlessUndone stand.old.me.0 stand.new.me.0 task) }
        ensures alone { IfNone result (IsUndoneIfAlone N.prog N.lim stand.old.me.0.floor task) }
        ensures more { KnowsMoreBeside stand.old.me stand.new.me task }
        ensures same { (stand.new.table_id ≡ stand.old.table_id) × (stand.new.id ≡ stand.old.id) }
    {
        match self.status(stand, task) {
            Phase::Done => self.take_value(stand, worker, task),
            _ => None,
        }
    }

    /// The same of a task that was found done: its value lies in its slot.
    fn take_value(&self, stand: &mut Stand, worker: u32, task: u32) -> Option<i32>
        requires here { stand.old.table_id ≡ self.now }
        requires live { stand.old.me.0.floor.kind ≢ Spent }
        requires slots { HasTaskSlots N.lim.tasks stand.old.me.1 }
        requires task { task < N.lim.tasks }
        requires worker { worker ≡ stand.old.me.0.floor.worker }
        requires closed { stand.old.me.0.floor.segment ≡ None }
        requires idle { stand.old.me.0.activity ≡ None }
        ensures value { IfSome result (λ value. KnowsValue (floor_seat stand.new.me) task value) }
        ensures none { IfNone result (WasNotDone stand.old.me.0.looks stand.new.me.0.looks task) }
        ensures left { IfNone result (LeftTurnUnlessUndone stand.old.me.0 stand.new.me.0 task) }
        ensures alone { IfNone result (IsUndoneIfAlone N.prog N.lim stand.old.me.0.floor task) }
        ensures more { KnowsMoreBeside stand.old.me stand.new.me task }
        ensures same { (stand.new.table_id ≡ stand.old.table_id) × (stand.new.id ≡ stand.old.id) }
    {
        let slot = match self.take_turn(stand, worker, task) {
            Ok(slot) => slot,
            Err(_) => return None,
        };
        let value = value_in(&slot);
        let phase = self.status(stand, task);
        self.give_turn(stand, task, slot);
        match phase {
            Phase::Done => Some(value),
            _ => None,
        }
    }

    /// Looks whether the next segment of a task in hand may run, and makes it ready. If the task waits for one that is done, its
    /// frame takes the awaited value, and its phase word says `Running` from then on. The only stand finds each such task
    /// ready. The stand holds no node and does nothing in the tree. What it knows of the nodes is enough to give the turn, as
    /// before.
    pub fn make_ready(
        &self,
        stand: &mut Stand,
        worker: u32,
        task: u32,
        frame: &mut Frame,
    ) -> Readiness
        requires here { stand.old.table_id ≡ self.now }
        requires live { stand.old.me.0.floor.kind ≢ Spent }
        requires slots { HasTaskSlots N.lim.tasks stand.old.me.1 }
        requires task { task < N.lim.tasks }
        requires worker { worker ≡ stand.old.me.0.floor.worker }
        requires in_hand { (turn : HeldTurn) × HasInHand (floor_seat stand.old.me) task turn frame.old
            × KnowsEnough N.nodes stand.old.me.0 task turn.row }
        ensures found { (turn : HeldTurn) → HasInHand (floor_seat stand.old.me) task turn frame.old
            → IsReadiness turn (floor_seat stand.new.me) task frame.new result }
        ensures enough { (turn : HeldTurn) → HasInHand (floor_seat stand.old.me) task turn frame.old
            → KnowsEnough N.nodes stand.new.me.0 task turn.row }
        ensures waits { (on : ℕ) → result ≡ readiness.Waits on
            → WasNotDone stand.old.me.0.looks stand.new.me.0.looks on }
        ensures left { (on : ℕ) → result ≡ readiness.Waits on → LeftTurnUnlessUndone stand.old.me.0 stand.new.me.0 on }
        ensures alone { (on : ℕ) → result ≡ readiness.Waits on → IsUndoneIfAlone N.prog N.lim stand.old.me.0.floor on }
        ensures above { (on : ℕ) → result ≡ readiness.Waits on → task < on }
        ensures moves { MovesOnBeside stand.old.me stand.new.me task }
        ensures same { (stand.new.table_id ≡ stand.old.table_id) × (stand.new.id ≡ stand.old.id) }
    {
        match self.status(stand, task) {
            Phase::Running => Readiness::Runs,
            Phase::Waits { on } => self.resume(stand, worker, task, on, frame),
            Phase::Made => Readiness::Made,
            Phase::Done => Readiness::Ended,
            Phase::Faulted => Readiness::Ended,
            Phase::Absent => unreachable!(),
        }
    }

    /// The same of a task that waits for another.
    fn resume(
        &self,
        stand: &mut Stand,
        worker: u32,
        task: u32,
        on: u32,
        frame: &mut Frame,
    ) -> Readiness
        requires here { stand.old.table_id ≡ self.now }
        requires live { stand.old.me.0.floor.kind ≢ Spent }
        requires slots { HasTaskSlots N.lim.tasks stand.old.me.1 }
        requires task { task < N.lim.tasks }
        requires on { (on < N.lim.tasks) × (task < on) }
        requires worker { worker ≡ stand.old.me.0.floor.worker }
        requires in_hand { (turn : HeldTurn) × HasInHand (floor_seat stand.old.me) task turn frame.old
            × KnowsEnough N.nodes stand.old.me.0 task turn.row }
        requires waits { (turn : HeldTurn) → HasInHand (floor_seat stand.old.me) task turn frame.old
            → phase_of turn.row ≡ Waits on }
        ensures found { (turn : HeldTurn) → HasInHand (floor_seat stand.old.me) task turn frame.old
            → IsReadiness turn (floor_seat stand.new.me) task frame.new result }
        ensures enough { (turn : HeldTurn) → HasInHand (floor_seat stand.old.me) task turn frame.old
            → KnowsEnough N.nodes stand.new.me.0 task turn.row }
        ensures waits { (on : ℕ) → result ≡ readiness.Waits on
            → WasNotDone stand.old.me.0.looks stand.new.me.0.looks on }
        ensures left { (on : ℕ) → result ≡ readiness.Waits on → LeftTurnUnlessUndone stand.old.me.0 stand.new.me.0 on }
        ensures alone { (on : ℕ) → result ≡ readiness.Waits on → IsUndoneIfAlone N.prog N.lim stand.old.me.0.floor on }
        ensures above { (on : ℕ) → result ≡ readiness.Waits on → task < on }
        ensures moves { MovesOnBeside stand.old.me stand.new.me task }
        ensures same { (stand.new.table_id ≡ stand.old.table_id) × (stand.new.id ≡ stand.old.id) }
    {
        let value = match self.value_of(stand, worker, on) {
            Some(value) => value,
            None => return Readiness::Waits { on },
        };
        self.set_phase(stand, task, Phase::Running);
        frame.give(value);
        Readiness::Runs
    }
}
