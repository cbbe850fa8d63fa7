//! The phases of tasks.
ghost use Rattle.std.specs.Prelude.{◌≡◌, ◌≢◌, ◌<◌};
ghost use Rattle.floor_laws.specs.declared.rule.view.HeldTurn.{HeldTurn};
ghost use Rattle.floor_laws.specs.declared.table.view.SeatKind.TheVariants.{Spent};
ghost use Rattle.floor_laws.specs.table.Layout.{word_of_phase};
ghost use Rattle.floor_laws.specs.table.Tells.{MayStore, StoredPhase};
ghost use Rattle.floor_laws.specs.table.nodes.Alone.{LearnsAlone};
ghost use Rattle.floor_laws.specs.table.nodes.FloorSeats.{HasTaskSlots, floor_seat};
ghost use Rattle.floor_laws.specs.table.nodes.Follows.{FollowedPhase};
ghost use Rattle.task_floor.specs.Stands.{StaysInTree};

use crate::floor::{Floor, Stand};
use crate::words::{phase_of, word_of};
use floor_laws::rule::Phase;
use floor_laws::table::Named;
use floor_laws::table::nodes::{FollowWait, Planted, StoreTreePhase};

impl<N: Named + Planted> Floor<N> {
    /// What the phase word of a task says. A stand that finds `Done` knows the task's value from then on. One that finds that the
    /// task waits knows for whom, also of each task that it knew to wait for this one. A stand that has the task's turn finds the
    /// phase that it knows. A task waits for one with a higher number. If the stand is the only one, it finds the phase that the
    /// last entry of a made task has left, unless it has the task's turn.
    pub fn status(&self, stand: &mut Stand, task: u32) -> Phase
        requires here { stand.old.table_id ≡ self.now }
        requires live { stand.old.me.0.floor.kind ≢ Spent }
        requires task { task < N.lim.tasks }
        ensures found { FollowedPhase N.lim stand.old.me task (word_of_phase result) stand.new.me }
        ensures alone { LearnsAlone N.prog N.lim stand.old.me.0 task (word_of_phase result) }
        ensures same { (stand.new.table_id ≡ stand.old.table_id) × (stand.new.id ≡ stand.old.id) }
    {
        let place = self.phase_place(task);
        let word = self.table.shared.load::<FollowWait<N>>(stand, place);
        phase_of(word)
    }

    /// Stores the phase of a task whose turn the stand has: the one of the task's row, or `Running` once the awaited task is
    /// known to be done. The stand holds no node.
    pub fn set_phase(&self, stand: &mut Stand, task: u32, phase: Phase)
        requires here { stand.old.table_id ≡ self.now }
        requires live { stand.old.me.0.floor.kind ≢ Spent }
        requires slots { HasTaskSlots N.lim.tasks stand.old.me.1 }
        requires task { task < N.lim.tasks }
        requires may { (turn : HeldTurn) × MayStore (floor_seat stand.old.me) task turn phase }
        ensures stored { (turn : HeldTurn) → MayStore (floor_seat stand.old.me) task turn phase
            → StoredPhase (floor_seat stand.old.me) task turn phase (floor_seat stand.new.me) }
        ensures stays { StaysInTree N.lim stand.old.me stand.new.me }
        ensures same { (stand.new.table_id ≡ stand.old.table_id) × (stand.new.id ≡ stand.old.id) }
    {
        let place = self.phase_place(task);
        self.table
            .shared
            .store::<StoreTreePhase<N>>(stand, place, word_of(phase));
    }
}
