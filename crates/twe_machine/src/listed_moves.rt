//! The enabled tasks over a move.
ghost use Rattle.std.specs.Prelude.{◌≡◌, ℕ, OnOk};
ghost use Rattle.effect_sets.specs.declared.effects.Effect.{Effect};
ghost use Rattle.seg_journal.specs.declared.moves.Kind.{Kind};
ghost use Rattle.machine_state.specs.declared.state.TaskRow.{TaskRow};
ghost use Rattle.machine_state.specs.declared.state.TaskStatus.TheVariants.{Enabled};
ghost use Rattle.twe_machine.specs.Books.{AreDecided, IsEntered};
ghost use Rattle.twe_machine.specs.Listings.{HasEffect, IsListing, WasListing};
ghost use Rattle.machine_state.specs.Rows.{HasStatus, IsRow};

use crate::enabled_tasks::EnabledTasks;
use machine_state::State;
use seg_journal::{Kind, Move};
use twe_base::Memory;

impl EnabledTasks {
    /// Brings them up to date after a legal move, before which there were so many tasks. After `Memory` nothing is known of them.
    pub fn note(&mut self, st: &State, mv: Move, before: u32) -> Result<(), Memory>
        requires { WasListing st.now mv before self.old }
        ensures { OnOk result (IsListing st.now self.new) }
    {
        self.drop_over(st, mv.task);
        self.add_admitted(st, mv)?;
        self.add_if_enabled(st, before)?;
        Ok(())
    }

    /// Enters the effects of the task of an admission.
    fn add_admitted(&mut self, st: &State, mv: Move) -> Result<(), Memory>
        requires { AreDecided st.now.links self.old }
        ensures added { OnOk result (mv.kind ≡ Kind.Admit → (row : TaskRow) (e : Effect)
            → IsRow st.now mv.task row → row.status ≡ Enabled → HasEffect row.effects.effects e → IsEntered self.new mv.task e) }
        ensures kept { OnOk result ((s : ℕ) (e : Effect)
            → HasStatus st.now s Enabled → IsEntered self.old s e → IsEntered self.new s e) }
        ensures decided { OnOk result (AreDecided st.now.links self.new) }
    {
        match mv.kind {
            Kind::Run => Ok(()),
            Kind::Admit => self.add_if_enabled(st, mv.task),
        }
    }
}
