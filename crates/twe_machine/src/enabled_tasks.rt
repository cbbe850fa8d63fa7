//! The enabled tasks of a run, by the places of their effects.
ghost use Rattle.std.specs.Prelude.{◌≡◌, ◌<◌, ℕ, List, length, IfNone, IfOk, IfSome, IsTrue, OnOk};
ghost use Rattle.effect_sets.specs.declared.effects.Effect.{Effect};
ghost use Rattle.effect_sets.specs.Interference.{Interferes};
ghost use Rattle.twe_base.specs.Limits.{Bounds};
ghost use Rattle.twe_program.specs.Program.{Program};
ghost use Rattle.machine_state.specs.declared.state.TaskRow.{TaskRow};
ghost use Rattle.machine_state.specs.declared.state.TaskStatus.TheVariants.{Made, Enabled};
ghost use Rattle.twe_machine.specs.Books.{AreDecided, IsEntered};
ghost use Rattle.machine_state.specs.Legal.{IsBar};
ghost use Rattle.twe_machine.specs.Listings.{HasEffect, IsListing};
ghost use Rattle.machine_state.specs.Moves.{start_of};
ghost use Rattle.twe_machine.specs.Queues.{IsNoBar};
ghost use Rattle.machine_state.specs.Rows.{EffectsAreFilled, HasStatus, IsRow, LinksAgree};
ghost use Rattle.wait_graph.specs.declared.tasks.Link.{Link};

use crate::bars::is_enabled;
use crate::book::TaskBook;
use effect_sets::Effect;
use machine_state::State;
use std::alloc::Global;
use twe_base::Memory;

/// The enabled tasks of a run by the places of their effects, so that an admission looks at what is in its way alone. `IsListing`
/// says which state they belong to.
#[derive(Debug, Drop)]
pub struct EnabledTasks {
    /// The places of the reads.
    pub reads: TaskBook,
    /// The places of the writes.
    pub writes: TaskBook,
}

impl EnabledTasks {
    /// Those of a run that has not begun.
    pub fn new(alloc: Global) -> Result<Self, Memory>
        ensures start { IfOk result (λ enabled. (p : Program) (lim : Bounds) → IsListing (start_of p lim) enabled) }
        ensures decided { IfOk result (λ enabled. (links : List Link) → AreDecided links enabled) }
    {
        Ok(EnabledTasks {
            reads: TaskBook::new(alloc)?,
            writes: TaskBook::new(alloc)?,
        })
    }

    /// Those of a state, by one look at each task.
    pub fn of(alloc: Global, st: &State) -> Result<Self, Memory>
        requires { length st.now.links ≡ length st.now.tasks }
        ensures { IfOk result (IsListing st.now) }
    {
        let mut enabled = EnabledTasks::new(alloc)?;
        for t in 0..st.links.task_count() {
            enabled.add_if_enabled(st, t)?;
        }
        Ok(enabled)
    }

    /// Enters the effects of the task with this number, if there is one and it is enabled.
    pub(crate) fn add_if_enabled(&mut self, st: &State, t: u32) -> Result<(), Memory>
        requires { AreDecided st.now.links self.old }
        ensures added { OnOk result ((row : TaskRow) (e : Effect)
            → IsRow st.now t row → row.status ≡ Enabled → HasEffect row.effects.effects e → IsEntered self.new t e) }
        ensures kept { OnOk result ((s : ℕ) (e : Effect)
            → HasStatus st.now s Enabled → IsEntered self.old s e → IsEntered self.new s e) }
        ensures decided { OnOk result (AreDecided st.now.links self.new) }
    {
        let Some(row) = st.tasks.get(t as usize) else {
            return Ok(());
        };
        if !is_enabled(st, t) {
            return Ok(());
        }
        self.add_all(st, row.effects.effects.as_slice(), t)
    }

    /// Enters effects of an enabled task.
    fn add_all(&mut self, st: &State, effects: &[Effect], t: u32) -> Result<(), Memory>
        requires enabled { HasStatus st.now t Enabled }
        requires decided { AreDecided st.now.links self.old }
        ensures added { OnOk result ((e : Effect) → HasEffect effects.now e → IsEntered self.new t e) }
        ensures kept { OnOk result ((s : ℕ) (e : Effect)
            → HasStatus st.now s Enabled → IsEntered self.old s e → IsEntered self.new s e) }
        ensures decided { OnOk result (AreDecided st.now.links self.new) }
    {
        for effect in effects {
            self.add(st, effect, t)?;
        }
        Ok(())
    }

    /// Enters an effect of an enabled task.
    fn add(&mut self, st: &State, effect: &Effect, t: u32) -> Result<(), Memory>
        requires enabled { HasStatus st.now t Enabled }
        requires decided { AreDecided st.now.links self.old }
        ensures added { OnOk result (IsEntered self.new t effect.now) }
        ensures kept { OnOk result ((s : ℕ) (e : Effect)
            → HasStatus st.now s Enabled → IsEntered self.old s e → IsEntered self.new s e) }
        ensures decided { OnOk result (AreDecided st.now.links self.new) }
    {
        let elems = effect.path.elems().as_slice();
        if effect.write {
            self.writes.add(st, elems, t)?;
            return Ok(());
        }
        self.reads.add(st, elems, t)?;
        Ok(())
    }

    /// Takes tasks out that are over, at the places of the effects of a task, if that one is. It takes no memory.
    pub(crate) fn drop_over(&mut self, st: &State, t: u32)
        ensures kept { (s : ℕ) (e : Effect) → HasStatus st.now s Enabled → IsEntered self.old s e → IsEntered self.new s e }
        ensures decided { AreDecided st.now.links self.old → AreDecided st.now.links self.new }
    {
        let Some(row) = st.tasks.get(t as usize) else {
            return;
        };
        if is_enabled(st, t) {
            return;
        }
        for effect in row.effects.effects.as_slice() {
            self.drop_at(st, effect);
        }
    }

    /// Takes tasks out that are over, at the place of an effect. It takes no memory.
    fn drop_at(&mut self, st: &State, effect: &Effect)
        ensures kept { (s : ℕ) (e : Effect) → HasStatus st.now s Enabled → IsEntered self.old s e → IsEntered self.new s e }
        ensures decided { AreDecided st.now.links self.old → AreDecided st.now.links self.new }
    {
        let elems = effect.path.elems().as_slice();
        if effect.write {
            self.writes.drop_over(st, elems);
            return;
        }
        self.reads.drop_over(st, elems);
    }

    /// Some bar to the admission of `t` among the tasks with an effect that interferes with one of these effects, if there is
    /// one. It takes no memory.
    pub(crate) fn bar_to_all(&self, st: &State, effects: &[Effect], t: u32) -> Option<u32>
        requires made { HasStatus st.now t Made }
        requires agree { LinksAgree st.now }
        requires filled { EffectsAreFilled st.now }
        requires decided { AreDecided st.now.links self.now }
        ensures some { IfSome result (λ s. IsBar st.now s t) }
        ensures none { IfNone result ((s : ℕ) (e f : Effect)
            → IsEntered self.now s e → HasEffect effects.now f → Interferes e f → IsNoBar st.now t s) }
    {
        for effect in effects {
            if let Some(s) = self.bar_to(st, effect, t) {
                return Some(s);
            }
        }
        None
    }

    /// Some bar to the admission of `t` among the tasks with an effect that interferes with this effect, if there is one. It
    /// takes no memory.
    fn bar_to(&self, st: &State, effect: &Effect, t: u32) -> Option<u32>
        requires made { HasStatus st.now t Made }
        requires agree { LinksAgree st.now }
        requires filled { EffectsAreFilled st.now }
        requires decided { AreDecided st.now.links self.now }
        ensures some { IfSome result (λ s. IsBar st.now s t) }
        ensures none { IfNone result ((s : ℕ) (e : Effect) → IsEntered self.now s e → Interferes e effect.now
            → IsNoBar st.now t s) }
    {
        let elems = effect.path.elems().as_slice();
        let star = effect.path.star();
        if let Some(s) = self.writes.bar(st, elems, star, t) {
            return Some(s);
        }
        if effect.write {
            self.reads.bar(st, elems, star, t)
        } else {
            None
        }
    }
}
