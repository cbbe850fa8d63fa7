//! What frees admissions: which enabled tasks hold others, and through which tasks they come to wait for them.
ghost use Rattle.std.specs.Prelude.{◌≡◌, ◌<◌, ◌^◌, [], ◌∷◌, ◌++◌, ℕ, length, OnOk, IfOk};
ghost use Rattle.seg_journal.specs.declared.journal.End.TheVariants.{Made as HasMade};
ghost use Rattle.wait_graph.specs.Link.{link_of};
ghost use Rattle.held_span.specs.Marks.{left_by};
ghost use Rattle.held_span.specs.inner.Freeing.{AreNumbered, EnteredIf, HaveEntered, HaveLeft, IsFreed, IsNotedBy, mark_keys};
ghost use Rattle.held_span.specs.inner.Holding.{HasRoomFor, Holds};
ghost use Rattle.held_span.specs.inner.Walking.{AreWays, entered};
ghost use Rattle.held_span.specs.declared.marks.EffectMark.{EffectMark as AnyMark};

use crate::EffectMarks;
use crate::holders::Holders;
use crate::keys::push_marks;
use crate::ways::Ways;
use machine_state::State;
use seg_journal::End;
use span_profile::EntryKeys;
use span_profile::heaviest_chain::Key;
use std::alloc::Global;
use twe_base::{List, Memory};

/// The enabled tasks, and who has made whom.
#[derive(Debug, Drop)]
pub(crate) struct Freeing {
    /// The enabled tasks, by the marks that their effects leave.
    pub holders: Holders,
    /// The tasks that were made.
    pub ways: Ways,
}

impl Freeing {
    /// The start of a run, for tasks with these marks.
    pub(crate) fn new(alloc: Global, marks: &EffectMarks) -> Result<Self, Memory>
        ensures room { IfOk result (λ freeing. HasRoomFor freeing.holders (length marks.now.rivals)) }
        ensures none { IfOk result (λ freeing. (mark : AnyMark) (t : ℕ) → ¬ Holds freeing.holders mark t) }
        ensures ways { IfOk result (λ freeing. freeing.ways ≡ record { makers = 0 ∷ []; firsts = 0 ∷ [] }) }
    {
        Ok(Freeing {
            holders: Holders::new(alloc, marks.rivals.len())?,
            ways: Ways::new(alloc)?,
        })
    }

    /// Adds the keys of what frees the admission of a task, and returns the lowest enabled task whose effects interfere with its
    /// own, if there is one.
    fn free(
        &mut self,
        alloc: Global,
        marks: &EffectMarks,
        asks: &mut List<Key>,
        t: u32,
    ) -> Result<Option<u32>, Memory>
        requires numbered { AreNumbered marks.now }
        requires ways { AreWays self.old.ways }
        requires there { t < length self.old.ways.makers }
        ensures holders { OnOk result (self.new.holders ≡ self.old.holders) }
        ensures freed { IfOk result (IsFreed marks.now self.old.holders self.old.ways self.new.ways t asks.old asks.new) }
    {
        let tasks = marks.lists.len() as u32;
        let seen = marks.seen_by(alloc, t)?;
        push_marks(asks, tasks, seen.as_slice())?;
        match self.holders.lowest(seen.as_slice()) {
            None => Ok(None),
            Some(s) => {
                self.ways.push_way(asks, s, t)?;
                Ok(Some(s))
            }
        }
    }

    /// Notes that a task is enabled.
    fn enable(&mut self, alloc: Global, marks: &EffectMarks, t: u32) -> Result<(), Memory>
        requires numbered { AreNumbered marks.now }
        requires room { HasRoomFor self.old.holders (length marks.now.rivals) }
        ensures ways { OnOk result (self.new.ways ≡ self.old.ways) }
        ensures room { OnOk result (HasRoomFor self.new.holders (length marks.now.rivals)) }
        ensures entered { OnOk result (HaveEntered self.old.holders self.new.holders t (left_by marks.now t)) }
    {
        let left = marks.left_by(alloc, t)?;
        self.holders.enter(t, left.as_slice())
    }

    /// Notes that a task is not enabled any more.
    fn disable(&mut self, alloc: Global, marks: &EffectMarks, t: u32) -> Result<(), Memory>
        requires numbered { AreNumbered marks.now }
        requires room { HasRoomFor self.old.holders (length marks.now.rivals) }
        ensures ways { OnOk result (self.new.ways ≡ self.old.ways) }
        ensures room { OnOk result (HasRoomFor self.new.holders (length marks.now.rivals)) }
        ensures left { OnOk result (HaveLeft self.old.holders self.new.holders t (left_by marks.now t)) }
    {
        let left = marks.left_by(alloc, t)?;
        self.holders.leave(t, left.as_slice());
        Ok(())
    }

    /// Notes that a task was made, which is enabled if it was spawned.
    fn note_made(
        &mut self,
        alloc: Global,
        marks: &EffectMarks,
        st: &State,
        maker: u32,
        child: u32,
    ) -> Result<(), Memory>
        requires numbered { AreNumbered marks.now }
        requires room { HasRoomFor self.old.holders (length marks.now.rivals) }
        requires few { length self.old.ways.firsts < 2 ^ 32 }
        requires there { child < length st.now.links }
        ensures ways { OnOk result (self.new.ways ≡ entered self.old.ways maker) }
        ensures room { OnOk result (HasRoomFor self.new.holders (length marks.now.rivals)) }
        ensures entered { OnOk result (EnteredIf (link_of st.now.links child).parent self.old.holders self.new.holders child
            (left_by marks.now child)) }
    {
        self.ways.enter(maker)?;
        match st.links.link(child).parent {
            None => Ok(()),
            Some(_) => self.enable(alloc, marks, child),
        }
    }

    /// Notes that a task is done, and adds the keys of the marks that it leaves.
    fn note_done(
        &mut self,
        alloc: Global,
        marks: &EffectMarks,
        gives: &mut List<Key>,
        t: u32,
    ) -> Result<(), Memory>
        requires numbered { AreNumbered marks.now }
        requires room { HasRoomFor self.old.holders (length marks.now.rivals) }
        ensures ways { OnOk result (self.new.ways ≡ self.old.ways) }
        ensures room { OnOk result (HasRoomFor self.new.holders (length marks.now.rivals)) }
        ensures left { OnOk result (HaveLeft self.old.holders self.new.holders t (left_by marks.now t)) }
        ensures gives { OnOk result (gives.new ≡ gives.old ++ mark_keys marks.now (left_by marks.now t)) }
    {
        let tasks = marks.lists.len() as u32;
        let left = marks.left_by(alloc, t)?;
        push_marks(gives, tasks, left.as_slice())?;
        self.holders.leave(t, left.as_slice());
        Ok(())
    }

    /// Notes a move of t, after which the state is this one, and adds the keys of what frees it, or of what it frees. It returns
    /// the lowest enabled task whose effects interfere with those of t, if the move admits t and there is one.
    pub(crate) fn note(
        &mut self,
        alloc: Global,
        marks: &EffectMarks,
        st: &State,
        t: u32,
        keys: &mut EntryKeys,
    ) -> Result<Option<u32>, Memory>
        requires numbered { AreNumbered marks.now }
        requires room { HasRoomFor self.old.holders (length marks.now.rivals) }
        requires ways { AreWays self.old.ways }
        requires there { t < length self.old.ways.makers }
        requires few { length self.old.ways.firsts < 2 ^ 32 }
        requires child { (c : ℕ) → keys.old.end ≡ HasMade c → c < length st.now.links }
        ensures room { OnOk result (HasRoomFor self.new.holders (length marks.now.rivals)) }
        ensures end { OnOk result (keys.new.end ≡ keys.old.end) }
        ensures weight { OnOk result (keys.new.weight ≡ keys.old.weight) }
        ensures noted { IfOk result (λ low.
            IsNotedBy marks.now st.now t low self.old self.new keys.old keys.new keys.old.end) }
    {
        match keys.end {
            End::Admitted => {
                let low = self.free(alloc, marks, &mut keys.asks, t)?;
                self.enable(alloc, marks, t)?;
                Ok(low)
            }
            End::Made { child } => {
                self.note_made(alloc, marks, st, t, child)?;
                Ok(None)
            }
            End::Done { .. } => {
                self.note_done(alloc, marks, &mut keys.gives, t)?;
                Ok(None)
            }
            End::Fault { .. } => {
                self.disable(alloc, marks, t)?;
                Ok(None)
            }
            End::Waits { .. } | End::Joins { .. } => Ok(None),
        }
    }
}
