//! A worker of a round. It takes numbers of tasks from the decks and makes the moves of those tasks.

use crate::access::{HeldAt, RoundAccess};
use crate::outlook::Outlook;
use crate::own_deck::OwnDeck;
use crate::progress::RoundProgress;
use crate::waiting::Waiting;
use crossbeam_utils::Backoff;
use seg_journal::End;
use std::alloc::Global;
use std::sync::Wait;
use steal_pool::gates::Gate;
use twe_base::Memory;

/// How many tasks a worker offers to the others before it runs a segment.
const MOST_OFFERED: u32 = 4;

/// What all workers of a round share beside the core and the decks.
#[derive(Drop)]
pub struct Site<'a, G> {
    /// Where a worker passes before each segment.
    pub gate: &'a G,
    /// How the round stands.
    pub progress: &'a RoundProgress,
}

/// Everything that a worker owns.
#[derive(Drop)]
pub struct Worker {
    deck: OwnDeck,
    // A number that lies on no deck and comes first.
    first: Option<u32>,
    waiting: Waiting,
    // Whether it ran a segment for the number that it deals with.
    moved: bool,
    // The last stage of the round to which it came.
    stage: Option<u64>,
    // Whether it found no memory. Then it runs nothing more.
    stopped: bool,
}

/// What a worker does that has found nothing to do.
enum Idle {
    /// It waits for the others.
    Waits,
    /// It looks at all tasks of its list once more, and comes to this stage if it can run none.
    Looks { stage: u64 },
    /// It leaves the round.
    Leaves,
}

impl Worker {
    /// A worker for a round that begins with this many entries.
    pub fn new(alloc: Global, deck: OwnDeck, entries: usize) -> Self {
        Worker {
            deck,
            first: None,
            waiting: Waiting::new(alloc, entries),
            moved: false,
            stage: None,
            stopped: false,
        }
    }

    /// Hands the worker a number before all others.
    pub fn hand(&mut self, number: u32) {
        self.first = Some(number);
    }

    /// Pushes a number to the worker's deck, and returns whether it did.
    pub fn push(&mut self, number: u32) -> bool {
        self.deck.push(number)
    }

    /// Works until no worker of the round finds anything to do.
    pub fn work<R: Wait, A: RoundAccess, G: Gate>(
        &mut self,
        rt: &R,
        access: &mut A,
        site: &Site<'_, G>,
    ) {
        let backoff = Backoff::new();
        site.progress.enter();
        for _ in rt.forever() {
            // It is read before the decks and the list are looked at, and again after it.
            let before = site.progress.read();
            if let Some(number) = self.take(rt) {
                self.deal_with(rt, access, site, Some(number));
                backoff.reset();
                continue;
            }
            if self.finds_ready(access) {
                site.progress.add();
                self.deal_with(rt, access, site, None);
                backoff.reset();
                continue;
            }
            match self.idle(site.progress, before) {
                Idle::Waits => pause(rt, &backoff, site.progress, before),
                Idle::Looks { stage } => {
                    self.look_again(rt, access, site, stage);
                    backoff.reset();
                }
                Idle::Leaves => break,
            }
        }
        site.progress.leave();
    }

    /// The next number: the one that was handed to the worker, or else one from the decks.
    fn take<R: Wait>(&mut self, rt: &R) -> Option<u32> {
        match self.first.take() {
            Some(number) => Some(number),
            None => self.deck.take(rt),
        }
    }

    /// Whether a task of the list is to be tried again, since its wait or its bar has ended.
    fn finds_ready<A: RoundAccess>(&mut self, access: &mut A) -> bool {
        self.hear(access);
        !self.stopped && self.waiting.is_ready()
    }

    /// What it does next, if it has found nothing to do since the round stood so.
    fn idle(&mut self, progress: &RoundProgress, before: u64) -> Idle {
        let Some(stage) = progress.stage_since(before) else {
            return Idle::Waits;
        };
        match self.stage {
            Some(own) if own == stage && progress.all_came_to(own) => Idle::Looks {
                stage: after(stage),
            },
            Some(own) if own == after(stage) && progress.all_came_to(own) => Idle::Leaves,
            Some(own) if own == stage || own == after(stage) => Idle::Waits,
            _ => {
                self.reach(progress, stage);
                Idle::Waits
            }
        }
    }

    /// Tries all tasks of its list once more, and comes to this stage if it can run none.
    fn look_again<R: Wait, A: RoundAccess, G: Gate>(
        &mut self,
        rt: &R,
        access: &mut A,
        site: &Site<'_, G>,
        stage: u64,
    ) {
        self.stopped = self.stopped || self.waiting.ready_all().is_err();
        site.progress.add();
        self.deal_with(rt, access, site, None);
        if !self.moved {
            self.reach(site.progress, stage);
        }
    }

    /// Comes to a stage of the round.
    fn reach(&mut self, progress: &RoundProgress, stage: u64) {
        progress.reach(stage);
        self.stage = Some(stage);
    }

    /// Deals with a number, if there is one, and then with each task whose wait has ended. Then that is dealt with.
    fn deal_with<R: Wait, A: RoundAccess, G: Gate>(
        &mut self,
        rt: &R,
        access: &mut A,
        site: &Site<'_, G>,
        number: Option<u32>,
    ) {
        self.moved = false;
        let mut next = number;
        for _ in rt.forever() {
            if self.stopped {
                break;
            }
            let Some(task) = next.take().or_else(|| self.waiting.next()) else {
                break;
            };
            self.stopped = self.follow(rt, access, site, task).is_err();
            self.hear(access);
        }
        site.progress.finish(self.moved);
    }

    /// Hears which tasks have ended.
    fn hear<A: RoundAccess>(&mut self, access: &mut A) {
        if !self.stopped {
            self.stopped = access.tell(&mut self.waiting).is_err();
        }
    }

    /// Makes the moves of a task while one is legal. A task that waits or is held back comes on the worker's list.
    fn follow<R: Wait, A: RoundAccess, G: Gate>(
        &mut self,
        rt: &R,
        access: &mut A,
        site: &Site<'_, G>,
        task: u32,
    ) -> Result<(), Memory> {
        for _ in rt.forever() {
            match access.outlook(task)? {
                Outlook::Over => return Ok(()),
                Outlook::Waits { on, next } => return self.waiting.wait(task, on, next),
                Outlook::Held { by } => match access.keep(task, by)? {
                    HeldAt::Bar => return Ok(()),
                    HeldAt::Nowhere => return self.waiting.hold(task, by),
                    HeldAt::EndedBar => (),
                },
                Outlook::Runs => {
                    self.offer(site);
                    self.segment(access, site, task)?;
                }
            }
        }
        unreachable!()
    }

    /// Offers a few of the tasks that it has freed to the others, before it runs a segment. One for which there is no room on the
    /// deck is dealt in the next round.
    fn offer<G: Gate>(&mut self, site: &Site<'_, G>) {
        for _ in 0..MOST_OFFERED {
            let Some(task) = self.waiting.take_shared() else {
                return;
            };
            self.push_to_deck(site, task);
        }
    }

    /// Pushes a number to the worker's deck, if there is room, and wakes one that sleeps.
    fn push_to_deck<G: Gate>(&mut self, site: &Site<'_, G>, number: u32) {
        site.progress.add();
        if self.deck.push(number) {
            site.progress.wake();
        } else {
            site.progress.finish(false);
        }
    }

    /// Passes the gate and runs a segment of the task, if it is still legal then. A task that the segment makes is pushed,
    /// if there is room.
    fn segment<A: RoundAccess, G: Gate>(
        &mut self,
        access: &mut A,
        site: &Site<'_, G>,
        task: u32,
    ) -> Result<(), Memory> {
        site.gate.pass(task);
        let Some(end) = access.run(task)? else {
            return Ok(());
        };
        self.moved = true;
        if let End::Made { child } = end {
            self.push_to_deck(site, child);
        }
        Ok(())
    }
}

/// The stage after this one.
fn after(stage: u64) -> u64 {
    stage.saturating_add(1)
}

/// Waits a little before another try.
fn pause<R: Wait>(rt: &R, backoff: &Backoff, progress: &RoundProgress, before: u64) {
    if backoff.is_completed() {
        progress.nap(rt, before);
    } else {
        backoff.snooze();
    }
}
