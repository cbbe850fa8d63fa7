//! A draft that was run, whose program is known by its type alone.
ghost use Rattle.std.specs.Prelude.{◌≡◌};
ghost use Rattle.opt_engine.specs.Drafts.{IsDraftedOf};

use crate::game::Game;
use crate::named_start::{NamedScratch, PlainStart};
use opt_engine::{Drafted, Hints, RoundName, run_start};
use std::marker::{Model, PhantomData};
use steal_pool::gates::Gate;
use twe_base::Memory;

/// A draft of the named program that was run.
#[derive(Drop)]
pub(crate) struct NamedDrafted<N: RoundName> {
    drafted: Drafted,
    of: PhantomData<N>,
}

impl<N: RoundName> Model for NamedDrafted<N> {
    ghost use Rattle.opt_engine.specs.declared.drafts.Drafted.{Drafted};

    ghost Value = { Drafted };

    ghost use Rattle.opt_engine.specs.Drafts.{IsDraftedOf};

    ghost view = { λ named. named.drafted };

    ghost invariant = { λ named. IsDraftedOf N.prog named.drafted };
}

impl<N: RoundName> NamedDrafted<N> {
    /// This draft, by its name.
    pub(crate) fn new(drafted: Drafted) -> Self
        requires { IsDraftedOf N.prog drafted }
        ensures { result ≡ drafted }
    {
        NamedDrafted {
            drafted,
            of: PhantomData,
        }
    }

    /// Runs the start of a segment of the named program as a draft, and gives the room for it back.
    pub(crate) fn run<G: Gate>(
        game: &Game<'_, N>,
        hints: &Hints,
        gate: &G,
        start: PlainStart,
        scratch: NamedScratch<N>,
    ) -> Result<(Self, NamedScratch<N>), Memory> {
        let (start, scratch) = (start.into_start(), scratch.into_scratch());
        let (drafted, scratch) = run_start(game.alloc(), game.prog(), hints, gate, start, scratch)?;
        Ok((NamedDrafted::new(drafted), NamedScratch::new(scratch)))
    }

    /// The task whose segment it is.
    pub(crate) fn task(&self) -> u32 {
        self.drafted.task
    }

    /// The declaration of that task.
    pub(crate) fn decl(&self) -> u32 {
        self.drafted.before.decl
    }

    /// The fuel that the segment took, in units.
    pub(crate) fn cost(&self) -> u64 {
        let after = self.drafted.after.fuel;
        self.drafted.before.fuel.saturating_sub(after)
    }

    /// The draft without its name.
    pub(crate) fn into_drafted(self) -> Drafted
        ensures same { result ≡ self }
        ensures is { IsDraftedOf N.prog result }
    {
        let NamedDrafted { drafted, of: _ } = self;
        drafted
    }
}
