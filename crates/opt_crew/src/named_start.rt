//! What a worker needs to run a draft: the start of a segment, and room, of which the cells are known by the type alone.
ghost use Rattle.std.specs.Prelude.{◌≡◌};
ghost use Rattle.twe_program.specs.Program.{cell_count};
ghost use Rattle.state_copies.specs.Frames.{unreserved};

use opt_engine::{RoundName, Scratch, Start};
use std::marker::{Model, PhantomData};

/// The start of a segment, in whose frame nothing is reserved.
#[derive(Drop)]
pub(crate) struct PlainStart {
    start: Start,
}

impl Model for PlainStart {
    ghost use Rattle.std.specs.Prelude.{◌≡◌};
    ghost use Rattle.opt_engine.specs.declared.starts.Start.{Start};
    ghost use Rattle.state_copies.specs.Frames.{unreserved};

    ghost Value = { Start };

    ghost view = { λ plain. plain.start };

    ghost invariant = { λ plain. plain.start.frame ≡ unreserved plain.start.frame };
}

impl PlainStart {
    /// This start.
    pub(crate) fn new(start: Start) -> Self
        requires { start.frame ≡ unreserved start.frame }
        ensures { result ≡ start }
    {
        PlainStart { start }
    }

    /// The start.
    pub(crate) fn into_start(self) -> Start
        ensures same { result ≡ self }
        ensures plain { result.frame ≡ unreserved result.frame }
    {
        let PlainStart { start } = self;
        start
    }
}

/// Room for drafts of the named program.
#[derive(Drop)]
pub(crate) struct NamedScratch<N: RoundName> {
    scratch: Scratch,
    of: PhantomData<N>,
}

impl<N: RoundName> Model for NamedScratch<N> {
    ghost use Rattle.std.specs.Prelude.{◌≡◌, ℕ};
    ghost use Rattle.twe_program.specs.Program.{cell_count};

    ghost Value = { ℕ };

    ghost view = { λ named. named.scratch };

    ghost invariant = { λ named. named.scratch ≡ cell_count N.prog };
}

impl<N: RoundName> NamedScratch<N> {
    /// This room, by its name.
    pub(crate) fn new(scratch: Scratch) -> Self
        requires { scratch ≡ cell_count N.prog }
    {
        NamedScratch {
            scratch,
            of: PhantomData,
        }
    }

    /// The room without its name.
    pub(crate) fn into_scratch(self) -> Scratch
        ensures { result ≡ cell_count N.prog }
    {
        let NamedScratch { scratch, of: _ } = self;
        scratch
    }
}
