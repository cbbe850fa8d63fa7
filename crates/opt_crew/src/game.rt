//! What every worker of a round knows: the program that is run, and its limits.
ghost use Rattle.std.specs.Prelude.{◌≡◌};

use opt_engine::RoundName;
use std::alloc::Global;
use std::marker::{Model, PhantomData};
use twe_base::Limits;
use twe_program::Prog;
use twe_rounds::Setup;

/// The named program and the named limits, and where memory comes from.
#[derive(Drop)]
pub(crate) struct Game<'p, N: RoundName> {
    alloc: Global,
    p: &'p Prog,
    lim: Limits,
    of: PhantomData<N>,
}

impl<'p, N: RoundName> Model for Game<'p, N> {
    ghost use Rattle.std.specs.Prelude.{◌≡◌};
    ghost use Rattle.twe_base.specs.Limits.{Bounds};

    ghost Value = { Bounds };

    ghost view = { λ game. game.lim };

    ghost invariant = { λ game. (game.p.now ≡ N.prog) × (game.lim ≡ N.lim) };
}

impl<'p, N: RoundName> Game<'p, N> {
    /// The game of the program and the limits that moves stand on.
    pub(crate) fn new(setup: &Setup<'p>) -> Self
        requires { (setup.now.p.now ≡ N.prog) × (setup.now.lim ≡ N.lim) }
    {
        Game {
            alloc: setup.alloc,
            p: setup.p,
            lim: setup.lim,
            of: PhantomData,
        }
    }

    /// The program.
    pub(crate) fn prog(&self) -> &Prog
        ensures { result.now ≡ N.prog }
    {
        self.p
    }

    /// Where memory comes from.
    pub(crate) fn alloc(&self) -> Global {
        self.alloc
    }
}
