//! What a round is about, known by a type alone.
//!
//! Nothing is known of a value that several workers share, apart from its type. So the type of what the workers of a round share
//! carries a name, and the name stands for the program, the limits and the journal from before the round.

use std::marker::Brand;

/// What a round is about. Each round picks the three.
pub trait RoundName {
    ghost use Rattle.std.specs.Prelude.{List};
    ghost use Rattle.seg_journal.specs.declared.journal.Entry.{Entry};
    ghost use Rattle.twe_base.specs.Limits.{Bounds};
    ghost use Rattle.twe_program.specs.Program.{Program};

    /// The program that is run.
    ghost prog: { Program };

    /// The limits of its run.
    ghost lim: { Bounds };

    /// The journal from before the round.
    ghost earlier: { List Entry };
}

impl RoundName for Brand {
    ghost use Rattle.std.specs.Prelude.{[]};
    ghost use Rattle.opt_engine.specs.Naming.{no_program};

    ghost prog = { no_program };

    ghost lim = { record { fuel = 0; tasks = 1 } };

    ghost earlier = { [] };
}
