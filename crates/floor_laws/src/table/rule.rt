//! The program and the limits that the type of a floor names, for which its table keeps the rule.

/// The program that runs on a floor, and its limits. The type of the floor names them.
pub trait Named {
    ghost use Rattle.twe_base.specs.Limits.{Bounds};
    ghost use Rattle.twe_program.specs.Program.{Program};

    /// The program.
    ghost prog: { Program };

    /// The limits of its run.
    ghost lim: { Bounds };
}
