//! The limits of a run.
ghost use Rattle.std.specs.Prelude.{◌≡◌, SomeIff};
ghost use Rattle.twe_base.specs.Limits.{IsWithin};

use std::marker::Model;

/// The limits of a run: the fuel of each task, 0 to 100,000,000, and how many tasks may be made, 1 to 100,000.
#[derive(Clone, Copy, Debug, PartialEq, Eq)]
pub struct Limits {
    pub fuel: u64,
    pub tasks: u32,
}

impl Model for Limits {
    ghost use Rattle.twe_base.specs.Limits.{Bounds, IsWithin};

    ghost Value = { Bounds };

    ghost view = { λ limits. record { fuel = limits.fuel; tasks = limits.tasks } };

    ghost invariant = { λ limits. IsWithin limits.fuel limits.tasks };

    ghost inverse = { λ bounds. record { fuel = bounds.fuel; tasks = bounds.tasks } };
}

impl Limits {
    /// The largest fuel of a task.
    pub const MAX_FUEL: u64 = 100_000_000;

    /// The largest number of tasks that a run may be allowed to make.
    pub const MAX_TASKS: u32 = 100_000;

    /// The fuel of a task, unless the command line says otherwise.
    pub const DEFAULT_FUEL: u64 = 1_000_000;

    /// How many tasks a run may make, unless the command line says otherwise.
    pub const DEFAULT_TASKS: u32 = 10_000;

    /// The limits with this fuel and this number of tasks.
    pub fn new(fuel: u64, tasks: u32) -> Self
        requires { IsWithin fuel tasks }
        ensures { result ≡ record { fuel = fuel; tasks = tasks } }
    {
        Limits { fuel, tasks }
    }

    /// The limits with this fuel and this number of tasks, or `None` if one of them is out of its range.
    pub fn checked(fuel: u64, tasks: u32) -> Option<Self>
        ensures { SomeIff result (IsWithin fuel tasks) (record { fuel = fuel; tasks = tasks }) }
    {
        if fuel <= Self::MAX_FUEL && 1 <= tasks && tasks <= Self::MAX_TASKS {
            Some(Limits { fuel, tasks })
        } else {
            None
        }
    }
}

impl Default for Limits {
    ghost use Rattle.twe_base.specs.Language.{default_fuel, default_tasks};

    ghost is_default = { λ limits. limits ≡ record { fuel = default_fuel; tasks = default_tasks } };

    /// A million of fuel and ten thousand tasks.
    fn default() -> Self {
        Limits {
            fuel: Self::DEFAULT_FUEL,
            tasks: Self::DEFAULT_TASKS,
        }
    }
}
