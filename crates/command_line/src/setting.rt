//! The settings of a command: its options that take a number.
ghost use Rattle.std.specs.Prelude.{◌≡◌};
ghost use Rattle.command_line.specs.Options.{number_for, of};
ghost use Rattle.command_line.specs.inner.Reading.{id};

use crate::number::number_between;
use twe_base::Limits;

/// The largest number of workers.
const MAX_WORKERS: u64 = 64;

/// An option that takes a number.
#[derive(Clone, Copy)]
pub(crate) enum Setting {
    /// The number of workers. With 0 the run stays on the thread that it began on.
    Workers,
    /// The fuel of each task, in units.
    Fuel,
    /// The number of tasks that may be made, task 0 counted.
    Tasks,
}

impl Setting {
    /// The name of the setting, without its hyphens.
    pub(crate) fn name(self) -> &'static str
        ensures { result.now ≡ id (of self) }
    {
        match self {
            Setting::Workers => "workers",
            Setting::Fuel => "fuel",
            Setting::Tasks => "tasks",
        }
    }

    /// The number that a word gives to the setting, if it is one within the setting's range.
    pub(crate) fn number_in(self, word: &[u8]) -> Option<u64>
        ensures { result ≡ number_for self word.now }
    {
        match self {
            Setting::Workers => number_between(0, MAX_WORKERS, word),
            Setting::Fuel => number_between(0, Limits::MAX_FUEL, word),
            Setting::Tasks => number_between(1, u64::from(Limits::MAX_TASKS), word),
        }
    }
}
