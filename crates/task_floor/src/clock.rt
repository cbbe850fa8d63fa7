//! What the word of the clock says: how many entries were drawn, and how many tasks were asked for.
ghost use Rattle.std.specs.Prelude.{◌≡◌, ◌<◌, ◌+◌, ◌*◌, ◌^◌};
ghost use Rattle.floor_laws.specs.table.Layout.{asked_of_clock, entries_of_clock};
ghost use Rattle.floor_laws.specs.table.Tells.{clock_step};

use seg_meaning::Stop;

/// What the clock rises by if a task is asked for; it rises by 1 for each entry.
const MAKE: u64 = 35_184_372_088_832;

/// The clock after so many entries, if so many tasks were asked for.
pub(crate) fn clock_of(asked: u32, entries: usize) -> u64
    requires { (asked < 2 ^ 19) × (entries < 2 ^ 45) }
    ensures { result ≡ asked * 2 ^ 45 + entries }
{
    asked as u64 * MAKE + entries as u64
}

/// What the clock rises by at an entry whose segment stops so.
pub(crate) fn clock_step(stop: &Stop) -> u64
    ensures { result ≡ clock_step stop.now }
{
    match stop {
        Stop::Make { .. } => MAKE + 1,
        Stop::Waits { .. } => 1,
        Stop::Joins { .. } => 1,
        Stop::Done { .. } => 1,
        Stop::Fault { .. } => 1,
    }
}

/// How many entries were drawn, if the clock says this.
pub(crate) fn entries_of(clock: u64) -> u64
    ensures { result ≡ entries_of_clock clock }
{
    clock % MAKE
}

/// How many tasks were asked for, if the clock says this.
pub(crate) fn asked_of(clock: u64) -> u32
    ensures value { result ≡ asked_of_clock clock }
    ensures few { result + 1 < 2 ^ 32 }
{
    (clock / MAKE) as u32
}
