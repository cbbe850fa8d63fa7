//! The commands.
ghost use Rattle.std.specs.Prelude.{◌≡◌, [], ◌≤◌, codes, unwrap_or};
ghost use Rattle.clap.specs.Matches.{found_of};
ghost use Rattle.clap.specs.Walk.{rows_of};
ghost use Rattle.command_line.specs.Options.{max_workers};
ghost use Rattle.command_line.specs.Words.{IsReading, workers_of, run_items, replay_items, load_items};
ghost use Rattle.command_line.specs.inner.Reading.{IsRead, command_of, first_named, has_end, limits_given, parsed, check_from, run_from, replay_from, load_from, size_given};
ghost use Rattle.command_line.specs.declared.command.WordsFail.TheVariants.{OutOfMemory};
ghost use Rattle.twe_base.specs.Limits.{IsWithin};

use crate::arguments;
use crate::number::number_between;
use crate::setting::Setting;
use clap::ArgMatches;
use std::alloc::Global;
use twe_base::{Limits, Memory, Word};

/// The largest size of a load.
const MAX_LOAD: u64 = 2_000;

/// What the program is asked to do.
#[derive(Clone, Copy, Debug, PartialEq, Eq)]
pub enum Command {
    /// Check a program text, and say if it is accepted.
    Check,
    /// Run a program.
    Run {
        /// How many workers run it, from 0 to 64. With 0 the run stays on the thread that it began on.
        workers: u32,
        /// The limits of the run.
        lim: Limits,
        /// Whether its journal is written after the result.
        journal: bool,
    },
    /// Replay a journal on a program.
    Replay {
        /// The limits of the run, if the journal has none of its own.
        lim: Limits,
    },
    /// Make a large program, and run it.
    Load {
        /// How many workers run it, from 0 to 64. With 0 the run stays on the thread that it began on.
        workers: u32,
        /// How many pairs of tasks it has, from 1 to 2,000.
        n: u32,
    },
}

impl Command {
    /// How many workers the command asks for: 0 if it is `check` or `replay`.
    pub fn workers(&self) -> u32
        ensures { result ≡ workers_of self.now }
    {
        match *self {
            Command::Run { workers, .. } | Command::Load { workers, .. } => workers,
            Command::Check | Command::Replay { .. } => 0,
        }
    }
}

/// Why no command was read.
#[derive(Clone, Copy, Debug, PartialEq, Eq)]
pub enum WordsFail {
    /// The words mean no command.
    Usage,
    /// There was not enough memory.
    OutOfMemory(Memory),
}

impl From<Memory> for WordsFail {
    ghost from_gives = { λ memory fail. fail ≡ OutOfMemory memory };

    fn from(memory: Memory) -> Self {
        WordsFail::OutOfMemory(memory)
    }
}

/// The command that the words mean, or `Usage` exactly if they mean none.
pub fn read_words(alloc: Global, words: &[Word]) -> Result<Command, WordsFail>
    ensures { IsReading words.now result }
{
    read_command(alloc, words)
}

/// The same, as `clap` reads the words.
fn read_command(alloc: Global, words: &[Word]) -> Result<Command, WordsFail>
    ensures { IsRead (command_of words.now) result }
{
    if has_end(words) {
        return Err(WordsFail::Usage);
    }
    read_named(alloc, words)
}

/// Whether one of the words is `--`. `clap` would take it as the end of the options.
fn has_end(words: &[Word]) -> bool
    ensures { result ≡ has_end words.now }
{
    words.iter().any(|word| word.as_bytes() == b"--".as_slice())
}

/// The command whose name is the first word.
fn read_named(alloc: Global, words: &[Word]) -> Result<Command, WordsFail>
    ensures { IsRead (first_named words.now) result }
{
    let Some(name) = words.first() else {
        return Err(WordsFail::Usage);
    };
    match name.as_str() {
        "check" => read_check(alloc, words),
        "run" => read_run(alloc, words),
        "replay" => read_replay(alloc, words),
        "load" => read_load(alloc, words),
        _ => Err(WordsFail::Usage),
    }
}

/// The command `check`.
fn read_check(alloc: Global, words: &[Word]) -> Result<Command, WordsFail>
    ensures { IsRead (parsed (codes "check") [] check_from words.now) result }
{
    let _ = arguments::matches_in(arguments::plain(alloc, "check"), words)?;
    Ok(Command::Check)
}

/// The command `run`.
fn read_run(alloc: Global, words: &[Word]) -> Result<Command, WordsFail>
    ensures { IsRead (parsed (codes "run") run_items run_from words.now) result }
{
    let matches = arguments::matches_in(arguments::run(alloc)?, words)?;
    run_of(&matches)
}

/// The command `run` with what was found.
fn run_of(matches: &ArgMatches<'_>) -> Result<Command, WordsFail>
    ensures { IsRead (run_from (rows_of (found_of matches.now))) result }
{
    let workers = arguments::number_given(matches, Setting::Workers)?;
    let fuel = arguments::number_given(matches, Setting::Fuel)?;
    let tasks = arguments::number_given(matches, Setting::Tasks)?;
    Ok(Command::Run {
        workers: workers_of(workers),
        lim: limits_of(fuel, tasks),
        journal: arguments::journal_given(matches),
    })
}

/// The command `replay`.
fn read_replay(alloc: Global, words: &[Word]) -> Result<Command, WordsFail>
    ensures { IsRead (parsed (codes "replay") replay_items replay_from words.now) result }
{
    let matches = arguments::matches_in(arguments::replay(alloc)?, words)?;
    replay_of(&matches)
}

/// The command `replay` with what was found.
fn replay_of(matches: &ArgMatches<'_>) -> Result<Command, WordsFail>
    ensures { IsRead (replay_from (rows_of (found_of matches.now))) result }
{
    let fuel = arguments::number_given(matches, Setting::Fuel)?;
    let tasks = arguments::number_given(matches, Setting::Tasks)?;
    Ok(Command::Replay {
        lim: limits_of(fuel, tasks),
    })
}

/// The command `load`.
fn read_load(alloc: Global, words: &[Word]) -> Result<Command, WordsFail>
    ensures { IsRead (parsed (codes "load") load_items load_from words.now) result }
{
    let matches = arguments::matches_in(arguments::load(alloc)?, words)?;
    load_of(&matches)
}

/// The command `load` with what was found.
fn load_of(matches: &ArgMatches<'_>) -> Result<Command, WordsFail>
    ensures { IsRead (load_from (rows_of (found_of matches.now))) result }
{
    let workers = arguments::number_given(matches, Setting::Workers)?;
    match size_given(matches) {
        Some(n) => Ok(Command::Load {
            workers: workers_of(workers),
            n,
        }),
        None => Err(WordsFail::Usage),
    }
}

/// The size of a load that was found.
fn size_given(matches: &ArgMatches<'_>) -> Option<u32>
    ensures { result ≡ size_given (rows_of (found_of matches.now)) }
{
    let text = matches.get_str("N")?;
    let n = number_between(1, MAX_LOAD, text.as_bytes())?;
    Some(n as u32)
}

/// The number of workers that is given, or 0 if none is.
fn workers_of(workers: Option<u64>) -> u32
    requires { unwrap_or workers 0 ≤ max_workers }
    ensures { result ≡ unwrap_or workers 0 }
{
    workers.unwrap_or(0) as u32
}

/// The limits that are given; a limit that is left out has its default.
fn limits_of(fuel: Option<u64>, tasks: Option<u64>) -> Limits
    requires { IsWithin (limits_given fuel tasks).fuel (limits_given fuel tasks).tasks }
    ensures { result ≡ limits_given fuel tasks }
{
    let fuel = fuel.unwrap_or(Limits::DEFAULT_FUEL);
    let tasks = tasks.unwrap_or(u64::from(Limits::DEFAULT_TASKS));
    Limits::new(fuel, tasks as u32)
}
