//! The words after the program's name.
ghost use Rattle.std.specs.Prelude.{◌≡◌};
ghost use Rattle.command_line.specs.Numbers.{number_between};
ghost use Rattle.command_line.specs.Options.{max_workers};
ghost use Rattle.twe_opt.specs.Words.{command_asked, run_asked};

use command_line::{Command, number_between};
use twe_base::{Limits, Word};

/// The largest number of workers.
const MAX_WORKERS: u64 = 64;

/// The run that the words ask for: there is one word, and it is a number of workers from 1 to 64. Other words ask for none. The
/// run has the default limits, and its journal is not written.
pub(crate) fn command_asked(words: &[Word]) -> Option<Command>
    ensures { result ≡ command_asked words.now }
{
    match words {
        [word] => command_in(word),
        _ => None,
    }
}

/// The run by as many workers as this word is.
fn command_in(word: &Word) -> Option<Command>
    ensures { result ≡ run_asked (number_between 1 max_workers word.now) }
{
    let workers = number_between(1, MAX_WORKERS, word.as_bytes())?;
    Some(Command::Run {
        workers: workers as u32,
        lim: Limits::default(),
        journal: false,
    })
}
