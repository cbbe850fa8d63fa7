//! What is done with each program of a batch.
ghost use Rattle.std.specs.Prelude.{◌≡◌};
ghost use Rattle.par_check.specs.Batch.{command_of};

use command_line::Command;
use twe_base::Limits;

/// What is done with each program of a batch.
#[derive(Clone, Copy, Debug, PartialEq, Eq)]
pub enum Job {
    /// It is checked.
    Check,
    /// It is checked, and run without workers under the default limits.
    Run,
}

impl Job {
    /// The command that does it: `check`, or `run` without options.
    pub fn command(self) -> Command
        ensures { result ≡ command_of self }
    {
        match self {
            Job::Check => Command::Check,
            Job::Run => Command::Run {
                workers: 0,
                lim: Limits::default(),
                journal: false,
            },
        }
    }
}
