//! The commands as `clap` knows them, and what it finds in the words.
ghost use Rattle.std.specs.Prelude.{◌≡◌, ◌≢◌, [], codes, true, false, Some, IfOk};
ghost use Rattle.clap.specs.Faults.{is_simple_and_free};
ghost use Rattle.clap.specs.Matches.{found_of};
ghost use Rattle.clap.specs.Simple.{app_of, new_rule};
ghost use Rattle.clap.specs.Walk.{rule_of, rows_of};
ghost use Rattle.command_line.specs.Options.{flag, size};
ghost use Rattle.command_line.specs.Words.{run_items, replay_items, load_items};
ghost use Rattle.command_line.specs.inner.Reading.{argument, app_for, HasRows, IsRead, number_given, flag_given};

use crate::command::WordsFail;
use crate::setting::Setting;
use clap::error::ErrorKind;
use clap::{Arg, ArgAction, ArgMatches};
use std::alloc::{AllocError, Global};
use twe_base::{Memory, Word};

/// A command with no arguments and no help.
pub(crate) fn plain<'a>(alloc: Global, name: &'a str) -> clap::Command<'a>
    ensures { app_of result ≡ app_for name.entry.now [] }
{
    clap::Command::new(alloc, name).disable_help_flag(true)
}

/// The command `run`.
pub(crate) fn run<'a>(alloc: Global) -> Result<clap::Command<'a>, Memory>
    ensures { IfOk result (λ command. app_of command ≡ app_for (codes "run") run_items) }
{
    let command = plain(alloc, "run")
        .arg(option(alloc, "workers"))?
        .arg(option(alloc, "fuel"))?
        .arg(option(alloc, "tasks"))?
        .arg(journal(alloc))?;
    Ok(command)
}

/// The command `replay`.
pub(crate) fn replay<'a>(alloc: Global) -> Result<clap::Command<'a>, Memory>
    ensures { IfOk result (λ command. app_of command ≡ app_for (codes "replay") replay_items) }
{
    let command = plain(alloc, "replay")
        .arg(option(alloc, "fuel"))?
        .arg(option(alloc, "tasks"))?;
    Ok(command)
}

/// The command `load`.
pub(crate) fn load<'a>(alloc: Global) -> Result<clap::Command<'a>, Memory>
    ensures { IfOk result (λ command. app_of command ≡ app_for (codes "load") load_items) }
{
    let command = plain(alloc, "load")
        .arg(option(alloc, "workers"))?
        .arg(number(alloc))?;
    Ok(command)
}

/// The option of a setting with this name.
fn option<'a>(alloc: Global, name: &'a str) -> Arg<'a>
    ensures rule { rule_of result ≡ record (new_rule name.entry.now) { long = Some name.entry.now } }
    ensures local { result.global ≡ false }
{
    Arg::new(alloc, name).long(name)
}

/// The flag `--journal`.
fn journal<'a>(alloc: Global) -> Arg<'a>
    ensures rule { rule_of result ≡ argument flag }
    ensures local { result.global ≡ false }
{
    Arg::new(alloc, "journal")
        .long("journal")
        .action(ArgAction::SetTrue)
}

/// The size of a load.
fn number<'a>(alloc: Global) -> Arg<'a>
    ensures rule { rule_of result ≡ argument size }
    ensures local { result.global ≡ false }
{
    Arg::new(alloc, "N").required(true)
}

/// What `clap` finds in the words, of which the first is the command's name.
pub(crate) fn matches_in<'a>(
    command: clap::Command<'a>,
    words: &'a [Word],
) -> Result<ArgMatches<'a>, WordsFail>
    requires { is_simple_and_free (app_of command) ≡ true }
    ensures { HasRows (app_of command.entry) words.entry.now result }
{
    match command.try_get_matches_from(words) {
        Ok(matches) => Ok(matches),
        Err(error) => Err(fail_of(error.kind())),
    }
}

/// The failure for a kind of `clap`'s errors: `clap` found no memory, or the words are no command.
fn fail_of(kind: ErrorKind) -> WordsFail
    ensures { result ≡ WordsFail.Usage → kind ≢ ErrorKind.OutOfMemory }
{
    if kind == ErrorKind::OutOfMemory {
        WordsFail::OutOfMemory(Memory::from(AllocError))
    } else {
        WordsFail::Usage
    }
}

/// The number that a setting is given, if it is given one.
pub(crate) fn number_given(
    matches: &ArgMatches<'_>,
    setting: Setting,
) -> Result<Option<u64>, WordsFail>
    ensures { IsRead (number_given setting (rows_of (found_of matches.now))) result }
{
    match matches.get_str(setting.name()) {
        None => Ok(None),
        Some(text) => match setting.number_in(text.as_bytes()) {
            Some(number) => Ok(Some(number)),
            None => Err(WordsFail::Usage),
        },
    }
}

/// Whether the flag `--journal` is given.
pub(crate) fn journal_given(matches: &ArgMatches<'_>) -> bool
    ensures { result ≡ flag_given (rows_of (found_of matches.now)) }
{
    match matches.get_str("journal") {
        None => false,
        Some(text) => text == "true",
    }
}
