//! What the words after the program's name ask for.
ghost use Rattle.std.specs.Prelude.{◌≡◌, IfOk, OnOk};
ghost use Rattle.command_line.specs.Numbers.{number_between as between};
ghost use Rattle.twe_base.specs.Language.{max_fuel, max_tasks};
ghost use Rattle.twe_explain.specs.declared.words.NextWord.TheVariants.{Name};
ghost use Rattle.twe_explain.specs.Words.{asked_in, asked_first, fuel_taken, is_option, is_whole, option_taken, run_of, tasks_taken, wish_made, wish_of, word_taken, word_taken_as};

use command_line::number_between;
use explain_pages::Wanted;
use std::alloc::Global;
use twe_base::{Bytes, Limits, Memory, Word};

/// What is asked for.
#[derive(Debug, Drop)]
pub struct Wish {
    /// How it is to be written.
    pub wanted: Wanted,
    /// Whether all failures of the rules on effects are wanted, and not the first one.
    pub all: bool,
    /// The limits of the run, if the text is to be run.
    pub run: Option<Limits>,
}

/// What a word is, by those before it.
#[derive(Clone, Copy, Debug, PartialEq, Eq)]
pub enum NextWord {
    /// An option.
    Option,
    /// The name of the text.
    Name,
    /// How much fuel each task has.
    Fuel,
    /// How many tasks may be made.
    Tasks,
    /// Nothing that the program does.
    Nothing,
}

/// What the words up to one ask for.
#[derive(Debug, Drop)]
pub struct Asked {
    /// The name of the text, if it is given.
    pub name: Option<Bytes>,
    /// Whether each note is to be one line.
    pub lines: bool,
    /// Whether all failures of the rules on effects are wanted.
    pub all: bool,
    /// Whether the text is to be run.
    pub run: bool,
    /// Whether it is given how much fuel each task has.
    pub fuel: bool,
    /// Whether it is given how many tasks may be made.
    pub tasks: bool,
    /// The limits that are given, with the default of each that is not.
    pub lim: Limits,
    /// What the next word is.
    pub next: NextWord,
}

/// What no words ask for.
fn asked_first() -> Asked
    ensures { result ≡ asked_first }
{
    Asked {
        name: None,
        lines: false,
        all: false,
        run: false,
        fuel: false,
        tasks: false,
        lim: Limits::default(),
        next: NextWord::Option,
    }
}

/// Takes an option, if it is not given before.
fn take_option(asked: &mut Asked, word: &Word)
    ensures { asked.new ≡ option_taken asked.old word.now }
{
    let word = word.as_bytes();
    if word == b"--name".as_slice() && asked.name.is_none() {
        asked.next = NextWord::Name;
    } else if word == b"--lines".as_slice() && !asked.lines {
        asked.lines = true;
    } else if word == b"--all".as_slice() && !asked.all {
        asked.all = true;
    } else if word == b"--run".as_slice() && !asked.run {
        asked.run = true;
    } else if word == b"--fuel".as_slice() && !asked.fuel {
        asked.next = NextWord::Fuel;
    } else if word == b"--tasks".as_slice() && !asked.tasks {
        asked.next = NextWord::Tasks;
    } else {
        asked.next = NextWord::Nothing;
    }
}

/// Takes the name of the text.
fn take_name(asked: &mut Asked, alloc: Global, word: &Word) -> Result<(), Memory>
    ensures { OnOk result (asked.new ≡ word_taken_as Name asked.old word.now) }
{
    asked.name = Some(Bytes::from_slice(alloc, word.as_bytes())?);
    asked.next = NextWord::Option;
    Ok(())
}

/// Takes the number that a word gives as the fuel of each task.
fn take_fuel(asked: &mut Asked, word: &Word)
    ensures { asked.new ≡ fuel_taken asked.old (between 0 max_fuel word.now) }
{
    match number_between(0, Limits::MAX_FUEL, word.as_bytes()) {
        None => asked.next = NextWord::Nothing,
        Some(fuel) => {
            asked.fuel = true;
            asked.lim = Limits::new(fuel, asked.lim.tasks);
            asked.next = NextWord::Option;
        }
    }
}

/// Takes the number that a word gives as that of the tasks that may be made.
fn take_tasks(asked: &mut Asked, word: &Word)
    ensures { asked.new ≡ tasks_taken asked.old (between 1 max_tasks word.now) }
{
    match number_between(1, u64::from(Limits::MAX_TASKS), word.as_bytes()) {
        None => asked.next = NextWord::Nothing,
        Some(tasks) => {
            asked.tasks = true;
            asked.lim = Limits::new(asked.lim.fuel, tasks as u32);
            asked.next = NextWord::Option;
        }
    }
}

/// Takes one word, which is an option, or what the option before it asks for.
fn take_word(asked: &mut Asked, alloc: Global, word: &Word) -> Result<(), Memory>
    ensures { OnOk result (asked.new ≡ word_taken asked.old word.now) }
{
    match asked.next {
        NextWord::Option => take_option(asked, word),
        NextWord::Name => take_name(asked, alloc, word)?,
        NextWord::Fuel => take_fuel(asked, word),
        NextWord::Tasks => take_tasks(asked, word),
        NextWord::Nothing => {}
    }
    Ok(())
}

/// What the words ask for, one after another.
fn asked_in(alloc: Global, words: &[Word]) -> Result<Asked, Memory>
    ensures { IfOk result (λ asked. asked ≡ asked_in words.now) }
{
    let mut asked = asked_first();
    for word in words {
        take_word(&mut asked, alloc, word)?;
    }
    Ok(asked)
}

/// Whether an option may come next.
fn is_option(next: NextWord) -> bool
    ensures { result ≡ is_option next }
{
    matches!(next, NextWord::Option)
}

/// Whether the last option has what it asks for, and limits are given only to a run.
fn is_whole(asked: &Asked) -> bool
    ensures { result ≡ is_whole asked.now }
{
    is_option(asked.next) && (asked.run || !(asked.fuel || asked.tasks))
}

/// The limits of the run, if one is asked for.
fn run_of(asked: &Asked) -> Option<Limits>
    ensures { result ≡ run_of asked.now }
{
    if asked.run { Some(asked.lim) } else { None }
}

/// What is asked for.
fn wish_made(alloc: Global, asked: Asked) -> Wish
    ensures { result ≡ wish_made asked }
{
    let run = run_of(&asked);
    let (lines, all) = (asked.lines, asked.all);
    let name = match asked.name {
        None => Bytes::new(alloc),
        Some(name) => name,
    };
    Wish {
        wanted: Wanted { name, lines },
        all,
        run,
    }
}

/// What the words ask for, or `None` if they ask for nothing that the program does.
pub(crate) fn wish_by(alloc: Global, words: &[Word]) -> Result<Option<Wish>, Memory>
    ensures { IfOk result (λ wish. wish ≡ wish_of words.now) }
{
    let asked = asked_in(alloc, words)?;
    if is_whole(&asked) {
        Ok(Some(wish_made(alloc, asked)))
    } else {
        Ok(None)
    }
}
