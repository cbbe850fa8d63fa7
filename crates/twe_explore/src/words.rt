//! What the words after the program's name ask for.
ghost use Rattle.std.specs.Prelude.{◌≡◌, IfSome};
ghost use Rattle.twe_explore.specs.Words.{IsInRange, settings_after, settings_in, no_settings, setting_number, kind_after, setting_named, setting_set, was_given, json_taken, with_option, question_at, question_of};
ghost use Rattle.twe_explore.specs.declared.words.WordKind.TheVariants.{Option as AnOption};

use command_line::number_between;
use twe_base::{Limits, Word};

/// How many states may be found, if the words don't say so.
const DEFAULT_STATES: u64 = 100_000;

/// The largest number of states that may be settings for, and of a result.
const MOST: u64 = 1_000_000_000;

/// What is settings for.
#[derive(Clone, Copy, Debug)]
pub struct Question {
    /// How many states of runs that can go on may be found.
    pub states: u64,
    /// The limits of each run.
    pub lim: Limits,
    /// The result whose journal is wanted alone, counted from 1, if one is.
    pub journal: Option<u64>,
    /// Whether the results are wanted as JSON.
    pub json: bool,
}

/// What a number is for.
#[derive(Clone, Copy, Debug, PartialEq, Eq)]
pub enum Setting {
    /// How many states may be found.
    States,
    /// How much fuel each task has.
    Fuel,
    /// How many tasks may be made.
    Tasks,
    /// The result whose journal is wanted.
    Journal,
}

/// What a word is, by those before it.
#[derive(Clone, Copy, Debug, PartialEq, Eq)]
pub enum WordKind {
    /// An option.
    Option,
    /// The number of an option.
    Number(Setting),
    /// Nothing that the program does.
    Nowhere,
}

/// What the words up to one ask for.
#[derive(Clone, Copy, Debug)]
pub struct Settings {
    /// How many states may be found, if it is given.
    pub states: Option<u64>,
    /// Whether it is given how much fuel each task has.
    pub fuel: bool,
    /// Whether it is given how many tasks may be made.
    pub tasks: bool,
    /// The limits that are given, with the default of each that is not.
    pub lim: Limits,
    /// The result whose journal is wanted, if it is given.
    pub journal: Option<u64>,
    /// Whether the results are wanted as JSON.
    pub json: bool,
    /// What the next word is.
    pub next: WordKind,
}

/// What no words ask for.
fn no_settings() -> Settings
    ensures { result ≡ no_settings }
{
    Settings {
        states: None,
        fuel: false,
        tasks: false,
        lim: Limits::default(),
        journal: None,
        json: false,
        next: WordKind::Option,
    }
}

/// The setting that an option names, if it names one.
fn setting_named(word: &Word) -> Option<Setting>
    ensures { result ≡ setting_named word.now }
{
    match word.as_str() {
        "--states" => Some(Setting::States),
        "--fuel" => Some(Setting::Fuel),
        "--tasks" => Some(Setting::Tasks),
        "--journal" => Some(Setting::Journal),
        _ => None,
    }
}

/// Whether a setting was given before.
fn was_given(settings: &Settings, setting: Setting) -> bool
    ensures { result ≡ was_given settings.now setting }
{
    match setting {
        Setting::States => settings.states.is_some(),
        Setting::Fuel => settings.fuel,
        Setting::Tasks => settings.tasks,
        Setting::Journal => settings.journal.is_some(),
    }
}

/// The number that a word is for a setting, if it is one in the setting's range.
fn setting_number(setting: Setting, word: &Word) -> Option<u64>
    ensures number { result ≡ setting_number setting word.now }
    ensures within { IfSome result (IsInRange setting) }
{
    match setting {
        Setting::States => number_between(1, MOST, word.as_bytes()),
        Setting::Fuel => number_between(0, Limits::MAX_FUEL, word.as_bytes()),
        Setting::Tasks => number_between(1, u64::from(Limits::MAX_TASKS), word.as_bytes()),
        Setting::Journal => number_between(1, MOST, word.as_bytes()),
    }
}

/// Sets a setting. An option may come next.
fn set(settings: &mut Settings, setting: Setting, number: u64)
    requires { IsInRange setting number }
    ensures { settings.new ≡ setting_set settings.old setting number }
{
    let lim = settings.lim;
    settings.next = WordKind::Option;
    match setting {
        Setting::States => settings.states = Some(number),
        Setting::Fuel => {
            settings.fuel = true;
            settings.lim = Limits::new(number, lim.tasks);
        }
        Setting::Tasks => {
            settings.tasks = true;
            settings.lim = Limits::new(lim.fuel, number as u32);
        }
        Setting::Journal => settings.journal = Some(number),
    }
}

/// What a word is that comes after this option.
fn kind_after(settings: &Settings, word: &Word) -> WordKind
    ensures { result ≡ kind_after settings.now word.now }
{
    match setting_named(word) {
        None => WordKind::Nowhere,
        Some(setting) => {
            if was_given(settings, setting) {
                WordKind::Nowhere
            } else {
                WordKind::Number(setting)
            }
        }
    }
}

/// Notes that the results are wanted as JSON.
fn take_json(settings: &mut Settings)
    ensures { settings.new ≡ json_taken settings.old }
{
    if settings.json {
        settings.next = WordKind::Nowhere;
    } else {
        settings.json = true;
    }
}

/// Takes an option.
fn take_option(settings: &mut Settings, word: &Word)
    ensures { settings.new ≡ with_option settings.old word.now }
{
    match word.as_str() {
        "--json" => take_json(settings),
        _ => settings.next = kind_after(settings, word),
    }
}

/// Takes one word.
fn take_word(settings: &mut Settings, word: &Word)
    ensures { settings.new ≡ settings_after settings.old word.now }
{
    match settings.next {
        WordKind::Option => take_option(settings, word),
        WordKind::Number(setting) => match setting_number(setting, word) {
            None => settings.next = WordKind::Nowhere,
            Some(number) => set(settings, setting, number),
        },
        WordKind::Nowhere => {}
    }
}

/// What the words ask for, one after another.
fn settings_in(words: &[Word]) -> Settings
    ensures { result ≡ settings_in words.now }
{
    let mut settings = no_settings();
    for word in words {
        take_word(&mut settings, word);
    }
    settings
}

/// What is asked for with these settings, if not both a journal and JSON are.
fn question_with(settings: &Settings) -> Option<Question>
    ensures { result ≡ question_at AnOption settings.now }
{
    if settings.json && settings.journal.is_some() {
        return None;
    }
    Some(Question {
        states: settings.states.unwrap_or(DEFAULT_STATES),
        lim: settings.lim,
        journal: settings.journal,
        json: settings.json,
    })
}

/// What the words ask for, or `None` if they ask for nothing that the program does.
pub(crate) fn question_in(words: &[Word]) -> Option<Question>
    ensures { result ≡ question_of words.now }
{
    let settings = settings_in(words);
    match settings.next {
        WordKind::Option => question_with(&settings),
        WordKind::Number(_) => None,
        WordKind::Nowhere => None,
    }
}
