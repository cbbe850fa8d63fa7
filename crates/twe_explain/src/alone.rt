//! The texts that are asked for by one word, and for which nothing is read.
ghost use Rattle.std.specs.Prelude.{◌≡◌, ◌++◌, IfOk, OnOk};
ghost use Rattle.twe_explain.specs.Alone.{all_option, alone_text, call_text, explain_usage_text, help_text, lines_option, name_option, purpose_text, replay_text, run_options, text_alone, text_of_word, version_text};

use std::alloc::Global;
use twe_base::{Bytes, Memory, Word};

/// Appends how the program is called.
fn push_call(text: &mut Bytes) -> Result<(), Memory>
    ensures { OnOk result (text.new ≡ text.old ++ call_text) }
{
    text.push_all(b"usage: twe_explain [--name FILE] [--lines] [--all] < TEXT\n")?;
    text.push_all(
        b"       twe_explain --run [--fuel N] [--tasks N] [--name FILE] [--lines] [--all] < TEXT\n",
    )?;
    text.push_all(b"       twe_explain --help | --version\n\n")
}

/// Appends what it does.
fn push_purpose(text: &mut Bytes) -> Result<(), Memory>
    ensures { OnOk result (text.new ≡ text.old ++ purpose_text) }
{
    text.push_all(
        b"Says why a TWEJava program is refused: the answer of twe check, the lines of the\n",
    )?;
    text.push_all(b"text with a caret under the place, and what the rule asks.\n\n")
}

/// Appends what `--name` asks for.
fn push_name_option(text: &mut Bytes) -> Result<(), Memory>
    ensures { OnOk result (text.new ≡ text.old ++ name_option) }
{
    text.push_all(b"  --name FILE  the name of the text; it is shown before places\n")
}

/// Appends what `--lines` asks for.
fn push_lines_option(text: &mut Bytes) -> Result<(), Memory>
    ensures { OnOk result (text.new ≡ text.old ++ lines_option) }
{
    text.push_all(b"  --lines      each note in one line, FILE:LINE:COLUMN: TEXT, for editors\n")
}

/// Appends what `--all` asks for.
fn push_all_option(text: &mut Bytes) -> Result<(), Memory>
    ensures { OnOk result (text.new ≡ text.old ++ all_option) }
{
    text.push_all(b"  --all        each rule on effects that fails, at each place where it does\n")
}

/// Appends what the words for a run ask for.
fn push_run_options(text: &mut Bytes) -> Result<(), Memory>
    ensures { OnOk result (text.new ≡ text.old ++ run_options) }
{
    text.push_all(b"  --run        runs the text, and says why the run goes no further\n")?;
    text.push_all(
        b"  --fuel N     with --run: how much fuel each task has, from 0 to 100000000\n",
    )?;
    text.push_all(b"  --tasks N    with --run: how many tasks may be made, from 1 to 100000\n")
}

/// Appends the words that stand alone, and what the status is.
fn push_alone(text: &mut Bytes) -> Result<(), Memory>
    ensures { OnOk result (text.new ≡ text.old ++ alone_text) }
{
    text.push_all(b"  --help       this text\n  --version    the version\n\n")?;
    text.push_all(
        b"The status is that of twe check: 0 if the text is accepted, 1 if it is refused.\n",
    )
}

/// Appends what the status is if there is a journal, and if the text is run.
fn push_replay(text: &mut Bytes) -> Result<(), Memory>
    ensures { OnOk result (text.new ≡ text.old ++ replay_text) }
{
    text.push_all(b"If a line %% and a journal come after the text, it is that of twe replay.\n")?;
    text.push_all(b"With --run it is that of twe run without workers.\n")
}

/// What the program does, and its words.
#[tactic(auto, unfolding(crate::specs::Alone::help_text))]
fn help_text(alloc: Global) -> Result<Bytes, Memory>
    ensures { IfOk result (λ text. text ≡ help_text) }
{
    let mut text = Bytes::new(alloc);
    push_call(&mut text)?;
    push_purpose(&mut text)?;
    push_name_option(&mut text)?;
    push_lines_option(&mut text)?;
    push_all_option(&mut text)?;
    push_run_options(&mut text)?;
    push_alone(&mut text)?;
    push_replay(&mut text)?;
    Ok(text)
}

/// The version of the program.
fn version_text() -> &'static [u8]
    ensures { result.now ≡ version_text }
{
    b"twe_explain 0.1\n"
}

/// The text that this word asks for, if it asks for one.
fn text_of_word(alloc: Global, word: &Word) -> Result<Option<Bytes>, Memory>
    ensures { IfOk result (λ text. text ≡ text_of_word word.now) }
{
    if word.as_bytes() == b"--help".as_slice() {
        return Ok(Some(help_text(alloc)?));
    }
    if word.as_bytes() == b"--version".as_slice() {
        return Ok(Some(Bytes::from_slice(alloc, version_text())?));
    }
    Ok(None)
}

/// The text that the words ask for, if they are one word and it asks for one.
pub(crate) fn text_alone(alloc: Global, words: &[Word]) -> Result<Option<Bytes>, Memory>
    ensures { IfOk result (λ text. text ≡ text_alone words.now) }
{
    match words {
        [] => Ok(None),
        [word] => text_of_word(alloc, word),
        _ => Ok(None),
    }
}

/// The usage line.
pub(crate) fn usage_text(alloc: Global) -> Result<Bytes, Memory>
    ensures { IfOk result (λ text. text ≡ explain_usage_text) }
{
    Bytes::from_slice(
        alloc,
        b"usage: twe_explain [--name FILE] [--lines] [--all] [--run [--fuel N] [--tasks N]] | --help | --version\n",
    )
}
