//! The lines that are written.
ghost use Rattle.std.specs.Prelude.{◌≡◌, ◌++◌, decimal, IfOk, OnOk};
ghost use Rattle.twe_explore.specs.Texts.{count_text, extent_text, explore_usage_text, extent_line, result_part, result_parts};
ghost use Rattle.twe_explore.specs.Texts as texts;

use itoa::Buffer;
use std::alloc::Global;
use twe_base::{Bytes, Memory};
use twe_io::Answer;

/// The usage line.
pub(crate) fn usage_text(alloc: Global) -> Result<Bytes, Memory>
    ensures { IfOk result (λ text. text ≡ explore_usage_text) }
{
    Bytes::from_slice(
        alloc,
        b"usage: twe_explore [--states N] [--fuel N] [--tasks N] [--journal K | --json]\n",
    )
}

/// The line that says that there is no such result.
pub(crate) fn no_result_text(alloc: Global, number: u64) -> Result<Bytes, Memory>
    ensures { IfOk result (λ text. text ≡ texts.no_result_text number) }
{
    let mut text = Bytes::from_slice(alloc, b"no result: ")?;
    push_number(&mut text, number)?;
    text.push(b'\n')?;
    Ok(text)
}

/// Appends a number.
fn push_number(text: &mut Bytes, number: u64) -> Result<(), Memory>
    ensures { OnOk result (text.new ≡ text.old ++ decimal number) }
{
    text.push_all(Buffer::new().format(number).as_bytes())
}

/// Appends how many results there are.
fn push_count(text: &mut Bytes, results: u64) -> Result<(), Memory>
    ensures { OnOk result (text.new ≡ text.old ++ count_text results) }
{
    if results == 1 {
        return text.push_all(b"1 result");
    }
    push_number(text, results)?;
    text.push_all(b" results")
}

/// Appends whether all runs were looked at, and if so, whether each gives the same.
fn push_extent(text: &mut Bytes, whole: bool, results: u64) -> Result<(), Memory>
    ensures { OnOk result (text.new ≡ text.old ++ extent_text whole results) }
{
    if !whole {
        return text.push_all(b", not all");
    }
    if results == 1 {
        return text.push_all(b", all: every run gives this");
    }
    text.push_all(b", all")
}

/// Appends the first line.
fn push_head(text: &mut Bytes, results: u64, states: u64, whole: bool) -> Result<(), Memory>
    ensures { OnOk result (text.new ≡ text.old ++ extent_line results states whole) }
{
    push_count(text, results)?;
    text.push_all(b" on ")?;
    push_number(text, states)?;
    text.push_all(b" states")?;
    push_extent(text, whole, results)?;
    text.push(b'\n')
}

/// Appends a result: its line, and what `twe run` would write for it.
fn push_result(text: &mut Bytes, number: u64, answer: &Answer) -> Result<(), Memory>
    ensures { OnOk result (text.new ≡ text.old ++ result_part number answer.now) }
{
    text.push_all(b"result ")?;
    push_number(text, number)?;
    text.push_all(b": status ")?;
    push_number(text, u64::from(answer.status.code()))?;
    text.push(b'\n')?;
    text.push_all(answer.out.as_slice())?;
    text.push_all(answer.err.as_slice())
}

/// Appends the results.
fn push_results(text: &mut Bytes, answers: &[Answer]) -> Result<(), Memory>
    ensures { OnOk result (text.new ≡ text.old ++ result_parts 1 answers.now) }
{
    let mut number: u64 = 1;
    for answer in answers {
        push_result(text, number, answer)?;
        number = number.saturating_add(1);
    }
    Ok(())
}

/// All lines.
pub(crate) fn results_text(
    alloc: Global,
    states: usize,
    whole: bool,
    answers: &[Answer],
) -> Result<Bytes, Memory>
    ensures { IfOk result (λ text. text ≡ texts.results_text states whole answers.now) }
{
    let mut text = Bytes::new(alloc);
    push_head(&mut text, answers.len() as u64, states as u64, whole)?;
    push_results(&mut text, answers)?;
    Ok(text)
}
