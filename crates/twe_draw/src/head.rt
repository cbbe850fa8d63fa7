//! What stands above the rows of a picture.
ghost use Rattle.std.specs.Prelude.{◌≡◌, ◌++◌, ◌<◌, IfOk, OnOk};
ghost use Rattle.twe_draw.specs.Head.{arrow_words, axis, axis_words, chain_colour, colour, deterministic_colour, entry_colours, head_key, head_top, held_colour, hundredths, rows_left_out, rows_left_out_words, legend, opening, opening_words, parallelism_after, parallelism_words, picture_head, run_words, titles, total_words};

use crate::numbers::{push_number, push_wide};
use crate::picture::{push_plain_box, push_title_element, push_words_at};
use crate::scale::picture_height;
use crate::style::push_setting;
use crate::words::AxisKind;
use itoa::Buffer;
use span_profile::parallelism_of;
use std::alloc::Global;
use twe_base::{Bytes, Memory};

/// Appends hundredths, as `1.33`.
fn push_hundredths(text: &mut Bytes, number: u128) -> Result<(), Memory>
    ensures { OnOk result (text.new ≡ text.old ++ hundredths number) }
{
    text.push_all(Buffer::new().format(number / 100).as_bytes())?;
    push_wide(text, b".", number / 10 % 10)?;
    text.push_all(Buffer::new().format(number % 10).as_bytes())
}

/// Appends the parallelism of a run, after these words.
fn push_parallelism(text: &mut Bytes, words: &[u8], work: u64, span: u64) -> Result<(), Memory>
    ensures { OnOk result (text.new ≡ text.old ++ parallelism_after words.now work span) }
{
    text.push_all(words)?;
    push_hundredths(text, parallelism_of(work, span))
}

/// Appends the work, the span and the held span.
fn push_total_words(text: &mut Bytes, work: u64, span: u64, held: u64) -> Result<(), Memory>
    ensures { OnOk result (text.new ≡ text.old ++ total_words work span held) }
{
    push_number(text, b"work ", work)?;
    push_number(text, b", span ", span)?;
    push_number(text, b", held span ", held)
}

/// Appends the parallelism in words.
fn push_parallelism_words(text: &mut Bytes, work: u64, span: u64) -> Result<(), Memory>
    ensures { OnOk result (text.new ≡ text.old ++ parallelism_words work span) }
{
    push_parallelism(text, b", parallelism ", work, span)
}

/// The work, the span, the held span and the parallelism.
fn run_words(alloc: Global, work: u64, span: u64, held: u64) -> Result<Bytes, Memory>
    ensures { IfOk result (λ words. words ≡ run_words work span held) }
{
    let mut words = Bytes::new(alloc);
    push_total_words(&mut words, work, span, held)?;
    push_parallelism_words(&mut words, work, span)?;
    Ok(words)
}

/// Appends the beginning of the tag of the whole picture.
#[tactic(auto, unfolding(crate::specs::Head::opening_words))]
fn push_opening_words(text: &mut Bytes) -> Result<(), Memory>
    ensures { OnOk result (text.new ≡ text.old ++ opening_words) }
{
    text.push_all(b"<svg xmlns='http://www.w3.org/2000/svg' width='1260'")
}

/// Appends the tag of the whole picture.
fn push_opening(text: &mut Bytes, rows: usize) -> Result<(), Memory>
    ensures { OnOk result (text.new ≡ text.old ++ opening rows) }
{
    push_opening_words(text)?;
    push_wide(text, b" height='", picture_height(rows))?;
    text.push_all(b"'>\n")
}

/// Appends the title, and the same words in the picture.
fn push_titles(text: &mut Bytes, words: &[u8]) -> Result<(), Memory>
    ensures { OnOk result (text.new ≡ text.old ++ titles words.now) }
{
    push_title_element(text, words)?;
    text.push_all(b"\n")?;
    push_words_at(text, 6, 22, words)
}

/// What the axis means.
fn axis_words(alloc: Global, kind: AxisKind) -> Result<Bytes, Memory>
    ensures { IfOk result (λ words. words ≡ axis_words kind) }
{
    let mut words = Bytes::new(alloc);
    match kind {
        AxisKind::Time => {
            words.push_all(
                b"Time is virtual: an entry takes as long as it weighs, and begins when all that leads to it has ended,",
            )?;
            words.push_all(
                b" for an admission also what freed it. The axis ends at the held span.",
            )?;
            Ok(words)
        }
        AxisKind::Order => {
            words.push_all(b"Each entry of the journal has a column, in their order.")?;
            Ok(words)
        }
    }
}

/// Appends the words below the title.
fn push_axis(text: &mut Bytes, alloc: Global, kind: AxisKind) -> Result<(), Memory>
    ensures { OnOk result (text.new ≡ text.old ++ axis kind) }
{
    let words = axis_words(alloc, kind)?;
    push_words_at(text, 6, 40, words.as_slice())
}

/// Appends a colour and what it means.
fn push_colour(text: &mut Bytes, class: &[u8], left: u16, words: &[u8]) -> Result<(), Memory>
    ensures { OnOk result (text.new ≡ text.old ++ colour class.now left words.now) }
{
    push_plain_box(text, class, u128::from(left), 52, 14)?;
    push_words_at(text, u128::from(left) + 20, 64, words)
}

/// Appends the colours of entries.
fn push_entry_colours(text: &mut Bytes) -> Result<(), Memory>
    ensures { OnOk result (text.new ≡ text.old ++ entry_colours) }
{
    push_colour(text, b"admission", 6, b"admission")?;
    push_colour(text, b"segment", 126, b"segment")?;
    push_colour(text, b"waits", 486, b"waits")
}

/// Appends the colour of admissions that were held.
fn push_held_colour(text: &mut Bytes) -> Result<(), Memory>
    ensures { OnOk result (text.new ≡ text.old ++ held_colour) }
{
    push_colour(text, b"held", 556, b"held")
}

/// Appends the colour of deterministic tasks.
fn push_deterministic_colour(text: &mut Bytes) -> Result<(), Memory>
    ensures { OnOk result (text.new ≡ text.old ++ deterministic_colour) }
{
    push_colour(
        text,
        b"deterministic",
        226,
        b"segment of a deterministic task",
    )
}

/// Appends the colour of the heaviest chain.
fn push_chain_colour(text: &mut Bytes) -> Result<(), Memory>
    ensures { OnOk result (text.new ≡ text.old ++ chain_colour) }
{
    push_colour(text, b"chain", 626, b"heaviest chain")
}

/// Appends what the arrows mean.
fn push_arrow_words(text: &mut Bytes) -> Result<(), Memory>
    ensures { OnOk result (text.new ≡ text.old ++ arrow_words) }
{
    push_words_at(text, 766, 64, b"arrow: makes a task; dashed: gives a value")
}

/// Appends what the colours and the arrows mean.
#[tactic(auto, unfolding(crate::specs::Head::legend))]
fn push_legend(text: &mut Bytes) -> Result<(), Memory>
    ensures { OnOk result (text.new ≡ text.old ++ legend) }
{
    push_entry_colours(text)?;
    push_deterministic_colour(text)?;
    push_held_colour(text)?;
    push_chain_colour(text)?;
    push_arrow_words(text)
}

/// How many tasks have no row.
fn rows_left_out_words(alloc: Global, number: u64) -> Result<Bytes, Memory>
    ensures { IfOk result (λ words. words ≡ rows_left_out_words number) }
{
    let mut words = Bytes::new(alloc);
    push_number(&mut words, b"tasks that are left out: ", number)?;
    Ok(words)
}

/// Appends how many tasks have no row, if some have none.
fn push_rows_left_out(
    text: &mut Bytes,
    alloc: Global,
    tasks: usize,
    rows: usize,
) -> Result<(), Memory>
    ensures { OnOk result (text.new ≡ text.old ++ rows_left_out tasks rows) }
{
    if rows < tasks {
        let words = rows_left_out_words(alloc, (tasks - rows) as u64)?;
        push_words_at(text, 246, 84, words.as_slice())
    } else {
        Ok(())
    }
}

/// Appends the tag of the whole picture and its title.
fn push_head_top(text: &mut Bytes, rows: usize, words: &[u8]) -> Result<(), Memory>
    ensures { OnOk result (text.new ≡ text.old ++ head_top rows words.now) }
{
    push_opening(text, rows)?;
    push_titles(text, words)
}

/// Appends what the axis, the colours and the arrows mean, and how many tasks have no row.
fn push_head_key(
    text: &mut Bytes,
    alloc: Global,
    kind: AxisKind,
    tasks: usize,
    rows: usize,
) -> Result<(), Memory>
    ensures { OnOk result (text.new ≡ text.old ++ head_key kind tasks rows) }
{
    push_axis(text, alloc, kind)?;
    push_legend(text)?;
    push_rows_left_out(text, alloc, tasks, rows)
}

/// Appends what stands above the rows.
#[tactic(auto, unfolding(crate::specs::Head::picture_head))]
pub(crate) fn push_head(
    text: &mut Bytes,
    alloc: Global,
    kind: AxisKind,
    tasks: usize,
    rows: usize,
    work: u64,
    span: u64,
    held: u64,
) -> Result<(), Memory>
    ensures { OnOk result (text.new ≡ text.old ++ picture_head kind tasks rows work span held) }
{
    let words = run_words(alloc, work, span, held)?;
    push_head_top(text, rows, words.as_slice())?;
    push_setting(text)?;
    push_head_key(text, alloc, kind, tasks, rows)
}
