//! The lines of a cell, of its tasks, and of their start.
ghost use Rattle.std.specs.Prelude.{◌≡◌, ◌≤◌, ◌++◌, OnOk};
ghost use Rattle.load_text.specs.Text.{numbered, load_cell_line, change_part, child_line, parent_line, cell_lines, start_line};

use itoa::Buffer;
use twe_base::{Bytes, Memory};

/// Appends the lines of cell `i` and of its two tasks to a text.
pub(crate) fn push_cell_lines(text: &mut Bytes, i: u32) -> Result<(), Memory>
    requires { i ≤ 2000 }
    ensures { OnOk result (text.new ≡ text.old ++ cell_lines i) }
{
    push_cell_line(text, i)?;
    push_child_line(text, i)?;
    push_parent_line(text, i)
}

/// Appends the declaration of cell `i` to a text.
fn push_cell_line(text: &mut Bytes, i: u32) -> Result<(), Memory>
    requires { i ≤ 2000 }
    ensures { OnOk result (text.new ≡ text.old ++ load_cell_line i) }
{
    push_numbered(text, b"int c", i)?;
    push_numbered(text, b" in R:[", i)?;
    push_numbered(text, b"] = ", 7 * i % 1000)?;
    text.push_all(b";\n")
}

/// Appends the task that changes cell `i` to a text.
fn push_child_line(text: &mut Bytes, i: u32) -> Result<(), Memory>
    ensures { OnOk result (text.new ≡ text.old ++ child_line i) }
{
    push_numbered(text, b"deterministic task void u", i)?;
    push_numbered(text, b"() writes R:[", i)?;
    push_change(text, i)
}

/// Appends the end of that task, with the statement that changes the cell, to a text.
fn push_change(text: &mut Bytes, i: u32) -> Result<(), Memory>
    ensures { OnOk result (text.new ≡ text.old ++ change_part i) }
{
    push_numbered(text, b"] { c", i)?;
    push_numbered(text, b" = c", i)?;
    push_numbered(text, b" * 3 + ", i)?;
    text.push_all(b"; }\n")
}

/// Appends the task that adds cell `i` to the cell `s` to a text.
fn push_parent_line(text: &mut Bytes, i: u32) -> Result<(), Memory>
    ensures { OnOk result (text.new ≡ text.old ++ parent_line i) }
{
    push_numbered(text, b"task void t", i)?;
    push_numbered(text, b"() writes R:[", i)?;
    push_numbered(text, b"], S { future f = u", i)?;
    push_numbered(text, b".spawn(); f.join(); s = s + c", i)?;
    text.push_all(b"; }\n")
}

/// Appends the line of `main` that starts the second task of cell `i` to a text.
pub(crate) fn push_start_line(text: &mut Bytes, i: u32) -> Result<(), Memory>
    ensures { OnOk result (text.new ≡ text.old ++ start_line i) }
{
    push_numbered(text, b"future f", i)?;
    push_numbered(text, b" = t", i)?;
    text.push_all(b".executeLater();\n")
}

/// Appends a word and a number to a text.
fn push_numbered(text: &mut Bytes, word: &[u8], number: u32) -> Result<(), Memory>
    ensures { OnOk result (text.new ≡ text.old ++ numbered word.now number) }
{
    text.push_all(word)?;
    let mut buffer = Buffer::new();
    text.push_all(buffer.format(number).as_bytes())
}
