//! The whole text.
ghost use Rattle.std.specs.Prelude.{◌≡◌, ◌≤◌, ◌++◌, length, IfOk, OnOk};
ghost use Rattle.twe_base.specs.Language.{max_text_bytes};
ghost use Rattle.load_text.specs.Text.{cell_lines, start_line, each_below, load_text_of};

use crate::lines::{push_cell_lines, push_start_line};
use std::alloc::Global;
use twe_base::{Bytes, Memory};

/// The text of the load generator for `n` cells, 1 to 2,000. It is no longer than a program text may be.
pub fn load_text(alloc: Global, n: u32) -> Result<Bytes, Memory>
    requires some { 1 ≤ n }
    requires most { n ≤ 2000 }
    ensures written { IfOk result (λ text. text ≡ load_text_of n) }
    ensures fits { IfOk result (λ text. length text ≤ max_text_bytes) }
{
    let mut text = Bytes::new(alloc);
    text.push_all(b"region R, S;\nint s in S;\n")?;
    push_cells(&mut text, n)?;
    text.push_all(b"task void main() pure {\n")?;
    push_starts(&mut text, n)?;
    text.push_all(b"}\n")?;
    Ok(text)
}

/// Appends the lines of `n` cells and of their tasks to a text.
fn push_cells(text: &mut Bytes, n: u32) -> Result<(), Memory>
    requires { n ≤ 2000 }
    ensures { OnOk result (text.new ≡ text.old ++ each_below cell_lines n) }
{
    for i in 0..n {
        push_cell_lines(text, i)?;
    }
    Ok(())
}

/// Appends the lines that start the tasks of `n` cells to a text.
fn push_starts(text: &mut Bytes, n: u32) -> Result<(), Memory>
    ensures { OnOk result (text.new ≡ text.old ++ each_below start_line n) }
{
    for i in 0..n {
        push_start_line(text, i)?;
    }
    Ok(())
}
