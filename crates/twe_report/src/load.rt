//! The result of a run of the load generator's program.
ghost use Rattle.std.specs.Prelude.{◌≡◌, IfOk};
ghost use Rattle.twe_report.specs.Texts as texts;

use crate::result::push_value;
use itoa::Buffer;
use machine_state::State;
use std::alloc::Global;
use twe_base::{Bytes, Memory};

/// The result of a run of the load generator's program for `n` cells: `n`, the number of tasks that were made, and the value of
/// the cell `s`, which is the first that the program declares.
pub fn load_result_text(alloc: Global, n: u32, st: &State) -> Result<Bytes, Memory>
    ensures { IfOk result (λ text. text ≡ texts.load_result_text n st.now) }
{
    let mut text = Bytes::from_slice(alloc, b"load ")?;
    text.push_all(Buffer::new().format(n).as_bytes())?;
    text.push(b'\n')?;
    text.push_all(b"tasks ")?;
    text.push_all(Buffer::new().format(st.tasks.len()).as_bytes())?;
    text.push(b'\n')?;
    text.push_all(b"s = ")?;
    push_value(&mut text, st.cells.as_slice(), 0)?;
    text.push(b'\n')?;
    Ok(text)
}
