//! The input of a command.
ghost use Rattle.std.specs.Prelude.{◌≡◌, IfOk, true};
ghost use Rattle.command_line.specs.Words.{IsSized};
ghost use Rattle.text_answers.specs.Input.{has_input};
ghost use Rattle.text_answers.specs.inner.Given.{IsInputOf};
ghost use Rattle.twe_io.specs.Ends.{source};

use crate::input::has_input;
use command_line::Command;
use load_text::accepted::load_texts_are_accepted;
use std::alloc::Global;
use twe_base::{Bytes, Memory};
use twe_io::Source;
use twe_report::{Input, read_input};

/// Reads the input of a command from the source. `load` has none: nothing is read for it, and its input counts as empty.
pub(crate) fn input_of<S: Source>(
    alloc: Global,
    cmd: &Command,
    src: &mut S,
) -> Result<Input, Memory>
    requires { IsSized cmd.now }
    ensures { IfOk result (IsInputOf (source S.left S.faults S.read_gives) cmd.now src.old src.new) }
{
    load_texts_are_accepted();
    if has_input(cmd) {
        return read_input_of(alloc, cmd, src);
    }
    Ok(Input::Given(Bytes::new(alloc)))
}

/// Reads the input of a command that has one.
fn read_input_of<S: Source>(alloc: Global, cmd: &Command, src: &mut S) -> Result<Input, Memory>
    requires { has_input cmd.now ≡ true }
    ensures { IfOk result (IsInputOf (source S.left S.faults S.read_gives) cmd.now src.old src.new) }
{
    let _ = cmd;
    read_input(alloc, src)
}
