//! What is written of a task.
ghost use Rattle.std.specs.Prelude.{◌≡◌, ◌++◌, OnOk, slice_get};
ghost use Rattle.run_texts.specs.TaskLabels.{decl_name, decl_place_text, later_args, listed_args, numbered_call, place_words, task_call};

use itoa::Buffer;
use machine_state::TaskRow;
use twe_base::{Bytes, Memory, Place};
use twe_program::Prog;

/// Appends arguments, each after `, `.
fn push_later_args(text: &mut Bytes, args: &[i32]) -> Result<(), Memory>
    ensures { OnOk result (text.new ≡ text.old ++ later_args args.now) }
{
    for arg in args {
        text.push_all(b", ")?;
        text.push_all(Buffer::new().format(*arg).as_bytes())?;
    }
    Ok(())
}

/// Appends arguments with `, ` between them.
pub fn push_listed_args(text: &mut Bytes, args: &[i32]) -> Result<(), Memory>
    ensures { OnOk result (text.new ≡ text.old ++ listed_args args.now) }
{
    match args {
        [arg, others @ ..] => {
            text.push_all(Buffer::new().format(*arg).as_bytes())?;
            push_later_args(text, others)
        }
        [] => Ok(()),
    }
}

/// Appends the number of a task of this name, and its arguments.
fn push_numbered_call(text: &mut Bytes, task: u32, name: &[u8], args: &[i32]) -> Result<(), Memory>
    ensures { OnOk result (text.new ≡ text.old ++ numbered_call task name.now args.now) }
{
    text.push_all(Buffer::new().format(task).as_bytes())?;
    text.push_all(b" ")?;
    text.push_all(name)?;
    text.push_all(b"(")?;
    push_listed_args(text, args)?;
    text.push_all(b")")
}

/// The name of the task declaration of this number, or nothing if there is none.
pub fn task_name(p: &Prog, decl: u32) -> &[u8]
    ensures { result.now ≡ decl_name (slice_get p.now.tasks decl) }
{
    match p.tasks.get(decl as usize) {
        None => b"",
        Some(decl) => decl.name.as_bytes(),
    }
}

/// Appends the number of a task, its name and its arguments, as `3 walk(1, 2)`.
pub fn push_task_call(text: &mut Bytes, p: &Prog, row: &TaskRow) -> Result<(), Memory>
    ensures { OnOk result (text.new ≡ text.old ++ task_call p.now row.now) }
{
    push_numbered_call(
        text,
        row.frame.task,
        task_name(p, row.decl),
        row.args.as_slice(),
    )
}

/// Appends the place of a declaration.
fn push_place_words(text: &mut Bytes, place: Place) -> Result<(), Memory>
    ensures { OnOk result (text.new ≡ text.old ++ place_words place) }
{
    text.push_all(b" of ")?;
    text.push_all(Buffer::new().format(place.line).as_bytes())?;
    text.push_all(b":")?;
    text.push_all(Buffer::new().format(place.col).as_bytes())
}

/// Appends the place of the task declaration of this number, as ` of 4:6`, or nothing if there is none.
pub fn push_decl_place(text: &mut Bytes, p: &Prog, decl: u32) -> Result<(), Memory>
    ensures { OnOk result (text.new ≡ text.old ++ decl_place_text (slice_get p.now.tasks decl)) }
{
    match p.tasks.get(decl as usize) {
        None => Ok(()),
        Some(decl) => push_place_words(text, decl.place),
    }
}
