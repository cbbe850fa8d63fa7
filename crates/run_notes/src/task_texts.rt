//! How tasks are named for people.
ghost use Rattle.std.specs.Prelude.{◌≡◌, ◌++◌, OnOk, option_copied};
ghost use Rattle.run_notes.specs.TaskTexts.{call_shown, shown_if_found, task_shown};

use itoa::Buffer;
use machine_state::{State, TaskRow};
use run_texts::{push_listed_args, task_name};
use twe_base::{Bytes, Memory};
use twe_program::Prog;

/// Appends a task's name and its arguments, between accents.
fn push_call_shown(text: &mut Bytes, name: &[u8], args: &[i32]) -> Result<(), Memory>
    ensures { OnOk result (text.new ≡ text.old ++ call_shown name.now args.now) }
{
    text.push_all(b" `")?;
    text.push_all(name)?;
    text.push_all(b"(")?;
    push_listed_args(text, args)?;
    text.push_all(b")`")
}

/// Appends the name and the arguments of a task that was looked up.
fn push_if_found(text: &mut Bytes, p: &Prog, row: Option<&TaskRow>) -> Result<(), Memory>
    ensures { OnOk result (text.new ≡ text.old ++ shown_if_found p.now (option_copied row.entry)) }
{
    match row {
        None => Ok(()),
        Some(row) => push_call_shown(text, task_name(p, row.decl), row.args.as_slice()),
    }
}

/// Appends the task of this number, with its name and its arguments.
pub(crate) fn push_task(text: &mut Bytes, p: &Prog, st: &State, task: u32) -> Result<(), Memory>
    ensures { OnOk result (text.new ≡ text.old ++ task_shown p.now st.now task) }
{
    text.push_all(b"task ")?;
    text.push_all(Buffer::new().format(task).as_bytes())?;
    push_if_found(text, p, st.tasks.get(task as usize))
}
