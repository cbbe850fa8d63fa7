//! The line of a run that is unfinished.
ghost use Rattle.std.specs.Prelude.{◌≡◌, IfOk, count_by};
ghost use Rattle.twe_report.specs.Texts.{is_undone};
ghost use Rattle.twe_report.specs.Texts as texts;

use itoa::Buffer;
use machine_state::{State, TaskRow, TaskStatus};
use std::alloc::Global;
use twe_base::{Bytes, Memory};

/// The line of a run that is unfinished in this state, as `unfinished: 1 of 2 tasks not done`.
pub fn unfinished_text(alloc: Global, st: &State) -> Result<Bytes, Memory>
    ensures { IfOk result (λ text. text ≡ texts.unfinished_text st.now) }
{
    let mut text = Bytes::from_slice(alloc, b"unfinished: ")?;
    text.push_all(Buffer::new().format(undone(st.tasks.as_slice())).as_bytes())?;
    text.push_all(b" of ")?;
    text.push_all(Buffer::new().format(st.tasks.len()).as_bytes())?;
    text.push_all(b" tasks not done\n")?;
    Ok(text)
}

/// The number of tasks that are not done.
#[tactic(auto, using(std::proofs::lemmas::List::Sums::count_by_more_yes, std::proofs::lemmas::List::Sums::count_by_more_no))]
pub fn undone(rows: &[TaskRow]) -> usize
    ensures { result ≡ count_by is_undone rows.now }
{
    let mut count = 0;
    for row in rows {
        if is_undone(row) {
            count += 1;
        }
    }
    count
}

/// Whether the task of this row is not done.
fn is_undone(row: &TaskRow) -> bool
    ensures { result ≡ is_undone row.now }
{
    !matches!(row.status, TaskStatus::Done)
}
