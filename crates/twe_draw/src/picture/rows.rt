//! The rows of the tasks that are shown.
ghost use Rattle.std.specs.Prelude.{◌≡◌, ◌<◌, ◌-◌, ◌^◌, ◌++◌, ◌∷◌, [], IfOk, OnOk};
ghost use Rattle.twe_draw.specs.picture.Rows.{next_row, row_if, rows_from};

use std::alloc::Global;
use twe_base::{List, Memory};

/// Adds the row of one task more, and returns the next one.
fn push_row(rows: &mut List<Option<u64>>, next: u64, flag: bool) -> Result<u64, Memory>
    requires { next < 2 ^ 64 - 1 }
    ensures rows { OnOk result (rows.new ≡ rows.old ++ row_if flag next ∷ []) }
    ensures next { IfOk result (λ after. after ≡ next_row flag next) }
{
    if flag {
        rows.push(Some(next))?;
        Ok(next + 1)
    } else {
        rows.push(None)?;
        Ok(next)
    }
}

/// The rows of the tasks: each that is shown has the next one.
pub fn rows_of(alloc: Global, shown: &[bool]) -> Result<List<Option<u64>>, Memory>
    ensures { IfOk result (λ rows. rows ≡ rows_from 0 shown.now) }
{
    let mut rows = List::new(alloc);
    let mut next = 0;
    for flag in shown {
        next = push_row(&mut rows, next, *flag)?;
    }
    Ok(rows)
}
