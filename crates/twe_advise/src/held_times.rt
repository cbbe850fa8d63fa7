//! How long the tasks of a declaration were held.
ghost use Rattle.std.specs.Prelude.{◌≡◌, ◌==◌};
ghost use Rattle.twe_advise.specs.HeldTimes.{held_time, hold_time};

use held_span::Hold;
use machine_state::TaskRow;

/// How long the task of a hold was held, if it is of the declaration with this number, and else 0.
fn hold_time(rows: &[TaskRow], number: usize, hold: Hold) -> u64
    ensures { result ≡ hold_time rows.now number hold }
{
    match rows.get(hold.task as usize) {
        None => 0,
        Some(row) => if row.decl as usize == number {
            hold.time
        } else {
            0
        },
    }
}

/// How long the tasks of the declaration with this number were held in all.
pub(crate) fn held_time(rows: &[TaskRow], holds: &[Hold], number: usize) -> u128
    ensures { result ≡ held_time rows.now holds.now number }
{
    let mut time: u128 = 0;
    for hold in holds {
        time += u128::from(hold_time(rows, number, *hold));
    }
    time
}
