//! The phase of a task, by its row or by its frame.
ghost use Rattle.std.specs.Prelude.{◌≡◌};
ghost use Rattle.machine_state.specs.declared.state.TaskStatus.TheVariants.{Enabled};
ghost use Rattle.machine_state.specs.Rows.{row_awaited};
ghost use Rattle.floor_laws.specs.rule.Rows.{phase_at, phase_of};

use floor_laws::rule::Phase;
use machine_state::{TaskRow, TaskStatus};
use seg_meaning::Next;
use twe_machine::awaited;

/// What the phase word of a task with this row says while nobody has its turn.
pub(crate) fn phase_of(row: &TaskRow) -> Phase
    ensures { result ≡ phase_of row.now }
{
    match row.status {
        TaskStatus::Made => Phase::Made,
        TaskStatus::Enabled => enabled_phase(row.frame.next),
        TaskStatus::Done => Phase::Done,
        TaskStatus::Faulted => Phase::Faulted,
    }
}

/// The phase of an enabled task that does this next.
pub(crate) fn enabled_phase(next: Next) -> Phase
    ensures { result ≡ phase_at Enabled (row_awaited next) }
{
    match awaited(next) {
        None => Phase::Running,
        Some(on) => Phase::Waits { on },
    }
}
