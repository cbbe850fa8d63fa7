//! Laws of the entries that a floor's workers draw.
ghost use Rattle.std.specs.Prelude.{◌≡◌, ℕ};
ghost use Rattle.twe_base.specs.Limits.{Bounds};
ghost use Rattle.seg_meaning.specs.declared.frame.Frame.{Frame};
ghost use Rattle.seg_meaning.specs.declared.stop.Stop.{Stop};
ghost use Rattle.machine_state.specs.declared.state.TaskRow.{TaskRow};
ghost use Rattle.machine_state.specs.declared.state.TaskStatus.TheVariants.{Enabled};
ghost use Rattle.floor_laws.specs.rule.Steps.{end_after, row_after};
ghost use Rattle.task_floor.specs.steps.Committing.{status_after};

/// How an entry ends says whether its task goes on or has ended, and how. So whoever has drawn it knows whether to go on with
/// the task, to park it or to finish it.
pub fn an_end_says_the_status()
    ensures { (lim : Bounds) (asked : ℕ) (row : TaskRow) (frame : Frame) (stop : Stop) → row.status ≡ Enabled
        → (row_after lim asked row frame stop).status ≡ status_after (end_after lim asked stop) }
{}
