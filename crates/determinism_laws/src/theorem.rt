//! The theorem on deterministic tasks: what a run gives for one is what sequential code gives.
ghost use Rattle.std.specs.Prelude.{List};
ghost use Rattle.seg_journal.specs.declared.journal.Entry.{Entry};
ghost use Rattle.twe_base.specs.Limits.{Bounds};
ghost use Rattle.twe_program.specs.Program.{Program};
ghost use Rattle.determinism_laws.specs.AcceptedRuns.{IsAcceptedRun};
ghost use Rattle.determinism_laws.specs.theorem.Steps.{DoneTasksElideByTheirDeclarations, DoneTasksElideInEachNumbering, DoneTasksElideAsRun, ExecutionsArePlayed};

/// In every legal journal, the execution of a deterministic task that is done at the end was played, from each of its
/// segments on: by the steps that start from the frames of the journal, over its cells, with the values that its tasks have
/// at the end. The tasks that it made, in the order in which sequential code makes them, may be given any numbering.
pub fn executions_are_played()
    ensures { (p : Program) (lim : Bounds) (journal : List Entry) → IsAcceptedRun p lim journal
        → ExecutionsArePlayed p lim journal }
{}

/// Take a deterministic task of a legal journal that is done at the end, whose first segment starts from the first frame of a
/// declaration, and the entries from any place between the one that enabled it and its first segment, up to the one that
/// finished it. If the tasks that it made can be numbered within the limit in the order in which sequential code makes them,
/// the sequential execution of the declaration, on the cells as they were before these entries, meets no fault. It ends
/// with the task's value, and leaves in each cell under the task's effects the value that it has after the entries.
pub fn done_tasks_are_elided()
    ensures { (p : Program) (lim : Bounds) (journal : List Entry) → IsAcceptedRun p lim journal
        → DoneTasksElideInEachNumbering p lim journal }
{}

/// The tasks that it made can be numbered so. So the sequential execution of the declaration meets no fault, ends with the
/// task's value, leaves in each cell under the task's effects the value that it has after the entries, and prints what the
/// task and those below it printed.
pub fn done_tasks_elide_as_run()
    ensures { (p : Program) (lim : Bounds) (journal : List Entry) → IsAcceptedRun p lim journal
        → DoneTasksElideAsRun p lim journal }
{}

/// Each deterministic task of a legal journal that is done at the end has the value of the sequential execution of its
/// declaration with its arguments, on the cells as they were when it became enabled, or at any place from there to its first
/// segment. That execution meets no fault, leaves in each cell under the task's effects the value that the cell has when the
/// task is done, and prints the numbers that the task and those below it have printed, in the order of the journal.
pub fn deterministic_tasks_elide_as_run()
    ensures { (p : Program) (lim : Bounds) (journal : List Entry) → IsAcceptedRun p lim journal
        → DoneTasksElideByTheirDeclarations p lim journal }
{}
