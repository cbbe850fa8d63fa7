//! What a worker remembers of its own moves in a round, so that a look at a task stays short.

use seg_journal::End;

/// For how many of the tasks that a worker makes its deck surely has a push left.
const SURE_PUSHES: u32 = 1024;

/// How a worker looks at a task.
#[derive(Clone, Copy, Debug)]
pub(crate) struct Glance {
    /// Whether the worker would draft the task while it is held back.
    pub ahead: bool,
    /// Whether the worker has just run a segment of the task that ended with a wait.
    pub begins_wait: bool,
    /// The first task that may lie on no deck, if the worker has made so many.
    pub unpushed: Option<u32>,
}

/// What a worker remembers of its own moves.
#[derive(Clone, Copy, Debug)]
pub(crate) struct MoveTrail {
    /// The task whose last segment ended with a wait, until it is looked at.
    waits: Option<u32>,
    /// The last task that it brought to its end.
    done: Option<u32>,
    /// How many tasks it has made.
    made: u32,
    /// The first task that it made after as many as have a push.
    unpushed: Option<u32>,
}

impl MoveTrail {
    /// No moves.
    pub(crate) fn new() -> Self {
        MoveTrail {
            waits: None,
            done: None,
            made: 0,
            unpushed: None,
        }
    }

    /// How it looks at a task now, which it would or would not draft while the task is held back.
    pub(crate) fn glance(&mut self, task: u32, ahead: bool) -> Glance {
        let begins_wait = self.waits.take() == Some(task);
        Glance {
            ahead,
            begins_wait,
            unpushed: self.unpushed,
        }
    }

    /// Whether it brought the task to its end last.
    pub(crate) fn has_ended(&self, task: u32) -> bool {
        self.done == Some(task)
    }

    /// Notes the end of a segment of a task, if it ran one.
    pub(crate) fn note(&mut self, task: u32, end: Option<End>) {
        match end {
            Some(End::Waits { .. }) => self.waits = Some(task),
            Some(End::Joins { .. }) => self.waits = Some(task),
            Some(End::Made { child }) => self.note_child(child),
            Some(End::Done { .. }) => self.done = Some(task),
            _ => {}
        }
    }

    /// Notes that it made a task.
    fn note_child(&mut self, child: u32) {
        self.made = self.made.saturating_add(1);
        if self.made > SURE_PUSHES && self.unpushed.is_none() {
            self.unpushed = Some(child);
        }
    }
}
