//! The links of one task.
ghost use Rattle.std.specs.Prelude.{◌≡◌};
ghost use Rattle.wait_graph.specs.Link.{new_link};

/// The links of a task to others.
#[derive(Clone, Copy, Debug, PartialEq, Eq)]
pub struct Link {
    /// The task that the next operation awaits, if it is a wait, whether that task is done or not.
    pub waits: Option<u32>,
    /// The task that spawned this one, if one did.
    pub parent: Option<u32>,
    /// Whether the parent has joined this task.
    pub joined: bool,
    /// Whether this task is done.
    pub done: bool,
}

impl Link {
    /// The links of a new task: it waits for nobody, and is neither joined nor done.
    pub(crate) fn new(parent: Option<u32>) -> Self
        ensures { result ≡ new_link parent }
    {
        Link {
            waits: None,
            parent,
            joined: false,
            done: false,
        }
    }
}
