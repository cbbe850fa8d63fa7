//! What an entry did, apart from its accesses to cells.
ghost use Rattle.std.specs.Prelude.{◌≡◌};
ghost use Rattle.span_profile.specs.inner.Deeds.{admission_deed};

use seg_journal::End;

/// What an entry did, apart from its accesses to cells.
#[derive(Clone, Copy, Debug)]
pub(crate) struct Deed {
    /// Its task.
    pub task: u32,
    /// Its weight.
    pub weight: u64,
    /// The task whose value it took first, if it took one.
    pub taken: Option<u32>,
    /// How it ended.
    pub end: End,
    /// Whether it printed.
    pub printed: bool,
}

/// The admission of a task.
pub(crate) fn admission(task: u32) -> Deed
    ensures { result ≡ admission_deed task }
{
    Deed {
        task,
        weight: 1,
        taken: None,
        end: End::Admitted,
        printed: false,
    }
}
