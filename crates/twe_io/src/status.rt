//! The statuses that the programs end with.
ghost use Rattle.std.specs.Prelude.{◌≡◌};
ghost use Rattle.twe_io.specs.Codes.{code_of, is_status_done};

/// What a call of a program comes to.
#[derive(Clone, Copy, Debug, PartialEq, Eq)]
pub enum Status {
    /// What the program was asked for is done. If that was a run, every task is done.
    Done,
    /// The text is refused.
    Refused,
    /// The words do not ask for anything that the program does.
    Usage,
    /// The program has run, and met a fault.
    Fault,
    /// The program has run, and its tasks hold one another up.
    Stuck,
    /// A read of the source failed.
    ReadFault,
    /// A write to a sink failed.
    WriteFault,
    /// There was not enough memory.
    Memory,
    /// The source has more bytes than a text may have.
    TooLong,
    /// A line of the journal is no move, or its move is not legal.
    BadJournal,
    /// The journal was replayed, and its run can go on.
    Unfinished,
    /// A method would have more than 8 effects.
    TooMany,
}

impl Status {
    /// Whether what the program was asked for is done.
    pub fn is_done(self) -> bool
        ensures { result ≡ is_status_done self }
    {
        matches!(self, Status::Done)
    }

    /// The number that the process ends with.
    pub fn code(self) -> u8
        ensures { result ≡ code_of self }
    {
        match self {
            Status::Done => 0,
            Status::Refused => 1,
            Status::Usage => 2,
            Status::Fault => 3,
            Status::Stuck => 4,
            Status::ReadFault => 5,
            Status::WriteFault => 6,
            Status::Memory => 7,
            Status::TooLong => 8,
            Status::BadJournal => 9,
            Status::Unfinished => 10,
            Status::TooMany => 11,
        }
    }
}
