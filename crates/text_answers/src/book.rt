//! What a call of the program leaves for its caller.
ghost use Rattle.text_answers.specs.Theorem.{HasProgram, HasRefusal, IsNew};

use machine_state::Outcome;
use seg_journal::Journal;
use std::alloc::Global;
use twe_frontend::Refusal;
use twe_io::Answer;
use twe_program::Prog;

/// What a call of the program has made: the program that its text means and the journal and outcome of its run, or
/// the refusal of the text.
#[derive(Debug, Drop)]
pub struct Book {
    /// The program, where the text was accepted.
    pub prog: Option<Prog>,
    /// The journal of the run.
    pub journal: Journal,
    /// How the run ended.
    pub outcome: Option<Outcome>,
    /// Why the text was refused.
    pub refusal: Option<Refusal>,
}

impl Book {
    /// A book in which nothing stands. It takes no memory.
    pub fn new(alloc: Global) -> Book
        ensures { IsNew result }
    {
        Book {
            prog: None,
            journal: Journal::new(alloc),
            outcome: None,
            refusal: None,
        }
    }

    /// A book with a program and nothing else.
    pub(crate) fn of_program(alloc: Global, p: Prog) -> Book
        ensures { HasProgram p result }
    {
        Book {
            prog: Some(p),
            journal: Journal::new(alloc),
            outcome: None,
            refusal: None,
        }
    }

    /// A book with a refusal and nothing else.
    pub(crate) fn of_refusal(alloc: Global, refusal: Refusal) -> Book
        ensures { HasRefusal refusal result }
    {
        Book {
            prog: None,
            journal: Journal::new(alloc),
            outcome: None,
            refusal: Some(refusal),
        }
    }
}

/// An answer, and what has led to it.
#[derive(Debug, Drop)]
pub struct Reply {
    /// The answer.
    pub answer: Answer,
    /// What has led to it.
    pub book: Book,
}
