//! The top call: the whole program, apart from where its bytes come from and go to.
ghost use Rattle.twe_explore.specs.Answers.{AnswersExplore};
ghost use Rattle.twe_io.specs.Ends.{ends, ends_tell, sink, source};

use crate::laws::what_twe_run_answers_is_listed;
use crate::words::Question;
use std::alloc::Global;
use twe_base::Word;
use twe_io::{Sink, Source, Status};
use twe_report::run_text_program;

/// Reads the text of a program from the source, and writes what its runs can give, or the journal of one of these runs.
///
/// `AnswersExplore` says what each status means and what is written with it. If the words ask for nothing that the program does, the
/// answer is the usage line, and nothing is read from the source. After `Memory` nothing was written.
pub fn explore_top<S: Source, O: Sink, E: Sink>(
    alloc: Global,
    words: &[Word],
    src: &mut S,
    out: &mut O,
    err: &mut E,
) -> Status
    ensures { AnswersExplore (ends_tell (source S.left S.faults S.read_gives) (sink O.written O.faults O.write_gives)
        (sink E.written E.faults E.write_gives))
        words.now (ends src.old out.old err.old) (ends src.new out.new err.new) result }
{
    what_twe_run_answers_is_listed();
    run_text_program::<Question, S, O, E>(alloc, words, src, out, err)
}
