//! The top call: the whole program, apart from where its bytes come from and go to.
ghost use Rattle.twe_advise.specs.Answers.{IsAdvised};
ghost use Rattle.twe_io.specs.Ends.{ends, ends_tell, sink, source};

use crate::words::AdviceWords;
use std::alloc::Global;
use twe_base::Word;
use twe_io::{Sink, Source, Status};
use twe_report::run_text_program;

/// Reads the text of a program from the source, and after the first line that is exactly `%%` the text of a journal, and writes
/// what the run of that journal could gain, as tables or as JSON. Without such a line the answer is that there is no journal. A
/// journal may be unfinished or stuck, or end with a fault.
///
/// `Answers` says what each status means and what is written with it. If there are words other than those of the
/// usage line, the answer is that line, and nothing is read from the source. After `Memory` nothing was written.
pub fn advise_top<S: Source, O: Sink, E: Sink>(
    alloc: Global,
    words: &[Word],
    src: &mut S,
    out: &mut O,
    err: &mut E,
) -> Status
    ensures { IsAdvised (ends_tell (source S.left S.faults S.read_gives) (sink O.written O.faults O.write_gives)
        (sink E.written E.faults E.write_gives))
        words.now (ends src.old out.old err.old) (ends src.new out.new err.new) result }
{
    run_text_program::<AdviceWords, S, O, E>(alloc, words, src, out, err)
}
