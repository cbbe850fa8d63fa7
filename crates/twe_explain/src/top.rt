//! The top call: the whole program, apart from where its bytes come from and go to.
ghost use Rattle.std.specs.Prelude.{◌≡◌, None, Some};
ghost use Rattle.twe_explain.specs.Alone.{text_alone};
ghost use Rattle.twe_explain.specs.Inputs.{AnswersExplain};
ghost use Rattle.twe_io.specs.Ends.{ends, ends_tell, sink, source};

use crate::alone::text_alone;
use crate::words::Wish;
use std::alloc::Global;
use twe_base::{Bytes, Word};
use twe_io::{Answer, Sink, Source, Status, tell};
use twe_report::run_text_program;

/// Writes a text that the words ask for by themselves.
fn tell_alone<S: Source, O: Sink, E: Sink>(
    alloc: Global,
    words: &[Word],
    text: Bytes,
    src: &mut S,
    out: &mut O,
    err: &mut E,
) -> Status
    requires { text_alone words.now ≡ Some text }
    ensures { AnswersExplain (ends_tell (source S.left S.faults S.read_gives) (sink O.written O.faults O.write_gives)
        (sink E.written E.faults E.write_gives))
        words.now (ends src.old out.old err.old) (ends src.new out.new err.new) result }
{
    let _ = words;
    let _ = src;
    let made = Ok(Answer::on_out(alloc, Status::Done, text));
    tell(&made, out, err)
}

/// Reads the text of a program and answers it, as the words ask for it.
fn tell_of_text<S: Source, O: Sink, E: Sink>(
    alloc: Global,
    words: &[Word],
    src: &mut S,
    out: &mut O,
    err: &mut E,
) -> Status
    requires { text_alone words.now ≡ None }
    ensures { AnswersExplain (ends_tell (source S.left S.faults S.read_gives) (sink O.written O.faults O.write_gives)
        (sink E.written E.faults E.write_gives))
        words.now (ends src.old out.old err.old) (ends src.new out.new err.new) result }
{
    run_text_program::<Wish, S, O, E>(alloc, words, src, out, err)
}

/// Reads the text of a program from the source, and writes the answer of `twe check` with what is said of the refusal.
///
/// `AnswersExplain` says what each status means and what is written with it. The words name the text, and choose lines for
/// editors; or they ask for a text by themselves, and nothing is read from the source; if they ask for anything else, the answer
/// is the usage line, and nothing is read either. After `Memory` nothing was written.
pub fn explain_top<S: Source, O: Sink, E: Sink>(
    alloc: Global,
    words: &[Word],
    src: &mut S,
    out: &mut O,
    err: &mut E,
) -> Status
    ensures { AnswersExplain (ends_tell (source S.left S.faults S.read_gives) (sink O.written O.faults O.write_gives)
        (sink E.written E.faults E.write_gives))
        words.now (ends src.old out.old err.old) (ends src.new out.new err.new) result }
{
    match text_alone(alloc, words) {
        Ok(None) => tell_of_text(alloc, words, src, out, err),
        Ok(Some(text)) => tell_alone(alloc, words, text, src, out, err),
        Err(_) => Status::Memory,
    }
}
