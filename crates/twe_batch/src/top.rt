//! The top call: the whole program, apart from where its bytes come from and go to.
ghost use Rattle.std.specs.Prelude.{◌≤◌, [], ◌∷◌, length, IfOk};
ghost use Rattle.twe_base.specs.Language.{max_text_bytes};
ghost use Rattle.twe_io.specs.Ends.{ends, ends_tell, sink, source};
ghost use Rattle.par_check.specs.Batch.{IsBatch};
ghost use Rattle.twe_batch.specs.Answers.{AnswersBatch, BatchCause};
ghost use Rattle.twe_batch.specs.Words.{word_for};

use crate::text::usage_text;
use crate::words::job_of;
use par_check::{Job, answer_all, batch_text, programs_of};
use std::alloc::Global;
use std::thread::Threads;
use twe_base::{Bytes, Memory, Word};
use twe_io::{Answer, Sink, Source, Status, tell};
use twe_report::{Input, read_input};

/// Reads a batch of programs from the source, checks or runs each of them, and writes their answers in order, with the number
/// of each program and its status.
///
/// `Answers` says what each status means and what is written with it: what is written for a batch does not depend on the
/// number of threads. If the words are not exactly `check` or exactly `run`, the answer is the usage line, and nothing is read
/// from the source. After `Memory` nothing was written.
pub fn batch_top<R: Threads + Sync, S: Source, O: Sink, E: Sink>(
    rt: &R,
    alloc: Global,
    words: &[Word],
    src: &mut S,
    out: &mut O,
    err: &mut E,
) -> Status
    ensures { AnswersBatch (ends_tell (source S.left S.faults S.read_gives) (sink O.written O.faults O.write_gives)
        (sink E.written E.faults E.write_gives))
        words.now (ends src.old out.old err.old) (ends src.new out.new err.new) result }
{
    let made = answer(rt, alloc, words, src);
    tell(&made, out, err)
}

/// The answer to these words.
fn answer<R: Threads + Sync, S: Source>(
    rt: &R,
    alloc: Global,
    words: &[Word],
    src: &mut S,
) -> Result<Answer, Memory>
    ensures { IfOk result (BatchCause (source S.left S.faults S.read_gives) words.now src.old src.new) }
{
    match job_of(words) {
        Some(job) => answer_source(rt, alloc, job, src),
        None => Ok(Answer::on_err(alloc, Status::Usage, usage_text(alloc)?)),
    }
}

/// The answer to the one word that asks for this: the source is read, and its batch is answered.
fn answer_source<R: Threads + Sync, S: Source>(
    rt: &R,
    alloc: Global,
    job: Job,
    src: &mut S,
) -> Result<Answer, Memory>
    ensures { IfOk result (BatchCause (source S.left S.faults S.read_gives) (word_for job ∷ []) src.old src.new) }
{
    let input = read_input(alloc, src)?;
    match input {
        Input::Given(batch) => {
            let text = answer_batch(rt, alloc, job, batch.as_slice())?;
            Ok(Answer::on_out(alloc, Status::Done, text))
        }
        Input::Failed(answer) => Ok(answer),
    }
}

/// What is written for a batch.
fn answer_batch<R: Threads + Sync>(
    rt: &R,
    alloc: Global,
    job: Job,
    batch: &[u8],
) -> Result<Bytes, Memory>
    requires { length batch.now ≤ max_text_bytes }
    ensures { IfOk result (IsBatch job batch.now) }
{
    let texts = programs_of(alloc, batch)?;
    let answers = answer_all(rt, alloc, job, &texts)?;
    batch_text(alloc, answers.as_slice())
}
