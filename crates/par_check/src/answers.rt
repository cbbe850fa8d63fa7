//! The answers to programs.
ghost use Rattle.std.specs.Prelude.{◌≡◌, ◌≤◌, length, All, IfOk};
ghost use Rattle.std.specs.List.{AllZip};
ghost use Rattle.twe_base.specs.Language.{max_text_bytes};
ghost use Rattle.text_answers.specs.Answers.{IsAnswerTo};
ghost use Rattle.par_check.specs.Batch.{command_of};

use crate::cut::Texts;
use crate::job::Job;
use rayon::prelude::*;
use std::alloc::Global;
use std::thread::Threads;
use text_answers::answer_text;
use twe_base::{Bytes, List, Memory};
use twe_io::Answer;

/// Answers in the order of their programs.
pub type Answers = List<Answer>;

/// The answer to one program: that of `twe check` or of `twe run` without options.
pub fn answer_one(alloc: Global, job: Job, text: &[u8]) -> Result<Answer, Memory>
    requires { length text.now ≤ max_text_bytes }
    ensures { IfOk result (IsAnswerTo (command_of job) text.now) }
{
    answer_text(alloc, &job.command(), text)
}

/// The answer to each of these programs, in their order, from as many threads as there are processors. Each is the one that
/// `answer_one` gives.
pub fn answer_all<R: Threads + Sync>(
    rt: &R,
    alloc: Global,
    job: Job,
    texts: &Texts,
) -> Result<Answers, Memory>
    requires { All (λ text. length text ≤ max_text_bytes) texts.now }
    ensures { IfOk result (AllZip (IsAnswerTo (command_of job)) texts.now) }
{
    let answers = texts
        .as_slice()
        .par_iter()
        .with_min_len(1)
        .map(
            |text: &Bytes| -> Result<Answer, Memory>
                requires { length text.now ≤ max_text_bytes }
                ensures { IfOk result (IsAnswerTo (command_of job) text.now) }
            { answer_one(alloc, job, text.as_slice()) },
        )
        .collect::<Result<Vec<Answer>, Memory>>(rt, alloc)?;
    Ok(List::from(answers?))
}
