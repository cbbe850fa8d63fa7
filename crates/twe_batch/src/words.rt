//! The words after the program's name.
ghost use Rattle.std.specs.Prelude.{◌≡◌};
ghost use Rattle.twe_batch.specs.Words.{IsBatchMeaning};
ghost use Rattle.twe_batch.specs.inner.Named.{job_in, job_named};

use par_check::Job;
use twe_base::Word;

/// What the words ask for: one word, which is `check` or `run`. Other words ask for nothing.
pub(crate) fn job_of(words: &[Word]) -> Option<Job>
    ensures { IsBatchMeaning words.now result }
{
    job_in(words)
}

/// The same, word after word.
fn job_in(words: &[Word]) -> Option<Job>
    ensures { result ≡ job_in words.now }
{
    match words {
        [word] => job_named(word),
        _ => None,
    }
}

/// What this one word asks for.
fn job_named(word: &Word) -> Option<Job>
    ensures { result ≡ job_named word.now }
{
    if word.as_bytes() == b"check".as_slice() {
        Some(Job::Check)
    } else if word.as_bytes() == b"run".as_slice() {
        Some(Job::Run)
    } else {
        None
    }
}
