//! The words after the program's name.
ghost use Rattle.std.specs.Prelude.{◌≡◌};
ghost use Rattle.twe_advise.specs.Words.{asked_advice, asked_row, asked_workers};

use command_line::number_between;
use twe_base::Word;

/// How the advice is written.
#[derive(Clone, Copy, Debug, PartialEq, Eq)]
pub enum Form {
    /// As tables, for people.
    Tables,
    /// As JSON, for programs.
    Json,
}

/// What words ask for.
#[derive(Clone, Copy, Debug, PartialEq, Eq)]
pub struct AdviceWords {
    /// How the advice is written.
    pub form: Form,
    /// A number of workers that has a row beside those that always have one.
    pub workers: Option<u64>,
}

/// What the words ask for: `--json` first for JSON, and then `--workers` and a number from 1 to 64 for its row. Other words ask for
/// nothing.
pub(crate) fn asked_advice(words: &[Word]) -> Option<AdviceWords>
    ensures { result ≡ asked_advice words.now }
{
    match words {
        [] => asked_workers(Form::Tables, words),
        [word, others @ ..] => if word.as_bytes() == b"--json".as_slice() {
            asked_workers(Form::Json, others)
        } else {
            asked_workers(Form::Tables, words)
        },
    }
}

/// What the words after the form ask for.
fn asked_workers(form: Form, words: &[Word]) -> Option<AdviceWords>
    ensures { result ≡ asked_workers form words.now }
{
    match words {
        [] => Some(AdviceWords {
            form,
            workers: None,
        }),
        [name, value] => if name.as_bytes() == b"--workers".as_slice() {
            asked_row(form, number_between(1, 64, value.as_bytes()))
        } else {
            None
        },
        _ => None,
    }
}

/// What a number of workers asks for that was read.
fn asked_row(form: Form, workers: Option<u64>) -> Option<AdviceWords>
    ensures { result ≡ asked_row form workers }
{
    match workers {
        None => None,
        Some(_) => Some(AdviceWords { form, workers }),
    }
}
