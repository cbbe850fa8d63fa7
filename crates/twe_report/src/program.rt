//! What a program is that reads one text.
ghost use Rattle.std.specs.Prelude.{◌≡◌, ◌≤◌, ℕ, List, Option, length, IfOk};
ghost use Rattle.twe_report.specs.Causes.{by_word, without_words};
ghost use Rattle.twe_base.specs.Language.{max_text_bytes};
ghost use Rattle.twe_io.specs.declared.answer.Answer.{Answer};

use std::alloc::Global;
use twe_base::{Bytes, Memory, Word};
use twe_io::Answer;

/// A program that reads one text, as its words ask for it.
///
/// Contracts see what its words may be, its usage line, and which answer is due to a text.
pub trait TextProgram: Drop {
    /// What words ask for, or `None` if the program takes no such words.
    ghost asked: { List (List ℕ) → Option Self };

    /// The usage line.
    ghost usage: { List ℕ };

    /// This is an answer that is due to the text, if the words ask for this.
    ghost due: { Self → List ℕ → Answer → Type 0 };

    /// What the words ask for, or `None` if the program takes no such words.
    fn of_words(alloc: Global, words: &[Word]) -> Result<Option<Self>, Memory>
        ensures { IfOk result (λ wanted. wanted ≡ asked words.now) };

    /// The usage line.
    fn usage_text(alloc: Global) -> Result<Bytes, Memory>
        ensures { IfOk result (λ text. text ≡ usage) };

    /// An answer that is due to the text.
    fn answer_text(&self, alloc: Global, text: &[u8]) -> Result<Answer, Memory>
        requires { length text.now ≤ max_text_bytes }
        ensures { IfOk result (due self.now text.now) };
}

/// The program, if there are no words.
pub fn without_words<P: Drop>(words: &[Word], program: P) -> Option<P>
    ensures { result ≡ without_words program words.now }
{
    match words {
        [] => Some(program),
        [_, ..] => None,
    }
}

/// One program if there are no words, and another if there is exactly this word.
pub fn by_word<P: Drop>(words: &[Word], plain: P, name: &[u8], named: P) -> Option<P>
    ensures { result ≡ by_word plain name.now named words.now }
{
    match words {
        [] => Some(plain),
        [word] => {
            if word.as_bytes() == name {
                Some(named)
            } else {
                None
            }
        }
        _ => None,
    }
}
