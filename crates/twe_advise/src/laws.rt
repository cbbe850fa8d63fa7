//! The law of answers.
ghost use Rattle.std.specs.Prelude.{◌≡◌, ℕ, List};
ghost use Rattle.twe_io.specs.declared.answer.Answer.{Answer};
ghost use Rattle.twe_advise.specs.Answers.{AdviceDue};
ghost use Rattle.twe_advise.specs.declared.words.AdviceWords.{AdviceWords as AnyWords};

use held_span::one_held_profile;
use span_profile::{one_advice, one_profile};
use twe_frontend::{one_program, one_refusal, refused_or_accepted};
use twe_parser::one_tree;

/// What `twe_advise` writes for an input, and its status, are functions of what the words ask for and the input.
pub fn one_advice_answer()
    ensures { (wanted : AnyWords) (text : List ℕ) (answer other : Answer) → AdviceDue wanted text answer
        → AdviceDue wanted text other → answer ≡ other }
{
    one_tree();
    one_program();
    one_refusal();
    refused_or_accepted();
    one_profile();
    one_advice();
    one_held_profile();
}
