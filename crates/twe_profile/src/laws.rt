//! The law of answers.
ghost use Rattle.std.specs.Prelude.{◌≡◌, ℕ, List};
ghost use Rattle.twe_io.specs.declared.answer.Answer.{Answer};
ghost use Rattle.twe_profile.specs.Answers.{ProfileDue};

use span_profile::one_profile;
use twe_frontend::{one_program, one_refusal, refused_or_accepted};

/// What `twe_profile` writes for an input, and its status, are functions of the input.
pub fn one_profile_answer()
    ensures { (text : List ℕ) (answer other : Answer) → ProfileDue text answer → ProfileDue text other → answer ≡ other }
{
    one_program();
    one_refusal();
    refused_or_accepted();
    one_profile();
}
