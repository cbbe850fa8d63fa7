//! The law of answers.
ghost use Rattle.std.specs.Prelude.{◌≡◌, ℕ, List};
ghost use Rattle.twe_io.specs.declared.answer.Answer.{Answer};
ghost use Rattle.twe_infer.specs.Answers.{InferDue};

use twe_frontend::one_refusal;
use twe_parser::one_tree;

/// What `twe_infer` writes for a text, and its status, are functions of the text.
pub fn one_infer_answer()
    ensures { (text : List ℕ) (answer other : Answer) → InferDue text answer → InferDue text other → answer ≡ other }
{
    one_tree();
    one_refusal();
}
