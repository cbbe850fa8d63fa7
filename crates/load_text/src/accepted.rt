//! Laws of the texts of the load generator: each of them is accepted.
ghost use Rattle.std.specs.Prelude.{ℕ, ◌≤◌};
ghost use Rattle.twe_program.specs.Program.{Program};
ghost use Rattle.twe_frontend.specs.Accepted.{Accepted, IsRefusal};
ghost use Rattle.twe_frontend.specs.declared.refusal.Refusal.{Refusal};
ghost use Rattle.load_text.specs.Text.{load_text_of};
ghost use Rattle.load_text.specs.accepted.Sum.{BeginsWithSum};

use twe_frontend::{one_program, refused_or_accepted};

/// The text of the load generator for up to 2,000 cells has a program, and no refusal. The first cell of its program is
/// the cell `s`, to which the tasks add the others.
pub fn load_texts_are_accepted()
    ensures accepted { (n : ℕ) → n ≤ 2000 → (p : Program) × Accepted (load_text_of n) p }
    ensures never_refused { (n : ℕ) → n ≤ 2000 → (refusal : Refusal) → ¬ IsRefusal (load_text_of n) refusal }
    ensures sum { (n : ℕ) (p : Program) → n ≤ 2000 → Accepted (load_text_of n) p → BeginsWithSum p }
{
    refused_or_accepted();
    one_program();
}
