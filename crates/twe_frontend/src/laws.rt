//! Laws of refusals and of accepted texts.
ghost use Rattle.std.specs.Prelude.{◌≡◌, ℕ, List};
ghost use Rattle.twe_program.specs.Program.{Program};
ghost use Rattle.twe_frontend.specs.declared.refusal.Refusal.{Refusal};
ghost use Rattle.twe_frontend.specs.Accepted.{Accepted, IsRefusal};

use twe_parser::one_tree;

/// A text has at most one program.
pub fn one_program()
    ensures { (text : List ℕ) (p other : Program) → Accepted text p → Accepted text other → p ≡ other }
{
    one_tree();
}

/// A text has at most one refusal.
pub fn one_refusal()
    ensures { (text : List ℕ) (refusal other : Refusal) → IsRefusal text refusal → IsRefusal text other → refusal ≡ other }
{
    one_tree();
}

/// A text is refused or accepted: never both, and never neither. The second half is said by a double negation, since
/// no clause decides which of the two it is: that is what `read_program` does.
pub fn refused_or_accepted()
    ensures never_both { (text : List ℕ) (p : Program) (refusal : Refusal) → Accepted text p → ¬ IsRefusal text refusal }
    ensures never_neither { (text : List ℕ) → ((refusal : Refusal) → ¬ IsRefusal text refusal)
        → ¬ ¬ ((p : Program) × Accepted text p) }
{
    one_tree();
}
