//! What the calls on the content of a node find, in the words of the rule on nodes.
ghost use Rattle.std.specs.Prelude.{◌≡◌, ◌↔◌, true, List};
ghost use Rattle.std.specs.List.{list_any};
ghost use Rattle.floor_laws.specs.admission.admission_core.States.{IsAmong, Record};
ghost use Rattle.floor_laws.specs.table.nodes.Without.{same_record};

/// The test that compares each record with this one finds it if and only if it is there.
pub fn what_is_found_is_there()
    ensures { (r : Record) (l : List Record) → (list_any (λ x. same_record x r) l ≡ true) ↔ IsAmong r l }
{}
