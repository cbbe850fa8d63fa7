//! Laws of places: whether a text is accepted, and which program it means, does not depend on where things stand in it.
ghost use Rattle.std.specs.Prelude.{ℕ, List};
ghost use Rattle.twe_ast.specs.declared.item.Ast.{Ast};
ghost use Rattle.twe_program.specs.Program.{Program};
ghost use Rattle.twe_frontend.specs.Accepted.{Accepted, IsTreeOf};
ghost use Rattle.ast_printer.specs.BareItem as trees;
ghost use Rattle.ast_printer.specs.ItemTokens.{printed_tokens};
ghost use Rattle.summary_texts.specs.paste_laws.places.Places as programs;

/// Let the trees of two texts be equal except for the places in them. If one text is accepted, the other is too, and their
/// programs are equal except for the places in them.
pub fn places_do_not_matter()
    ensures { (text other : List ℕ) (p : Program) (its : Ast) (accepted : Accepted text p) → IsTreeOf other its
        → trees.EqualButForPlaces accepted.meant.tree its → (q : Program) × Accepted other q × programs.SameButPlaces p q }
{}

/// The text that `print_ast` prints of the tree of an accepted text is accepted too, and its program is the same except for
/// the places in it.
pub fn printed_texts_are_accepted()
    ensures { (text : List ℕ) (p : Program) (accepted : Accepted text p)
        → (q : Program) × Accepted (printed_tokens accepted.meant.tree) q × programs.SameButPlaces p q }
{}
