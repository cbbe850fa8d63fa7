//! Laws of clauses: the order in which paths are written, and that a clause can be pasted.
ghost use Rattle.std.specs.Prelude.{◌≡◌, ◌⊎◌, ℕ, Bool, true, false, List, map};
ghost use Rattle.std.specs.List.{AllZip};
ghost use Rattle.region_paths.specs.declared.elements.Elem.{Elem};
ghost use Rattle.effect_sets.specs.declared.effects.Summary.{Summary};
ghost use Rattle.twe_ast.specs.declared.name.Name.{Name};
ghost use Rattle.twe_program.specs.Program.{Program};
ghost use Rattle.ast_printer.specs.ItemTokens.{effects_tokens};
ghost use Rattle.ast_printer.specs.Text.{text_of};
ghost use Rattle.effect_infer.specs.Inferred.{AreLeast, IsLeast};
ghost use Rattle.summary_texts.specs.paste_laws.Clauses.{CanBeWritten, clauses_of, texts_of};
ghost use Rattle.summary_texts.specs.paste_laws.Pasted.{HaveSameEffects};
ghost use Rattle.summary_texts.specs.Order.{Ascend, comes_before, summary_paths_of};
ghost use Rattle.summary_texts.specs.Pasting.{in_line, without_blanks};
ghost use Rattle.summary_texts.specs.Texts.{summary_text};

/// The order of paths is a strict total order: no path comes before itself, a path comes before all that come after one which
/// it comes before, and of two different paths one comes before the other.
pub fn paths_have_one_order()
    ensures strict { (path : List Elem) → comes_before path path ≡ false }
    ensures transitive { (one other last : List Elem) → comes_before one other ≡ true → comes_before other last ≡ true
        → comes_before one last ≡ true }
    ensures total { (one other : List Elem)
        → (comes_before one other ≡ true) ⊎ ((one ≡ other) ⊎ (comes_before other one ≡ true)) }
{}

/// The paths of a clause of a least summary ascend: each comes before the next, so none is written twice.
pub fn written_paths_ascend()
    ensures { (p : Program) (m : ℕ) (summary : Summary) (write : Bool) → IsLeast p m summary
        → Ascend (summary_paths_of write summary.effects) }
{}

/// What is written of a summary is, except for blanks, what `print_ast` prints of the clauses that `pasted` writes for the
/// summary in the order of its line, if a text can have them. In this order a least summary has the same effects.
pub fn lines_can_be_pasted()
    ensures clauses { (regions : List (List ℕ)) (params : List Name) (summary : Summary) → CanBeWritten (in_line summary)
        → without_blanks (summary_text regions params summary)
        ≡ without_blanks (text_of (effects_tokens (clauses_of regions (texts_of params) (in_line summary)))) }
    ensures effects { (p : Program) (summaries : List Summary) → AreLeast p summaries
        → AllZip HaveSameEffects (map in_line summaries) summaries }
{}
