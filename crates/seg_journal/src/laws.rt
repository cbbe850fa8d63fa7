//! Laws of journals as text.
ghost use Rattle.std.specs.Prelude.{◌≡◌, ◌⊎◌, List, ℕ};
ghost use Rattle.seg_journal.specs.declared.moves.Move.{Move};
ghost use Rattle.seg_journal.specs.Lines.{HasBadLine};
ghost use Rattle.seg_journal.specs.Spelling.{IsJournal, Spells};

/// No text is that of two journals. So a journal that was printed is read as the same limits and moves.
pub fn one_spelling()
    ensures { (text : List ℕ) (head other : _) (moves others : List Move) → Spells text head moves
        → Spells text other others → (head ≡ other) × (moves ≡ others) }
{}

/// Each text is that of a journal or has a first bad line, and no text is both.
pub fn journal_or_bad_line()
    ensures either { (text : List ℕ) → IsJournal text ⊎ HasBadLine text }
    ensures never_both { (text : List ℕ) → IsJournal text → ¬ HasBadLine text }
{}
