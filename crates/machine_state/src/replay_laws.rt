//! Laws of replays: a list of moves is that of a legal journal, or has one first illegal move.
ghost use Rattle.std.specs.Prelude.{◌≡◌, ℕ, List, map};
ghost use Rattle.seg_journal.specs.declared.journal.Entry.{Entry};
ghost use Rattle.seg_journal.specs.declared.moves.Move.{Move};
ghost use Rattle.seg_journal.specs.Spelling.{move_of};
ghost use Rattle.twe_base.specs.Limits.{Bounds};
ghost use Rattle.twe_program.specs.Program.{Program};
ghost use Rattle.machine_state.specs.declared.why.Why.{Why};
ghost use Rattle.machine_state.specs.Replays.{AreLegal, IsFirstIllegal};
ghost use Rattle.machine_state.specs.Runs.{Legal};

/// Legal moves have no first illegal one. A list of moves has one first illegal move at most, and one reason for it.
pub fn one_first_illegal()
    ensures never_both { (p : Program) (lim : Bounds) (moves : List Move) (n : ℕ) (why : Why) → AreLegal p lim moves
        → ¬ IsFirstIllegal p lim moves n why }
    ensures one { (p : Program) (lim : Bounds) (moves : List Move) (n m : ℕ) (why other : Why)
        → IsFirstIllegal p lim moves n why → IsFirstIllegal p lim moves m other → (n ≡ m) × (why ≡ other) }
{}

/// The moves of a legal journal determine it, with the end of each entry.
pub fn moves_make_the_journal()
    ensures { (p : Program) (lim : Bounds) (journal other : List Entry) → Legal p lim journal → Legal p lim other
        → map move_of journal ≡ map move_of other → journal ≡ other }
{}
