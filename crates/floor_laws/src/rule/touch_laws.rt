//! A law of what a segment knows of the cells that it has touched. `laws.rt` has the laws of the steps.
ghost use Rattle.std.specs.Prelude.{◌≡◌, ◌<◌, ℕ, ℤ, List, length, Some};
ghost use Rattle.twe_base.specs.Limits.{Bounds};
ghost use Rattle.twe_program.specs.Program.{Program};
ghost use Rattle.twe_program.specs.WellFormed.{IsWellFormed};
ghost use Rattle.seg_meaning.specs.Access.{Reads};
ghost use Rattle.isolation_laws.specs.soundness.KeepsEffects.{KeepsEffects};
ghost use Rattle.seg_journal.specs.declared.numbered.NumberedEntry.{NumberedEntry};
ghost use Rattle.floor_laws.specs.rule.Floors.{Floor};
ghost use Rattle.floor_laws.specs.rule.LastTouches.{last_touched};
ghost use Rattle.floor_laws.specs.rule.Rule.{KeepsRule};
ghost use Rattle.floor_laws.specs.rule.Steps.{MayTouch};
ghost use Rattle.floor_laws.specs.rule.Touches.{cell_at, touches_of};

/// A load of a cell that the open segment has touched finds the value that the segment has read or written there last,
/// whatever the other seats have stored.
pub fn loads_find_what_was_touched_last()
    ensures { (p : Program) (lim : Bounds) (log : List NumberedEntry) (f : Floor) (i t c : ℕ) (value known : ℤ) → IsWellFormed p
        → KeepsEffects p → KeepsRule p lim log f → c < length f.cells → value ≡ cell_at f.cells c
        → MayTouch p f i t (Reads c value)
        → last_touched (touches_of (f.segments i)) c ≡ Some known → value ≡ known }
{}
