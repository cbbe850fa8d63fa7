//! Laws of programs that are equal except for the places in them.
ghost use Rattle.std.specs.Prelude.{◌≡◌, ℤ, List};
ghost use Rattle.twe_base.specs.Limits.{Bounds};
ghost use Rattle.twe_program.specs.Program.{Program};
ghost use Rattle.seg_journal.specs.declared.moves.Move.{Move};
ghost use Rattle.seg_meaning.specs.declared.frame.Frame.{Frame};
ghost use Rattle.seg_meaning.specs.Segment.{segment};
ghost use Rattle.machine_state.specs.declared.ending.Outcome.{Outcome};
ghost use Rattle.machine_state.specs.declared.state.State.{State};
ghost use Rattle.machine_state.specs.Legal.{MayMove};
ghost use Rattle.machine_state.specs.Moves.{move_result, start_of};
ghost use Rattle.machine_state.specs.Runs.{IsOutcome};
ghost use Rattle.summary_texts.specs.paste_laws.places.Places.{SameButPlaces};
ghost use Rattle.place_laws.specs.Alike.{EndsSo, RunAlike, SameStates};
ghost use Rattle.place_laws.specs.Bare.{bare_end, bare_stopped};

/// A segment of the one program does what it does in the other. From the same frame and the same cells it makes the same accesses
/// and leaves the same frame and the same cells. It stops in the same way, but that a make or a fault may have another place.
pub fn segments_do_not_see_places()
    ensures { (p q : Program) (frame : Frame) (cells : List ℤ) → SameButPlaces p q
        → bare_stopped (segment p frame cells) ≡ bare_stopped (segment q frame cells) }
{}

/// Both programs start in the same state. In states that are equal but for the place of the first fault the same moves are legal.
/// A move ends in the same way in both, but that a fault may have another place, and leads to such states again. The outcome of
/// such states is the same, but for the place of a fault.
pub fn moves_do_not_see_places()
    ensures start { (p q : Program) (lim : Bounds) → SameButPlaces p q → start_of p lim ≡ start_of q lim }
    ensures legal { (st other : State) (mv : Move) → SameStates st other → MayMove st mv → MayMove other mv }
    ensures ended { (p q : Program) (lim : Bounds) (st other : State) (mv : Move) → SameButPlaces p q → SameStates st other
        → bare_end (move_result p lim st mv).1 ≡ bare_end (move_result q lim other mv).1 }
    ensures moved { (p q : Program) (lim : Bounds) (st other : State) (mv : Move) → SameButPlaces p q → SameStates st other
        → SameStates (move_result p lim st mv).0 (move_result q lim other mv).0 }
    ensures outcome { (st other : State) (outcome : Outcome) → SameStates st other → IsOutcome st outcome → EndsSo other outcome }
{}

/// Programs that are equal except for the places in them run alike: for each legal journal of the one, under whatever limits,
/// the other has a legal journal with the same moves and the same ends, which leads to the same state and has the same outcome,
/// but that a fault may have another place.
pub fn programs_run_alike()
    ensures { (p q : Program) → SameButPlaces p q → RunAlike p q }
{}
