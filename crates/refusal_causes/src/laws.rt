//! What trails have to do with control paths.
ghost use Rattle.std.specs.Prelude.{◌≡◌, ℕ};
ghost use Rattle.twe_program.specs.declared.program.Body.{Body};
ghost use Rattle.cover_flow.specs.ControlPath.{ControlPath, Path};
ghost use Rattle.cover_flow.specs.Out.{out_after};
ghost use Rattle.refusal_causes.specs.Trail.{ControlTrail, carried_out};

/// Without the tests of loops a trail is a control path to the same point, after which the same futures are out.
pub fn trails_are_control_paths()
    ensures path { (body : Body) (to : ℕ) (trail : Path) → ControlTrail body to trail → ControlPath body to (carried_out trail) }
    ensures out { (f : ℕ) (trail : Path) → out_after f (carried_out trail) ≡ out_after f trail }
{}
