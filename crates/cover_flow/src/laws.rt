//! Control paths, one step at a time.
ghost use Rattle.std.specs.Prelude.{◌≡◌, ◌↔◌, ℕ, []};
ghost use Rattle.twe_program.specs.Statement.{Statements};
ghost use Rattle.twe_program.specs.declared.program.Body.{Body};
ghost use Rattle.cover_flow.specs.ControlPath.{ControlPath, Path, end_of};
ghost use Rattle.cover_flow.specs.Steps.{StepsFar, point_before};

/// The control paths to a point are those that come there step by step from the start of the body. Each step carries out
/// a statement, goes into a block or a branch, into a turn of a loop or past it, or by a return to the end.
pub fn control_paths_go_step_by_step()
    ensures { (body : Body) (to : ℕ) (path : Path) → ControlPath body to path
        ↔ ((n : ℕ) × (left : Statements) × StepsFar n body.block [] left path
        × (point_before (end_of body) left ≡ to)) }
{}
