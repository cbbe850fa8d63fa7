//! What a body does that its summary has to answer for.
ghost use Rattle.std.specs.Prelude.{◌≡◌, ◌∷◌, [], ◌++◌, OnOk};

use region_paths::Elems;
use twe_base::{List, Memory};

/// A read or a write of the cells in a path without a star.
#[derive(Debug, Drop)]
pub struct Need {
    /// Whether the cells are written.
    pub write: bool,
    /// The elements of the path.
    pub elems: Elems,
}

/// One thing that a body does.
#[derive(Debug, Drop)]
pub enum BodyStep {
    /// It reads or writes cells, or prints.
    Touch(Need),
    /// It calls a method.
    Call {
        /// The number of the method.
        method: u32,
        /// The arguments as the rules see them.
        args: Elems,
    },
}

/// Steps in the order of the text.
pub type Steps = List<BodyStep>;

/// Adds a read or a write of the path with these elements.
pub(crate) fn add_touch(steps: &mut Steps, write: bool, elems: Elems) -> Result<(), Memory>
    ensures { OnOk result (steps.new ≡ steps.old ++ BodyStep.Touch (record { write = write; elems = elems }) ∷ []) }
{
    steps.push(BodyStep::Touch(Need { write, elems }))
}
