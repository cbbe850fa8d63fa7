//! What a body does: the acts that the rules on effects speak of.
ghost use Rattle.std.specs.Prelude.{◌≡◌, ◌∷◌, [], ◌++◌, OnOk};
ghost use Rattle.effect_check.specs.Acts.{touch};

use effect_sets::{Effect, Summary};
use region_paths::Path;
use twe_base::{List, Memory, Place};

/// Something that a body does at one of its points.
#[derive(Debug, Drop)]
pub struct Act {
    /// The number of the point.
    pub point: u32,
    /// What is done.
    pub kind: ActKind,
}

/// What is done. Its effects are those of a summary, filled with the arguments.
#[derive(Debug, Drop)]
pub enum ActKind {
    /// A read or a write of cells, or a print.
    Touch {
        /// What is read or written.
        effect: Effect,
        /// The place of the cell's name, or of the word `print`.
        place: Place,
    },
    /// A call of a method.
    Call {
        /// The effects of the method.
        effects: Summary,
        /// The place of its name.
        place: Place,
    },
    /// A statement that makes a task.
    Make {
        /// The number of the future that stands for it.
        future: u32,
        /// Whether it is made by `spawn`, and not by `executeLater`.
        spawned: bool,
        /// Whether it was declared deterministic.
        deterministic: bool,
        /// Its effects.
        effects: Summary,
        /// The place of the future's name.
        future_place: Place,
        /// The place of the task's name.
        place: Place,
    },
    /// A statement that waits for a task.
    Wait {
        /// The number of the future that stands for it.
        future: u32,
        /// Whether it is a `join`, and not a `getValue`.
        join: bool,
        /// The place of the future's name.
        place: Place,
    },
}

/// Acts in the order of the text.
pub type Acts = List<Act>;

/// Adds a read or a write of the path.
pub fn add_touch(
    acts: &mut Acts,
    point: u32,
    write: bool,
    path: Path,
    place: Place,
) -> Result<(), Memory>
    ensures { OnOk result (acts.new ≡ acts.old ++ touch point write path place ∷ []) }
{
    let effect = Effect { write, path };
    let kind = ActKind::Touch { effect, place };
    acts.push(Act { point, kind })
}
