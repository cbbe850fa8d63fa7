//! On which floor the stands of a round lie.

use std::marker::Brand;

/// The table of the floor of a round. Each round picks it, since nothing but its type is known of what a thread gives back.
pub(crate) trait Located {
    ghost use Rattle.atomic_table.specs.Seated.{TableId};

    /// The table.
    ghost table: { TableId };
}

impl Located for Brand {
    ghost use Rattle.std.specs.Prelude.{[]};

    ghost table = { record { words = 0; slots = 0; views_name = 0; atom = 0; block = 0; offset = 0; slot_names = [] } };
}
