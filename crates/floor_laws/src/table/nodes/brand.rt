//! The name that the caller of a run picks: which nodes it stands for.

use crate::table::nodes::rule::Planted;
use std::marker::Brand;

impl Planted for Brand {
    ghost use Rattle.std.specs.Prelude.{[]};

    ghost nodes = { [] };
}
