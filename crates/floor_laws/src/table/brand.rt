//! The name that the caller of a run picks: which program and limits it stands for.

use crate::table::rule::Named;
use std::marker::Brand;

impl Named for Brand {
    ghost use Rattle.std.specs.Prelude.{[]};

    ghost prog = { record { regions = []; cells = []; methods = []; tasks = []; main = 0 } };

    ghost lim = { record { fuel = 0; tasks = 1 } };
}
