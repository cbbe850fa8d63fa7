//! Ways that show why a rule fails, if they are wanted.
ghost use Rattle.refusal_causes.specs.Ways.{IsOnNone};
ghost use Rattle.refusal_causes.specs.Causes.{IsWayIf};

use crate::answer::way_to;
use crate::way::ControlWay;
use twe_program::Body;

/// A way to the point on which the future is out or, if `out` is false, is not: if ways are wanted. There is one.
pub fn way_if(ways: bool, body: &Body, point: u32, future: u32, out: bool) -> Option<ControlWay>
    requires { ¬ IsOnNone body.now point future out }
    ensures { IsWayIf ways body.now point future out result }
{
    if !ways {
        return None;
    }
    let found = way_to(body, point, future, out);
    match found {
        Some(way) => Some(way),
        None => unreachable!(),
    }
}
