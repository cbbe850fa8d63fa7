//! The way to a point.
ghost use Rattle.std.specs.Prelude.{◌≡◌, IfNone, IfSome};
ghost use Rattle.refusal_causes.specs.Ways.{IsOnNone, IsWay};
ghost use Rattle.refusal_causes.specs.inner.Reached.{found_in};

use crate::reaching::{Aim, note_ways, reach_block};
use crate::way::ControlWay;
use crate::ways::OutWays;
use twe_program::Body;

/// The ways to the point on which the future is out, and is not.
fn ways_to(body: &Body, point: u32, future: u32) -> OutWays
    ensures { result ≡ found_in body.now future point }
{
    let aim = Aim {
        future,
        point,
        end: body.points.saturating_sub(1),
    };
    let mut found = OutWays::nowhere();
    let last = reach_block(&mut found, &body.block, aim, OutWays::at_start());
    note_ways(&mut found, aim.end, aim, last);
    found
}

/// A shortest way to the point after which the future is out or, if `out` is false, is not. `None`: on no control path to the
/// point is it so. It takes one pass through the body, and one more through the body of each loop for that loop and for each
/// around it.
pub fn way_to(body: &Body, point: u32, future: u32, out: bool) -> Option<ControlWay>
    ensures some { IfSome result (IsWay body.now point future out) }
    ensures none { IfNone result (IsOnNone body.now point future out) }
{
    let found = ways_to(body, point, future);
    if out { found.out } else { found.not_out }
}
