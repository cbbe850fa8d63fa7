//! How fast a run could be.
ghost use Rattle.std.specs.Prelude.{◌≡◌, ◌<◌};
ghost use Rattle.schedules.specs.Schedules.{least_time};

/// The least time that work with this span can take on so many processors: the greater of the span, and of the work by the
/// processors, rounded up. `no_schedule_is_shorter` says why.
pub fn least_time(work: u64, span: u64, processors: u64) -> u64
    requires { 0 < processors }
    ensures { result ≡ least_time work span processors }
{
    span.max(work.div_ceil(processors))
}
