//! How long the paced timetables of a run take.
ghost use Rattle.std.specs.Prelude.{◌≡◌, ◌<◌, IfOk, length};
ghost use Rattle.std.specs.List.{All};
ghost use Rattle.twe_advise.specs.Paces.{ArePaces, IsPace, shown_time, speed_up, worker_counts};

use held_span::HeldProfile;
use schedules::paced_time;
use span_profile::Profile;
use std::alloc::Global;
use twe_base::{List, Memory};

/// How long paced timetables take.
#[derive(Clone, Copy, Debug, PartialEq, Eq)]
pub struct PacedTime {
    /// The number of workers.
    pub workers: u64,
    /// The time in the order of the span.
    pub time: u128,
    /// The time in the order of the held span, in which an admission also follows what freed it.
    pub held: u128,
}

/// The numbers of workers that have a row: some that always have one, and then the one that is asked for.
pub(crate) fn worker_counts(alloc: Global, asked: Option<u64>) -> Result<List<u64>, Memory>
    ensures are { IfOk result (λ counts. counts ≡ worker_counts asked) }
    ensures some { IfOk result (All (λ count. 0 < count)) }
{
    let mut counts = List::from_slice(alloc, &[1, 2, 4, 8, 16, 64])?;
    match asked {
        None | Some(0) => {}
        Some(count) => counts.push(count)?,
    }
    Ok(counts)
}

/// How long the paced timetables of a run with these profiles take, with each of these numbers of workers.
pub(crate) fn paces_of(
    alloc: Global,
    profile: &Profile,
    held: &HeldProfile,
    counts: &[u64],
) -> Result<List<PacedTime>, Memory>
    requires some { All (λ count. 0 < count) counts.now }
    requires both { length profile.now.ends ≡ length profile.now.starts }
    requires with_admissions { length held.now.ends ≡ length held.now.starts }
    ensures are { IfOk result (ArePaces profile.now.starts profile.now.ends held.now.starts held.now.ends counts.now) }
    ensures some { IfOk result (All (λ pace. 0 < pace.workers)) }
{
    let mut paces = List::new(alloc);
    for count in counts {
        paces.push(pace_of(alloc, profile, held, *count)?)?;
    }
    Ok(paces)
}

/// How long the paced timetables of a run with these profiles take with so many workers.
fn pace_of(
    alloc: Global,
    profile: &Profile,
    held: &HeldProfile,
    workers: u64,
) -> Result<PacedTime, Memory>
    requires some { 0 < workers }
    requires both { length profile.now.ends ≡ length profile.now.starts }
    requires with_admissions { length held.now.ends ≡ length held.now.starts }
    ensures workers { IfOk result (λ pace. pace.workers ≡ workers) }
    ensures is { IfOk result (IsPace profile.now.starts profile.now.ends held.now.starts held.now.ends) }
{
    let (starts, ends) = (profile.starts.as_slice(), profile.ends.as_slice());
    let time = paced_time(alloc, starts, ends, workers as usize)?;
    let (starts, ends) = (held.starts.as_slice(), held.ends.as_slice());
    let held = paced_time(alloc, starts, ends, workers as usize)?;
    Ok(PacedTime {
        workers,
        time,
        held,
    })
}

/// The time that is shown of a timetable of this work: its own, or the work if that is less, since one worker can take one entry
/// after another.
pub(crate) fn shown_time(work: u64, time: u128) -> u128
    ensures { result ≡ shown_time work time }
{
    u128::from(work).min(time)
}

/// How many times as fast as one entry after another a run is that takes this time, in hundredths, rounded down.
pub(crate) fn speed_up(work: u64, time: u128) -> u128
    ensures { result ≡ speed_up work time }
{
    if time == 0 {
        0
    } else {
        u128::from(work) * 100 / time
    }
}
