//! A timetable of entries on several processors, in which each keeps the pace of its earliest time.
ghost use Rattle.std.specs.Prelude.{◌≡◌, ◌<◌, ◌≤◌, ◌-◌, ◌*◌, ◌^◌, ℕ, length, max, slice_index, IfOk};
ghost use Rattle.std.specs.List.{All};
ghost use Rattle.schedules.specs.Timetables.{IsPacedTime, jobs_below};
ghost use Rattle.schedules.specs.inner.Placing.{IsPlaced, most_64};

use std::alloc::Global;
use twe_base::{List, Memory};

/// An entry. Entries are ordered by their earliest times.
#[derive(Clone, Copy, Debug, PartialEq, Eq, PartialOrd, Ord)]
pub struct PacedJob {
    /// The earliest time at which it can start, with any number of processors.
    pub early: u64,
    /// Its number.
    pub entry: u64,
    /// How long it takes.
    pub weight: u64,
}

/// The entries that could start and end at these times.
fn jobs(alloc: Global, starts: &[u64], ends: &[u64]) -> Result<Vec<PacedJob>, Memory>
    requires { length ends.now ≡ length starts.now }
    ensures { IfOk result (λ jobs. jobs.items ≡ jobs_below starts.now ends.now (length starts.now)) }
{
    let mut jobs = Vec::new(alloc);
    for entry in 0..starts.len() {
        jobs.push(PacedJob {
            early: starts[entry],
            entry: entry as u64,
            weight: ends[entry].saturating_sub(starts[entry]),
        })?;
    }
    Ok(jobs)
}

/// The place of the least of some numbers.
fn least_at(numbers: &[u128]) -> usize
    requires { 0 < length numbers.now }
    ensures there { result < length numbers.now }
    ensures least { (k : ℕ) → k < length numbers.now → slice_index numbers.now result ≤ slice_index numbers.now k }
{
    let mut least = 0;
    for k in 1..numbers.len() {
        if numbers[k] < numbers[least] {
            least = k;
        }
    }
    least
}

/// Gives an entry a processor of those that are free at these times: one that is free first. It starts then, but not before
/// it may, with this delay. Returns how much it is delayed, and when it ends.
fn place(free: &mut List<u128>, job: PacedJob, delay: u128) -> (u128, u128)
    requires some { 0 < length free.old }
    requires small { All (λ time. time < 2 ^ 128 - 2 ^ 64) free.old }
    requires little { delay < 2 ^ 128 - 2 * 2 ^ 64 }
    ensures placed { IsPlaced free.old job delay result.0 result.1 free.new }
    ensures early { job.early ≤ most_64 }
    ensures weight { job.weight ≤ most_64 }
{
    let times = free.as_slice();
    let least = least_at(times);
    let start = later_of(u128::from(job.early) + delay, times[least]);
    let end = start + u128::from(job.weight);
    free.set(least, end);
    (start - u128::from(job.early), end)
}

/// The later of two times.
fn later_of(time: u128, other: u128) -> u128
    ensures { result ≡ max time other }
{
    time.max(other)
}

/// How many numbers there are.
fn count_of(numbers: &[u64]) -> usize
    ensures same { result ≡ length numbers.now }
    ensures few { result < 2 ^ 64 }
{
    numbers.len()
}

/// How long a paced timetable takes of entries that could start and end at these times: they come in the order of their earliest
/// times, each starts as soon as a processor is free, and none is delayed less than the one before.
pub fn paced_time(
    alloc: Global,
    starts: &[u64],
    ends: &[u64],
    processors: usize,
) -> Result<u128, Memory>
    requires some { 0 < processors }
    requires both { length ends.now ≡ length starts.now }
    ensures { IfOk result (IsPacedTime starts.now ends.now processors) }
{
    let _count = count_of(starts);
    let mut jobs = jobs(alloc, starts, ends)?;
    jobs.sort()?;
    let order = jobs.as_slice();
    let mut free = List::from(vec![in alloc; 0u128; processors]?);
    let mut delay = 0u128;
    let mut time = 0u128;
    for job in order {
        let (later, end) = place(&mut free, *job, delay);
        delay = later;
        time = later_of(time, end);
    }
    Ok(time)
}
