//! Bars among the tasks of a queue.
//!
//! Tasks that wait for one another stand in the queue in the order of the waits, since a task is enabled before those that it makes.
//! So one walk along the waits passes by all of them that stand one after another. An example: 3 waits for 5, 5 for 8 and 8 for 9,
//! and the queue has 3, 5, 8 in this order. Is one of them a bar to 9? The walk from 3 meets 5 and 8, which are the next entries,
//! and comes to 9, so all three wait for 9 and none is a bar. If 8 decides for those before it, a walk from 8 alone is enough. If 8
//! waits for nobody, no walk comes to 9, and each task whose effects interfere with those of 9 is a bar.
ghost use Rattle.std.specs.Prelude.{◌≡◌, ◌≢◌, ◌≤◌, ◌<◌, ◌+◌, ◌↔◌, ℕ, false, length, IfNone, IfSome, IsTrue, Some, slice_get};
ghost use Rattle.twe_machine.specs.declared.queue.Queued.{Queued};
ghost use Rattle.machine_state.specs.declared.state.TaskStatus.TheVariants.{Made, Enabled};
ghost use Rattle.machine_state.specs.Legal.{Interfere, IsBar};
ghost use Rattle.twe_machine.specs.Queues.{AllWait, DecidesAt, IsQueued, IsDecided, IsNoBar};
ghost use Rattle.machine_state.specs.Rows.{EffectsAreFilled, HasStatus, LinksAgree};
ghost use Rattle.wait_graph.specs.Waiting.{IsDone, WaitsFor, WaitsOn, YieldsTo};

use crate::bars::{is_bar, meets};
use crate::queue::Queue;
use machine_state::State;

impl Queue {
    /// Some bar to the admission of `t` among the tasks, if there is one. It takes no memory.
    pub(crate) fn bar(&self, st: &State, t: u32) -> Option<u32>
        requires made { HasStatus st.now t Made }
        requires agree { LinksAgree st.now }
        requires filled { EffectsAreFilled st.now }
        requires decided { IsDecided st.now.links self.now.entries }
        ensures some { IfSome result (λ s. IsBar st.now s t) }
        ensures none { IfNone result ((s : ℕ) → IsQueued self.now.entries s → IsNoBar st.now t s) }
    {
        if let Some(s) = self.last_bar(st, t) {
            return Some(s);
        }
        let mut at = self.count_by_deciders(st, self.entries.len(), t, usize::MAX);
        'looking: while at < self.entries.len() {
            let next = self.passed_up_to(st, at, t);
            if next <= at {
                return Some(self.task_at(at));
            }
            at = next;
        }
        None
    }

    /// The last task, if it is a bar to the admission of `t`. It is looked at before the others, since it is a bar to most
    /// tasks that it has made and does not wait for yet.
    fn last_bar(&self, st: &State, t: u32) -> Option<u32>
        requires there { t < length st.now.tasks }
        requires linked { length st.now.links ≡ length st.now.tasks }
        requires filled { EffectsAreFilled st.now }
        ensures { IfSome result (λ s. IsBar st.now s t) }
    {
        let last = self.entries.as_slice().last()?;
        if bars(st, last.task, t) {
            Some(last.task)
        } else {
            None
        }
    }

    /// A place after `from`, if none of the tasks from there up to that place is a bar to the admission of `t`. It is `from`
    /// if the first of them is one.
    fn passed_up_to(&self, st: &State, from: usize, t: u32) -> usize
        requires there { from < length self.now.entries }
        requires made { HasStatus st.now t Made }
        requires agree { LinksAgree st.now }
        requires filled { EffectsAreFilled st.now }
        ensures bar { result ≤ from → (e : Queued) → slice_get self.now.entries from ≡ Some e → IsBar st.now e.task t }
        ensures passed { (i : ℕ) (e : Queued) → from ≤ i → i < result → slice_get self.now.entries i ≡ Some e
            → IsNoBar st.now t e.task }
    {
        // The length is read so that a proof may use that places fit.
        let _count = self.entries.len();
        let s = self.task_at(from);
        if !meets(st, s, t) {
            return from + 1;
        }
        let next = self.end_of_walk(st, from, t, usize::MAX);
        if next > from {
            return next;
        }
        if bars(st, s, t) { from } else { from + 1 }
    }

    /// Whether the tasks of the first `count` entries are all found to be done or to wait for `t`. At most `most` waits are followed
    /// from one of them.
    pub(crate) fn first_all_wait(&self, st: &State, count: usize, t: u32, most: usize) -> bool
        requires most { count ≤ length self.now.entries }
        requires decided { IsDecided st.now.links self.now.entries }
        ensures { IsTrue result → AllWait st.now.links self.now.entries 0 count t }
    {
        if !self.last_one_waits(st, count, t, most) {
            return false;
        }
        let mut at = self.count_by_deciders(st, count, t, most);
        'leading: while at < count {
            let next = self.end_of_walk(st, at, t, most);
            if next <= at {
                return false;
            }
            at = next;
        }
        true
    }

    /// Whether the last of the first `count` tasks waits for `t`, if there is one. It is looked at before the others, since it is the
    /// one that mostly does not.
    fn last_one_waits(&self, st: &State, count: usize, t: u32, most: usize) -> bool {
        count == 0 || is_found_to_wait(st, self.task_at(count - 1), t, most)
    }

    /// The place that the last of so many first entries names as that of one that decides, if it names one.
    pub(crate) fn decider_before(&self, count: usize) -> Option<usize>
        ensures { IfSome result (λ d. (i : ℕ) × (e : Queued) × (i + 1 ≡ count) × (slice_get self.now.entries i ≡ Some e)
            × (e.decider ≡ Some d)) }
    {
        if count == 0 {
            return None;
        }
        let entry = self.entries.get(count - 1)?;
        entry.decider
    }

    /// How many of the first tasks are known to be done or to wait for `t`: the last task that decides and is not done says it of
    /// those before it and of itself. Only the first `among` are looked at, and at most `most` waits are followed.
    fn count_by_deciders(&self, st: &State, among: usize, t: u32, most: usize) -> usize
        requires { IsDecided st.now.links self.now.entries }
        ensures { AllWait st.now.links self.now.entries 0 result t }
    {
        let mut count = among;
        'deciding: while let Some(at) = self.decider_before(count) {
            if at >= count || at >= self.entries.len() {
                return 0;
            }
            if !is_done(st, self.task_at(at)) {
                return self.count_by_decider_at(st, at, t, most);
            }
            count = at;
        }
        0
    }

    /// The same by the task at a place, which decides: those up to it if it waits for `t`, and else none.
    fn count_by_decider_at(&self, st: &State, at: usize, t: u32, most: usize) -> usize
        requires there { at < length self.now.entries }
        requires decides { DecidesAt st.now.links self.now.entries at }
        ensures { AllWait st.now.links self.now.entries 0 result t }
    {
        // The length is read so that a proof may use that places fit.
        let _count = self.entries.len();
        let s = self.task_at(at);
        if is_done(st, s) {
            return 0;
        }
        if is_found_to_wait(st, s, t, most) {
            at + 1
        } else {
            0
        }
    }

    /// The first place from `from` on that a walk along the waits does not pass. The walk begins at the task at `from` and follows at
    /// most `most` waits. The place is `from` if the walk does not come to `t`.
    fn end_of_walk(&self, st: &State, from: usize, t: u32, most: usize) -> usize
        requires { from < length self.now.entries }
        ensures { AllWait st.now.links self.now.entries from result t }
    {
        let mut at = self.task_at(from);
        let mut next = self.past(from, at);
        let mut left = most;
        // A task waits only for tasks with higher numbers.
        'walking: while at < t && left > 0 {
            let Some(on) = awaited_by(st, at) else {
                return from;
            };
            at = on;
            next = self.past(next, at);
            left -= 1;
        }
        if at == t { next } else { from }
    }

    /// The place after `place`, if this task is there, and else that place.
    fn past(&self, place: usize, t: u32) -> usize
        ensures on { place ≤ result }
        ensures task { (i : ℕ) (e : Queued) → place ≤ i → i < result → slice_get self.now.entries i ≡ Some e → e.task ≡ t }
    {
        if place < self.entries.len() && self.task_at(place) == t {
            place + 1
        } else {
            place
        }
    }
}

/// Whether a task of a queue is a bar to the admission of `t`.
fn bars(st: &State, s: u32, t: u32) -> bool
    requires there { t < length st.now.tasks }
    requires linked { length st.now.links ≡ length st.now.tasks }
    requires filled { EffectsAreFilled st.now }
    ensures bar { IsTrue result → IsBar st.now s t }
    ensures yields { result ≡ false → s ≢ t → HasStatus st.now s Enabled → Interfere st.now s t → YieldsTo st.now.links s t }
{
    s < st.links.task_count() && is_bar(st, s, t)
}

/// Whether a task is done.
fn is_done(st: &State, t: u32) -> bool
    ensures { IsTrue result ↔ IsDone st.now.links t }
{
    t < st.links.task_count() && st.links.link(t).done
}

/// Whether a task is found to wait for `t`, directly or through others, or is `t`. At most `most` waits are followed.
fn is_found_to_wait(st: &State, s: u32, t: u32, most: usize) -> bool
    ensures { IsTrue result → WaitsOn st.now.links s t }
{
    let mut at = s;
    let mut left = most;
    // A task waits only for tasks with higher numbers.
    'walking: while at < t && left > 0 {
        let Some(on) = awaited_by(st, at) else {
            return false;
        };
        at = on;
        left -= 1;
    }
    at == t
}

/// The task that a task waits for, if there is one.
fn awaited_by(st: &State, t: u32) -> Option<u32>
    ensures waits { IfSome result (WaitsFor st.now.links t) }
    ensures above { IfSome result (λ u. (t < u) × (u < length st.now.links)) }
{
    if t < st.links.task_count() {
        st.links.awaited(t)
    } else {
        None
    }
}
