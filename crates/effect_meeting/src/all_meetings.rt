//! Where the effects of two declarations meet, and under which equalities.
ghost use Rattle.std.specs.Prelude.{◌≡◌, ◌++◌, IfOk, OnOk};
ghost use Rattle.effect_meeting.specs.Meetings.{AreMeetings};
ghost use Rattle.effect_meeting.specs.MeetingsOf.{meeting_of, meetings_from, meetings_of};

use crate::equality::Equalities;
use crate::path_meeting::effect_equalities;
use crate::solve::{can_hold, telling};
use effect_sets::{Effect, Summary};
use region_paths::Path;
use std::alloc::Global;
use twe_base::{List, Memory};

/// Where two effects meet.
#[derive(Debug, Drop)]
pub struct Meeting {
    /// The path of the first.
    pub path: Path,
    /// What has to hold for it. If there is nothing, they always meet.
    pub equalities: Equalities,
}

/// Meetings in the order of the effects.
pub type Meetings = List<Meeting>;

/// Adds the meeting of two effects, if there is one for some values.
fn add_meeting(found: &mut Meetings, alloc: Global, a: &Effect, b: &Effect) -> Result<(), Memory>
    ensures { OnOk result (found.new ≡ found.old ++ meeting_of a.now b.now) }
{
    let equalities = effect_equalities(alloc, a, b)?;
    if can_hold(alloc, equalities.as_slice())? {
        let equalities = telling(alloc, equalities.as_slice())?;
        let path = a.path.copy(alloc)?;
        found.push(Meeting { path, equalities })?;
    }
    Ok(())
}

/// Adds the meetings of one effect with these.
fn add_meetings(
    found: &mut Meetings,
    alloc: Global,
    a: &Effect,
    others: &[Effect],
) -> Result<(), Memory>
    ensures { OnOk result (found.new ≡ found.old ++ meetings_from others.now a.now) }
{
    for b in others {
        add_meeting(found, alloc, a, b)?;
    }
    Ok(())
}

/// The meetings of each of the effects with each of the others, in order.
fn meetings_in_order(alloc: Global, first: &[Effect], second: &[Effect]) -> Result<Meetings, Memory>
    ensures { IfOk result (λ found. found ≡ meetings_of first.now second.now) }
{
    let mut found = Meetings::new(alloc);
    for a in first {
        add_meetings(&mut found, alloc, a, second)?;
    }
    Ok(found)
}

/// All meetings of the effects of one declaration with those of another, for some values of the parameters of both. A
/// declaration and its own copy, with other arguments, are two.
///
/// There is none exactly if the effects never interfere. If there are some, the effects interfere exactly for the values for
/// which the equalities of one of them hold.
pub fn meetings_between(
    alloc: Global,
    first: &Summary,
    second: &Summary,
) -> Result<Meetings, Memory>
    ensures exact { IfOk result (λ found. found ≡ meetings_of first.now.effects second.now.effects) }
    ensures meet { IfOk result (AreMeetings first.now.effects second.now.effects) }
{
    meetings_in_order(alloc, first.effects.as_slice(), second.effects.as_slice())
}
