//! A concrete path at which two paths meet.
ghost use Rattle.std.specs.Prelude.{◌≡◌, ◌↔◌, IfNone, IfOk, IfSome, IsTrue, length};
ghost use Rattle.region_paths.specs.Written.{PathIsWellFormed};
ghost use Rattle.std.specs.List.{flat_map};
ghost use Rattle.region_paths.specs.Filled.{Valuation};
ghost use Rattle.effect_meeting.specs.Equalities.{equalities_hold};
ghost use Rattle.effect_meeting.specs.Meeting.{AgreeBelow, IsWhereMet, NeverMeet};
ghost use Rattle.effect_meeting.specs.inner.Aligned.{has_length};
ghost use Rattle.effect_meeting.specs.inner.Columns.{IsForcedAlong, IsMetAlong, NeverMeetAlong, all_plain, column_equalities};

use crate::aligned::{anything, at_length, common_length, has_length};
use crate::column::{Column, all_solved_by, columns, push_column};
use crate::equality::{Equalities, Equality, Term};
use crate::met::Met;
use crate::solve::solution;
use crate::values::values_by;
use region_paths::{Elem, Elems, Path};
use std::alloc::Global;
use twe_base::Memory;

/// When the first variables, as many as this, have the same values in both paths.
fn agreeing(alloc: Global, shared: u32) -> Result<Equalities, Memory>
    ensures { IfOk result (λ list. (v w : Valuation) → IsTrue (equalities_hold v w list) ↔ AgreeBelow shared v w) }
{
    let mut list = Equalities::new(alloc);
    for number in 0..shared {
        list.push(Equality {
            left: Term::First(number),
            right: Term::Second(number),
        })?;
    }
    Ok(list)
}

/// When the elements of each column stand for a common one, and the shared variables have the same values.
fn column_equalities(alloc: Global, shared: u32, columns: &[Column]) -> Result<Equalities, Memory>
    ensures { IfOk result (λ list. (v w : Valuation) → IsTrue (equalities_hold v w list)
        ↔ (AgreeBelow shared v w × IsTrue (equalities_hold v w (flat_map column_equalities columns.now)))) }
{
    let mut list = agreeing(alloc, shared)?;
    for column in columns {
        push_column(&mut list, *column)?;
    }
    Ok(list)
}

/// A concrete path at which the paths meet, and for which the third list stands, if there is one. Both paths may have its length.
fn meeting_in_columns(
    alloc: Global,
    shared: u32,
    first: &Path,
    second: &Path,
    third: &[Option<Elem>],
) -> Result<Option<Met>, Memory>
    requires plain { IsTrue (all_plain third.now) }
    requires first_fits { IsTrue (has_length first.now (length third.now)) }
    requires second_fits { IsTrue (has_length second.now (length third.now)) }
    requires first_formed { PathIsWellFormed first.now }
    requires second_formed { PathIsWellFormed second.now }
    ensures found { IfOk result (λ found. IfSome found (IsMetAlong shared first.now second.now third.now)) }
    ensures forced { IfOk result (λ found. IfSome found (IsForcedAlong shared first.now second.now third.now)) }
    ensures none { IfOk result (λ found. IfNone found (NeverMeetAlong shared first.now second.now third.now)) }
{
    let long = third.len();
    let xs = at_length(alloc, first, long)?;
    let ys = at_length(alloc, second, long)?;
    let columns = columns(alloc, xs.as_slice(), ys.as_slice(), third)?;
    let equalities = column_equalities(alloc, shared, columns.as_slice())?;
    match solution(alloc, equalities.as_slice())? {
        None => Ok(None),
        Some(steps) => {
            let elems = all_solved_by(alloc, steps.as_slice(), columns.as_slice())?;
            let values = values_by(alloc, shared, first, second, steps.as_slice())?;
            Ok(Some(Met {
                elems: Elems::from(elems),
                values,
            }))
        }
    }
}

/// A concrete path at which the paths meet, and for which the third list stands, if there is one.
pub(crate) fn meeting_along(
    alloc: Global,
    shared: u32,
    first: &Path,
    second: &Path,
    third: &[Option<Elem>],
) -> Result<Option<Met>, Memory>
    requires { IsTrue (all_plain third.now) }
    ensures found { IfOk result (λ found. IfSome found (IsMetAlong shared first.now second.now third.now)) }
    ensures forced { IfOk result (λ found. IfSome found (IsForcedAlong shared first.now second.now third.now)) }
    ensures none { IfOk result (λ found. IfNone found (NeverMeetAlong shared first.now second.now third.now)) }
{
    if !has_length(first, third.len()) {
        return Ok(None);
    }
    if !has_length(second, third.len()) {
        return Ok(None);
    }
    meeting_in_columns(alloc, shared, first, second, third)
}

/// The elements of a concrete path at which the paths meet: it is in both for some values of their variables. The first
/// variables, as many as are shared, are parameters, and have one value each: those of the parameters that stand in the paths are
/// told. `None` is returned if and only if the paths meet nowhere, whatever the values. The cost is at most the square of the
/// number of the parameters and of the elements of the longer path together.
pub fn meeting_path(
    alloc: Global,
    shared: u32,
    first: &Path,
    second: &Path,
) -> Result<Option<Met>, Memory>
    ensures found { IfOk result (λ found. IfSome found (IsWhereMet shared first.now second.now)) }
    ensures none { IfOk result (λ found. IfNone found (NeverMeet shared first.now second.now)) }
{
    let anything = anything(alloc, common_length(first, second))?;
    meeting_along(alloc, shared, first, second, anything.as_slice())
}
