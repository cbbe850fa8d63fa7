//! The elements of three paths at one position, and what has to hold for them to stand for a common one.
ghost use Rattle.std.specs.Prelude.{◌≡◌, ◌++◌, IfOk, OnOk, map};
ghost use Rattle.region_paths.specs.Filled.{elem_under};
ghost use Rattle.effect_meeting.specs.Solutions.{first_by, second_by};
ghost use Rattle.effect_meeting.specs.inner.Aligned.{one_under};
ghost use Rattle.effect_meeting.specs.inner.Columns.{column_equalities, columns, pair_equalities, solid_of, solid_or, solved_by};

use crate::equality::{Equalities, Equality, Term};
use crate::path_meeting::elem_equality;
use crate::solve::solved_value;
use region_paths::Elem;
use std::alloc::{AllocError, Global};
use twe_base::Memory;

/// The elements of three paths at one position. `None` stands for anything.
#[derive(Clone, Copy)]
pub struct Column {
    /// That of the first path.
    pub first: Option<Elem>,
    /// That of the second path.
    pub second: Option<Elem>,
    /// That of the third path, which has no variables.
    pub third: Option<Elem>,
}

/// Three lists as columns.
pub(crate) fn columns(
    alloc: Global,
    first: &[Option<Elem>],
    second: &[Option<Elem>],
    third: &[Option<Elem>],
) -> Result<Vec<Column>, AllocError>
    ensures { IfOk result (λ list. list.items ≡ columns first.now second.now third.now) }
{
    first
        .iter()
        .zip(second)
        .zip(third)
        .map(|((x, y), z)| Column {
            first: *x,
            second: *y,
            third: *z,
        })
        .collect(alloc)
}

/// Appends when two elements stand for a common one.
fn push_pair(list: &mut Equalities, first: Option<Elem>, second: Option<Elem>) -> Result<(), Memory>
    ensures { OnOk result (list.new ≡ list.old ++ pair_equalities first second) }
{
    match (first, second) {
        (Some(first), Some(second)) => list.push(elem_equality(first, second)),
        _ => Ok(()),
    }
}

/// Appends when the elements of a column stand for a common one.
pub(crate) fn push_column(list: &mut Equalities, column: Column) -> Result<(), Memory>
    ensures { OnOk result (list.new ≡ list.old ++ column_equalities column) }
{
    push_pair(list, column.first, column.second)?;
    push_pair(list, column.first, column.third)?;
    push_pair(list, column.third, column.second)
}

/// The element of the first path, with the value that the steps give it if it is a variable.
fn first_under(steps: &[Equality], elem: Option<Elem>) -> Option<Elem>
    ensures { result ≡ one_under (first_by steps.now) elem }
{
    match elem {
        None => None,
        Some(Elem::Name(n)) => Some(Elem::Name(n)),
        Some(Elem::Index(i)) => Some(Elem::Index(i)),
        Some(Elem::Var(k)) => Some(Elem::Index(solved_value(steps, Term::First(k)))),
        Some(Elem::AnyIndex) => Some(Elem::AnyIndex),
    }
}

/// The same of the second path.
fn second_under(steps: &[Equality], elem: Option<Elem>) -> Option<Elem>
    ensures { result ≡ one_under (second_by steps.now) elem }
{
    match elem {
        None => None,
        Some(Elem::Name(n)) => Some(Elem::Name(n)),
        Some(Elem::Index(i)) => Some(Elem::Index(i)),
        Some(Elem::Var(k)) => Some(Elem::Index(solved_value(steps, Term::Second(k)))),
        Some(Elem::AnyIndex) => Some(Elem::AnyIndex),
    }
}

/// The element, if it is a name or a literal index, or else the other one.
fn solid_or(elem: Option<Elem>, other: Elem) -> Elem
    ensures { result ≡ solid_or elem other }
{
    match elem {
        Some(Elem::Name(n)) => Elem::Name(n),
        Some(Elem::Index(i)) => Elem::Index(i),
        Some(Elem::Var(_)) => other,
        Some(Elem::AnyIndex) => other,
        None => other,
    }
}

/// The first of three elements that is a name or a literal index, or else index 0.
fn solid_of(first: Option<Elem>, second: Option<Elem>, third: Option<Elem>) -> Elem
    ensures { result ≡ solid_of first second third }
{
    solid_or(first, solid_or(second, solid_or(third, Elem::Index(0))))
}

/// What stands in a column, with the values that the steps give its variables.
fn solved_by(steps: &[Equality], column: Column) -> Elem
    ensures { result ≡ solved_by steps.now column }
{
    let first = first_under(steps, column.first);
    let second = second_under(steps, column.second);
    solid_of(first, second, column.third)
}

/// What stands in each of the columns.
pub(crate) fn all_solved_by(
    alloc: Global,
    steps: &[Equality],
    columns: &[Column],
) -> Result<Vec<Elem>, AllocError>
    ensures { IfOk result (λ list. list.items ≡ map (solved_by steps.now) columns.now) }
{
    columns
        .iter()
        .map(|column| solved_by(steps, *column))
        .collect(alloc)
}
