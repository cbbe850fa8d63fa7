//! What is said of where two effects meet.
ghost use Rattle.std.specs.Prelude.{◌≡◌, ◌∷◌, ◌++◌, [], IfOk, OnOk, None, Some};
ghost use Rattle.std.specs.List.{All, flat_map};
ghost use Rattle.effect_meeting.specs.Always.{deciding_local};
ghost use Rattle.effect_meeting.specs.Cells.{IsNeverMet};
ghost use Rattle.explain_pages.specs.names.Variables.{is_same_place};
ghost use Rattle.refusal_notes.specs.Meetings.{IsMeetingTold, MeetingDue, ParametersDecide, all_values_of, all_values_text, both_paths_text, cell_index_text, cell_met_text, condition_text, given_text, more_given_texts, more_named_texts, named_text, nowhere_text, params_at, quoted_path, quoted_written, touch_text, undecided_end, undecided_text, verb_text, whatever_all, whatever_one, whatever_text, writers_text};

use effect_meeting::{
    CellMet, Met, ParamValue, always_interfere, deciding_local, first_cell, meeting_path,
};
use effect_sets::Effect;
use explain_pages::is_same_place;
use itoa::Buffer;
use refusal_causes::RuleCause;
use region_paths::{Elem, Path};
use std::alloc::Global;
use twe_ast::Name;
use twe_base::{Bytes, List, Memory, Place, Word};
use twe_frontend::{push_parameter, push_path, push_starred_path};
use twe_program::{CellDecl, Decl, Prog};

/// How many parameters the first of the declarations has whose name is at the place.
fn params_at(decls: &[Decl], place: Place) -> u32
    ensures { result ≡ params_at decls.now place }
{
    for decl in decls {
        if is_same_place(decl.place, place) {
            return decl.params;
        }
    }
    0
}

/// Which of both effects writes.
fn writers_text(need: bool, other: bool) -> &'static [u8]
    ensures { result.now ≡ writers_text need other }
{
    if !need {
        b", and the spawned task writes it"
    } else if other {
        b", and both write it"
    } else {
        b", and what is needed here writes it"
    }
}

/// Appends an index of a cell in brackets.
fn push_index(text: &mut Bytes, elem: Elem) -> Result<(), Memory>
    ensures { OnOk result (text.new ≡ text.old ++ cell_index_text elem) }
{
    match elem {
        Elem::Index(value) => {
            text.push_all(b"[")?;
            text.push_all(Buffer::new().format(value).as_bytes())?;
            text.push_all(b"]")
        }
        Elem::Name(_) => Ok(()),
        Elem::Var(_) => Ok(()),
        Elem::AnyIndex => Ok(()),
    }
}

/// Appends the indexes of a cell.
fn push_indexes(text: &mut Bytes, elems: &[Elem]) -> Result<(), Memory>
    ensures { OnOk result (text.new ≡ text.old ++ flat_map cell_index_text elems.now) }
{
    for elem in elems {
        push_index(text, *elem)?;
    }
    Ok(())
}

/// The cell as it is written: its name, and its indexes.
fn cell_met_text(alloc: Global, cells: &[CellDecl], met: &CellMet) -> Result<Bytes, Memory>
    ensures { IfOk result (λ text. text ≡ cell_met_text cells.now met.now) }
{
    let mut text = Bytes::new(alloc);
    if let Some(decl) = cells.get(met.decl) {
        text.push_all(decl.name.as_bytes())?;
    }
    push_indexes(&mut text, met.indexes.as_slice())?;
    Ok(text)
}

/// Appends the name of a variable between accents.
fn push_named(text: &mut Bytes, variables: &[Name], number: u32) -> Result<(), Memory>
    ensures { OnOk result (text.new ≡ text.old ++ named_text variables.now number) }
{
    text.push(b'`')?;
    push_parameter(text, variables, number)?;
    text.push(b'`')
}

/// Appends a parameter and its value.
fn push_given(text: &mut Bytes, variables: &[Name], given: ParamValue) -> Result<(), Memory>
    ensures { OnOk result (text.new ≡ text.old ++ given_text variables.now given) }
{
    push_named(text, variables, given.param)?;
    text.push_all(b" is ")?;
    text.push_all(Buffer::new().format(given.value).as_bytes())
}

/// Appends the other parameters with their values.
fn push_more_given(
    text: &mut Bytes,
    variables: &[Name],
    values: &[ParamValue],
) -> Result<(), Memory>
    ensures { OnOk result (text.new ≡ text.old ++ more_given_texts variables.now values.now) }
{
    for given in values {
        text.push_all(b" and ")?;
        push_given(text, variables, *given)?;
    }
    Ok(())
}

/// Appends for which values of parameters, if there are any.
fn push_condition(text: &mut Bytes, variables: &[Name], values: &[ParamValue]) -> Result<(), Memory>
    ensures { OnOk result (text.new ≡ text.old ++ condition_text variables.now values.now) }
{
    match values {
        [] => Ok(()),
        [given, others @ ..] => {
            text.push_all(b" if ")?;
            push_given(text, variables, *given)?;
            push_more_given(text, variables, others)
        }
    }
}

/// Appends the names of the other parameters.
fn push_more_named(
    text: &mut Bytes,
    variables: &[Name],
    values: &[ParamValue],
) -> Result<(), Memory>
    ensures { OnOk result (text.new ≡ text.old ++ more_named_texts variables.now values.now) }
{
    for given in values {
        text.push_all(b" and ")?;
        push_named(text, variables, given.param)?;
    }
    Ok(())
}

/// Appends that the effects meet whatever this parameter is.
#[tactic(auto, unfolding(crate::specs::Meetings::whatever_one))]
fn push_whatever_one(text: &mut Bytes, variables: &[Name], given: ParamValue) -> Result<(), Memory>
    ensures { OnOk result (text.new ≡ text.old ++ whatever_one variables.now given) }
{
    text.push_all(b"whatever ")?;
    push_named(text, variables, given.param)
}

/// Appends the same of a parameter and of others.
#[tactic(auto, unfolding(crate::specs::Meetings::whatever_all))]
fn push_whatever_all(
    text: &mut Bytes,
    variables: &[Name],
    given: ParamValue,
    others: &[ParamValue],
) -> Result<(), Memory>
    ensures { OnOk result (text.new ≡ text.old ++ whatever_all variables.now given others.now) }
{
    push_whatever_one(text, variables, given)?;
    push_more_named(text, variables, others)
}

/// Appends the verb after the names of one parameter and of these.
#[tactic(auto, unfolding(crate::specs::Meetings::verb_text))]
fn push_verb(text: &mut Bytes, values: &[ParamValue]) -> Result<(), Memory>
    ensures { OnOk result (text.new ≡ text.old ++ verb_text values.now) }
{
    match values {
        [] => text.push_all(b" is, the effects meet: "),
        [_, ..] => text.push_all(b" are, the effects meet: "),
    }
}

/// Appends that the effects meet for all values of a parameter and of others.
#[tactic(auto, unfolding(crate::specs::Meetings::all_values_of))]
fn push_all_values_of(
    text: &mut Bytes,
    variables: &[Name],
    given: ParamValue,
    others: &[ParamValue],
) -> Result<(), Memory>
    ensures { OnOk result (text.new ≡ text.old ++ all_values_of variables.now given others.now) }
{
    push_whatever_all(text, variables, given, others)?;
    push_verb(text, others)
}

/// Appends the same of these parameters, if there are any.
fn push_all_values(
    text: &mut Bytes,
    variables: &[Name],
    values: &[ParamValue],
) -> Result<(), Memory>
    ensures { OnOk result (text.new ≡ text.old ++ all_values_text variables.now values.now) }
{
    match values {
        [] => Ok(()),
        [given, others @ ..] => push_all_values_of(text, variables, *given, others),
    }
}

/// Appends the same, if it is so.
fn push_whatever(
    text: &mut Bytes,
    variables: &[Name],
    always: bool,
    values: &[ParamValue],
) -> Result<(), Memory>
    ensures { OnOk result (text.new ≡ text.old ++ whatever_text variables.now always values.now) }
{
    if always {
        push_all_values(text, variables, values)
    } else {
        Ok(())
    }
}

/// Whether the effects meet for all values, that both may touch this, for which values of parameters, and who writes it.
fn touch_text(
    alloc: Global,
    variables: &[Name],
    always: bool,
    what: &[u8],
    values: &[ParamValue],
    need: &Effect,
    other: &Effect,
) -> Result<Bytes, Memory>
    ensures { IfOk result (λ text. text ≡ touch_text variables.now always what.now values.now need.now other.now) }
{
    let mut text = Bytes::new(alloc);
    push_whatever(&mut text, variables, always, values)?;
    text.push_all(b"both may touch ")?;
    text.push_all(what)?;
    push_condition(&mut text, variables, values)?;
    text.push_all(writers_text(need.write, other.write))?;
    Ok(text)
}

/// A path between accents.
fn quoted_path(alloc: Global, regions: &[Word], elems: &[Elem]) -> Result<Bytes, Memory>
    ensures { IfOk result (λ text. text ≡ quoted_path regions.now elems.now) }
{
    let mut text = Bytes::from_slice(alloc, b"`")?;
    push_path(&mut text, regions, &[], elems)?;
    text.push(b'`')?;
    Ok(text)
}

/// Appends a path between accents, with its variables and its star.
#[tactic(auto, unfolding(crate::specs::Meetings::quoted_written))]
fn push_written(
    text: &mut Bytes,
    regions: &[Word],
    variables: &[Name],
    path: &Path,
) -> Result<(), Memory>
    ensures { OnOk result (text.new ≡ text.old ++ quoted_written regions.now variables.now path.now) }
{
    text.push(b'`')?;
    push_starred_path(text, regions, variables, path)?;
    text.push(b'`')
}

/// Appends the paths of both effects: that of the spawned task, and that of what is needed.
#[tactic(auto, unfolding(crate::specs::Meetings::both_paths_text))]
fn push_both_paths(
    text: &mut Bytes,
    regions: &[Word],
    variables: &[Name],
    need: &Effect,
    other: &Effect,
) -> Result<(), Memory>
    ensures { OnOk result (text.new ≡ text.old ++ both_paths_text regions.now variables.now need.now other.now) }
{
    push_written(text, regions, variables, &other.path)?;
    text.push_all(b" and ")?;
    push_written(text, regions, variables, &need.path)
}

/// Appends what the rule does not know.
#[tactic(auto, unfolding(crate::specs::Meetings::undecided_end))]
fn push_undecided_end(text: &mut Bytes, variables: &[Name], local: u32) -> Result<(), Memory>
    ensures { OnOk result (text.new ≡ text.old ++ undecided_end variables.now local) }
{
    text.push_all(b" apart: it takes ")?;
    push_named(text, variables, local)?;
    text.push_all(b" as unknown")
}

/// That the effects meet, or not, by the value of this local, which the rule does not know.
fn undecided_text(
    alloc: Global,
    regions: &[Word],
    variables: &[Name],
    local: u32,
    need: &Effect,
    other: &Effect,
) -> Result<Bytes, Memory>
    ensures { IfOk result (λ text. text ≡ undecided_text regions.now variables.now local need.now other.now) }
{
    let mut text = Bytes::from_slice(alloc, b"the rule cannot tell ")?;
    push_both_paths(&mut text, regions, variables, need, other)?;
    push_undecided_end(&mut text, variables, local)?;
    Ok(text)
}

/// That the effects meet nowhere.
fn nowhere_text(alloc: Global) -> Result<Bytes, Memory>
    ensures { IfOk result (λ text. text ≡ nowhere_text) }
{
    let text = b"no place is in both: the rule compares paths index by index";
    Bytes::from_slice(alloc, text)
}

/// What is said if this local decides whether the effects meet.
fn local_remark(
    alloc: Global,
    regions: &[Word],
    cells: &[CellDecl],
    variables: &[Name],
    shared: u32,
    local: u32,
    need: &Effect,
    other: &Effect,
) -> Result<Bytes, Memory>
    requires { deciding_local shared need.now other.now ≡ Some local }
    ensures { IfOk result (MeetingDue regions.now cells.now variables.now shared need.now other.now) }
{
    let _ = cells;
    match meeting_path(alloc, shared, &need.path, &other.path)? {
        None => {
            let text = nowhere_text(alloc)?;
            Ok(text)
        }
        Some(_met) => {
            let text = undecided_text(alloc, regions, variables, local, need, other)?;
            Ok(text)
        }
    }
}

/// That both effects may touch a path, and who writes it.
fn path_touched(
    alloc: Global,
    regions: &[Word],
    variables: &[Name],
    always: bool,
    met: &Met,
    need: &Effect,
    other: &Effect,
) -> Result<Bytes, Memory>
    ensures { IfOk result (λ text. text
        ≡ touch_text variables.now always (quoted_path regions.now met.now.elems) met.now.values need.now other.now) }
{
    let path = quoted_path(alloc, regions, met.elems.as_slice())?;
    let values = met.values.as_slice();
    touch_text(
        alloc,
        variables,
        always,
        path.as_slice(),
        values,
        need,
        other,
    )
}

/// That both effects may touch a cell, and who writes it.
fn cell_touched(
    alloc: Global,
    cells: &[CellDecl],
    variables: &[Name],
    always: bool,
    met: &CellMet,
    need: &Effect,
    other: &Effect,
) -> Result<Bytes, Memory>
    ensures { IfOk result (λ text. text
        ≡ touch_text variables.now always (cell_met_text cells.now met.now) met.now.values need.now other.now) }
{
    let cell = cell_met_text(alloc, cells, met)?;
    let values = met.values.as_slice();
    touch_text(
        alloc,
        variables,
        always,
        cell.as_slice(),
        values,
        need,
        other,
    )
}

/// What is said of a path at which the effects meet, or that there is none, if they meet at no cell.
fn path_remark(
    alloc: Global,
    regions: &[Word],
    cells: &[CellDecl],
    variables: &[Name],
    shared: u32,
    always: bool,
    need: &Effect,
    other: &Effect,
) -> Result<Bytes, Memory>
    requires decide { ParametersDecide shared need.now other.now always }
    requires no_cell { All (IsNeverMet shared need.now.path other.now.path) cells.now }
    ensures { IfOk result (MeetingDue regions.now cells.now variables.now shared need.now other.now) }
{
    let _ = cells;
    match meeting_path(alloc, shared, &need.path, &other.path)? {
        None => {
            let text = nowhere_text(alloc)?;
            Ok(text)
        }
        Some(met) => {
            let text = path_touched(alloc, regions, variables, always, &met, need, other)?;
            Ok(text)
        }
    }
}

/// What is said if the parameters decide whether the effects meet.
fn parameters_remark(
    alloc: Global,
    regions: &[Word],
    cells: &[CellDecl],
    variables: &[Name],
    shared: u32,
    need: &Effect,
    other: &Effect,
) -> Result<Bytes, Memory>
    requires { deciding_local shared need.now other.now ≡ None }
    ensures { IfOk result (MeetingDue regions.now cells.now variables.now shared need.now other.now) }
{
    let always = always_interfere(alloc, shared, need, other)?;
    match first_cell(alloc, shared, &need.path, &other.path, cells)? {
        None => path_remark(
            alloc, regions, cells, variables, shared, always, need, other,
        ),
        Some(met) => {
            let text = cell_touched(alloc, cells, variables, always, &met, need, other)?;
            Ok(text)
        }
    }
}

/// What is said of where the effects meet.
fn meeting_remark(
    alloc: Global,
    regions: &[Word],
    cells: &[CellDecl],
    variables: &[Name],
    shared: u32,
    need: &Effect,
    other: &Effect,
) -> Result<Bytes, Memory>
    ensures { IfOk result (MeetingDue regions.now cells.now variables.now shared need.now other.now) }
{
    match deciding_local(alloc, shared, need, other)? {
        None => parameters_remark(alloc, regions, cells, variables, shared, need, other),
        Some(local) => {
            local_remark(alloc, regions, cells, variables, shared, local, need, other)
        }
    }
}

/// Appends what is said of where the effects of a cause meet, if it has two, whose variables have these names.
pub(crate) fn tell_meeting(
    remarks: &mut List<Bytes>,
    alloc: Global,
    p: &Prog,
    variables: &[Name],
    cause: &RuleCause,
) -> Result<(), Memory>
    ensures { OnOk result (IsMeetingTold p.now variables.now cause.now remarks.old remarks.new) }
{
    match cause {
        RuleCause::Out {
            need,
            other,
            decl_place,
            ..
        } => {
            let shared = params_at(p.tasks.as_slice(), *decl_place);
            let regions = p.regions.as_slice();
            let cells = p.cells.as_slice();
            let remark = meeting_remark(alloc, regions, cells, variables, shared, need, other)?;
            remarks.push(remark)
        }
        RuleCause::Undeclared { .. } => Ok(()),
        RuleCause::NotOut { .. } => Ok(()),
        RuleCause::OutAgain { .. } => Ok(()),
        RuleCause::OrderOpen { .. } => Ok(()),
        RuleCause::NotDeterministic { .. } => Ok(()),
    }
}
