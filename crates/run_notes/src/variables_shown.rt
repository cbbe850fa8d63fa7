//! The values of the variables that were in scope at a fault.
ghost use Rattle.std.specs.Prelude.{◌≡◌, ◌-◌, ◌++◌, IfOk, OnOk, drop, length, option_copied};
ghost use Rattle.seg_meaning.specs.Arithmetic.{is_true};
ghost use Rattle.run_notes.specs.VariablesShown.{active_decl, at_fault_remarks, at_fault_text, decl_of_row, items_of, later_texts, listed_texts, more_words, most_variables, snapshot_remarks, shown_in_scope, truth_text, variable_shown, variable_value, variables_of_decl, variables_shown};

use crate::body_variables::{BodyVariable, body_variables_at};
use itoa::Buffer;
use machine_state::TaskRow;
use seg_exec::FaultSnapshot;
use seg_meaning::ActiveCall;
use std::alloc::Global;
use twe_ast::{Ast, Item};
use twe_base::{Bytes, List, Memory, Place};
use twe_program::{Decl, Prog};

/// Of how many variables the values are shown at most.
const MOST_VARIABLES: usize = 8;

/// A truth value as it is written in a text.
fn truth_text(value: i32) -> &'static [u8]
    ensures { result.now ≡ truth_text (is_true value) }
{
    if value == 0 { b"false" } else { b"true" }
}

/// Appends the value of a variable, which holds a truth value or a number.
fn push_value(text: &mut Bytes, boolean: bool, value: i32) -> Result<(), Memory>
    ensures { OnOk result (text.new ≡ text.old ++ variable_value boolean value) }
{
    if boolean {
        text.push_all(truth_text(value))
    } else {
        text.push_all(Buffer::new().format(value).as_bytes())
    }
}

/// What a variable holds.
fn variable_shown(alloc: Global, variable: &BodyVariable, value: i32) -> Result<Bytes, Memory>
    ensures { IfOk result (λ text. text ≡ variable_shown variable.now value) }
{
    let mut text = Bytes::from_slice(alloc, b"`")?;
    text.push_all(variable.name.text.as_bytes())?;
    text.push_all(b"` is ")?;
    push_value(&mut text, variable.boolean, value)?;
    Ok(text)
}

/// Adds what a variable holds, if it is in scope.
fn push_in_scope(
    texts: &mut List<Bytes>,
    alloc: Global,
    variable: &BodyVariable,
    value: i32,
) -> Result<(), Memory>
    ensures { OnOk result (texts.new ≡ texts.old ++ shown_in_scope variable.now value) }
{
    if variable.in_scope {
        texts.push(variable_shown(alloc, variable, value)?)
    } else {
        Ok(())
    }
}

/// What the variables in scope hold, by their numbers.
fn variables_shown(
    alloc: Global,
    variables: &[BodyVariable],
    values: &[i32],
) -> Result<List<Bytes>, Memory>
    ensures { IfOk result (λ texts. texts ≡ variables_shown variables.now values.now) }
{
    let mut texts = List::new(alloc);
    let mut left = values;
    for variable in variables {
        match left {
            [] => return Ok(texts),
            [value, others @ ..] => {
                push_in_scope(&mut texts, alloc, variable, *value)?;
                left = others;
            }
        }
    }
    Ok(texts)
}

/// Appends texts, each after `, `.
fn push_later_texts(text: &mut Bytes, texts: &[Bytes]) -> Result<(), Memory>
    ensures { OnOk result (text.new ≡ text.old ++ later_texts texts.now) }
{
    for other in texts {
        text.push_all(b", ")?;
        text.push_all(other.as_slice())?;
    }
    Ok(())
}

/// Appends texts with `, ` between them.
fn push_listed_texts(text: &mut Bytes, texts: &[Bytes]) -> Result<(), Memory>
    ensures { OnOk result (text.new ≡ text.old ++ listed_texts texts.now) }
{
    match texts {
        [first, others @ ..] => {
            text.push_all(first.as_slice())?;
            push_later_texts(text, others)
        }
        [] => Ok(()),
    }
}

/// Appends how many variables are left out, if some are: those that are declared before the others.
fn push_more(text: &mut Bytes, count: usize) -> Result<(), Memory>
    ensures { OnOk result (text.new ≡ text.old ++ more_words count) }
{
    if MOST_VARIABLES < count {
        text.push_all(b", and ")?;
        text.push_all(Buffer::new().format(count - MOST_VARIABLES).as_bytes())?;
        text.push_all(b" declared earlier")?;
    }
    Ok(())
}

/// The last texts, as many as are shown: those of the variables that are declared nearest to the fault.
fn shown_texts(texts: &[Bytes]) -> &[Bytes]
    ensures { result.now ≡ drop (length texts.now - most_variables) texts.now }
{
    &texts[texts.len().saturating_sub(MOST_VARIABLES)..]
}

/// What the variables hold at the place of the fault.
fn at_fault_text(alloc: Global, texts: &[Bytes]) -> Result<Bytes, Memory>
    ensures { IfOk result (λ text. text ≡ at_fault_text texts.now) }
{
    let mut text = Bytes::from_slice(alloc, b"at the fault ")?;
    push_listed_texts(&mut text, shown_texts(texts))?;
    push_more(&mut text, texts.len())?;
    Ok(text)
}

/// Adds what the variables hold at the place of the fault, if there are some.
fn push_at_fault(remarks: &mut List<Bytes>, alloc: Global, texts: &[Bytes]) -> Result<(), Memory>
    ensures { OnOk result (remarks.new ≡ remarks.old ++ at_fault_remarks texts.now) }
{
    match texts {
        [] => Ok(()),
        [_, ..] => remarks.push(at_fault_text(alloc, texts)?),
    }
}

/// The declaration of a task.
fn decl_of_row<'a>(p: &'a Prog, row: Option<&TaskRow>) -> Option<&'a Decl>
    ensures { option_copied result ≡ decl_of_row p.now (option_copied row.entry) }
{
    match row {
        None => None,
        Some(row) => p.tasks.get(row.decl as usize),
    }
}

/// The declaration whose body is active in a task.
fn active_decl<'a>(p: &'a Prog, row: Option<&TaskRow>, calls: &[ActiveCall]) -> Option<&'a Decl>
    ensures { option_copied result ≡ active_decl p.now (option_copied row.entry) calls.now }
{
    match calls {
        [] => decl_of_row(p, row),
        [call, ..] => p.methods.get(call.method as usize),
    }
}

/// The variables of a declaration that was looked up.
fn variables_of_decl(
    alloc: Global,
    items: &[Item],
    place: Place,
    decl: Option<&Decl>,
) -> Result<List<BodyVariable>, Memory>
    ensures { IfOk result (λ variables. variables ≡ variables_of_decl items.now place (option_copied decl.entry)) }
{
    match decl {
        None => Ok(List::new(alloc)),
        Some(decl) => {
            let variables = body_variables_at(alloc, place, decl.place, items)?;
            Ok(variables)
        }
    }
}

/// The declarations of a tree that was looked for.
pub(crate) fn items_of(tree: &Option<Ast>) -> &[Item]
    ensures { result.now ≡ items_of tree.now }
{
    match tree {
        None => &[],
        Some(tree) => tree.items.as_slice(),
    }
}

/// What the variables in scope hold in a snapshot, at a fault of a task of this row at the place.
fn snapshot_texts(
    alloc: Global,
    p: &Prog,
    row: Option<&TaskRow>,
    items: &[Item],
    place: Place,
    snapshot: &FaultSnapshot,
) -> Result<List<Bytes>, Memory>
    ensures { IfOk result (λ texts. texts ≡ variables_shown
        (variables_of_decl items.now place (active_decl p.now (option_copied row.entry) snapshot.now.calls)) snapshot.now.vars) }
{
    let decl = active_decl(p, row, snapshot.calls.as_slice());
    let variables = variables_of_decl(alloc, items, place, decl)?;
    let texts = variables_shown(alloc, variables.as_slice(), snapshot.vars.as_slice())?;
    Ok(texts)
}

/// Adds what the variables in scope hold at a fault of a task of this row at the place.
pub(crate) fn push_snapshot_remarks(
    remarks: &mut List<Bytes>,
    alloc: Global,
    p: &Prog,
    row: Option<&TaskRow>,
    items: &[Item],
    place: Place,
    snapshot: &Option<FaultSnapshot>,
) -> Result<(), Memory>
    ensures { OnOk result (remarks.new ≡ remarks.old
        ++ snapshot_remarks p.now (option_copied row.entry) items.now place snapshot.now) }
{
    match snapshot {
        None => Ok(()),
        Some(snapshot) => {
            let texts = snapshot_texts(alloc, p, row, items, place, snapshot)?;
            push_at_fault(remarks, alloc, texts.as_slice())
        }
    }
}
