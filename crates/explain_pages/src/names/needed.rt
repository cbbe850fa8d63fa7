//! What people read of what a text needs at a place, and of what is there.
ghost use Rattle.std.specs.Prelude.{◌≡◌, ◌++◌, OnOk, IfOk, codes, nat_lt};
ghost use Rattle.std.specs.Fmt.{decimal};
ghost use Rattle.twe_base.specs.Language.{max_cells};
ghost use Rattle.name_check.specs.declared.binding.NameUse.TheVariants.{Future as FutureUse, Method as MethodUse};
ghost use Rattle.explain_pages.specs.names.Needed.{binding_words, cells_caption, cells_words, counts_caption, future_words, given_caption, global_words, indexed_words, local_words, main_caption, need_caption, new_caption, over_caption, over_words, params_words, returns_words, task_words, type_words, typed_caption, use_caption, use_words, used_caption, value_words, variable_words};

use itoa::Buffer;
use name_causes::{NameLimit, NameNeed};
use name_check::{Binding, Global as GlobalKind, Local, NameUse};
use twe_ast::{LocalType, ReturnType};
use twe_base::{Bytes, MAX_CELLS, MAX_EFFECTS, MAX_PARAMETERS, MAX_PATH_ELEMENTS, Memory};

/// An array or a grid, by its number of indexes.
fn indexed_words(indexes: u8) -> &'static [u8]
    ensures { result.now ≡ indexed_words indexes }
{
    if indexes == 1 { b"an array" } else { b"a grid" }
}

/// A future, by whether its task is spawned.
fn future_words(spawned: bool) -> &'static [u8]
    ensures { result.now ≡ future_words spawned }
{
    if spawned {
        b"a future of a spawn"
    } else {
        b"a future of an executeLater"
    }
}

/// A method, by whether its value is taken.
fn method_words(valued: bool) -> &'static [u8]
    ensures { result.now ≡ use_words (MethodUse 0 valued) }
{
    if valued {
        b"a method that returns an int"
    } else {
        b"a method"
    }
}

/// Appends a future that is needed.
fn push_future(text: &mut Bytes, join: bool, valued: bool) -> Result<(), Memory>
    ensures { OnOk result (text.new ≡ text.old ++ use_words (FutureUse join valued)) }
{
    text.push_all(future_words(join))?;
    if valued {
        text.push_all(b" whose task returns an int")?;
    }
    Ok(())
}

/// Appends what a use needs.
fn push_use(text: &mut Bytes, name_use: NameUse) -> Result<(), Memory>
    ensures { OnOk result (text.new ≡ text.old ++ use_words name_use) }
{
    match name_use {
        NameUse::Region => text.push_all(b"a region"),
        NameUse::Parameter => text.push_all(b"a parameter"),
        NameUse::Value => text.push_all(b"a cell, a parameter or a local"),
        NameUse::Target => text.push_all(b"a cell or a local that can be assigned"),
        NameUse::Array { indexes } => text.push_all(indexed_words(indexes)),
        NameUse::Method { valued, .. } => text.push_all(method_words(valued)),
        NameUse::Task { .. } => text.push_all(b"a task"),
        NameUse::Future { join, valued } => push_future(text, join, valued),
    }
}

/// A type.
fn type_words(local_type: LocalType) -> &'static [u8]
    ensures { result.now ≡ type_words local_type }
{
    match local_type {
        LocalType::Int => b"an int",
        LocalType::Boolean => b"a boolean",
    }
}

/// A parameter or a local, by its type and whether it can't be assigned.
fn variable_words(local_type: LocalType, constant: bool) -> &'static [u8]
    ensures { result.now ≡ variable_words local_type constant }
{
    match (local_type, constant) {
        (LocalType::Int, true) => b"a parameter or a final int local",
        (LocalType::Int, false) => b"an int local",
        (LocalType::Boolean, true) => b"a final boolean local",
        (LocalType::Boolean, false) => b"a boolean local",
    }
}

/// What something returns.
fn returns_words(returns: ReturnType) -> &'static [u8]
    ensures { result.now ≡ returns_words returns }
{
    match returns {
        ReturnType::Int => b"returns an int",
        ReturnType::Void => b"returns nothing",
    }
}

/// What the task of a future returns.
fn task_words(void: bool) -> &'static [u8]
    ensures { result.now ≡ task_words void }
{
    if void {
        b" whose task returns nothing"
    } else {
        b" whose task returns an int"
    }
}

/// Appends what is bound to a name inside a declaration.
fn push_local(text: &mut Bytes, local: Local) -> Result<(), Memory>
    ensures { OnOk result (text.new ≡ text.old ++ local_words local) }
{
    match local {
        Local::Variable {
            local_type,
            constant,
            ..
        } => text.push_all(variable_words(local_type, constant)),
        Local::Future { spawned, void, .. } => {
            text.push_all(future_words(spawned))?;
            text.push_all(task_words(void))
        }
    }
}

/// A cell, an array or a grid, by its number of indexes.
fn cells_words(indexes: u8) -> &'static [u8]
    ensures { result.now ≡ cells_words indexes }
{
    if indexes == 0 {
        b"a cell"
    } else {
        indexed_words(indexes)
    }
}

/// Appends these words, and what is returned.
fn push_returning(text: &mut Bytes, words: &[u8], returns: ReturnType) -> Result<(), Memory>
    ensures { OnOk result (text.new ≡ text.old ++ (words.now ++ returns_words returns)) }
{
    text.push_all(words)?;
    text.push_all(returns_words(returns))
}

/// Appends what is bound to a global name.
fn push_global(text: &mut Bytes, global: GlobalKind) -> Result<(), Memory>
    ensures { OnOk result (text.new ≡ text.old ++ global_words global) }
{
    match global {
        GlobalKind::Region(_) => text.push_all(b"a region"),
        GlobalKind::Cells { indexes, .. } => text.push_all(cells_words(indexes)),
        GlobalKind::Method { returns, .. } => push_returning(text, b"a method that ", returns),
        GlobalKind::Task { returns, .. } => push_returning(text, b"a task that ", returns),
    }
}

/// Appends what is bound to a name.
fn push_binding(text: &mut Bytes, binding: Binding) -> Result<(), Memory>
    ensures { OnOk result (text.new ≡ text.old ++ binding_words binding) }
{
    match binding {
        Binding::Local(local) => push_local(text, local),
        Binding::Global(global) => push_global(text, global),
    }
}

/// Appends what a use needs, and what the name is bound to, if it is in scope.
fn push_used(text: &mut Bytes, name_use: NameUse, found: Option<Binding>) -> Result<(), Memory>
    ensures { OnOk result (text.new ≡ text.old ++ used_caption name_use found) }
{
    text.push_all(b"needs ")?;
    push_use(text, name_use)?;
    match found {
        None => Ok(()),
        Some(found) => {
            text.push_all(b", and this is ")?;
            push_binding(text, found)
        }
    }
}

/// Appends how many parameters there are.
fn push_parameters(text: &mut Bytes, params: usize) -> Result<(), Memory>
    ensures { OnOk result (text.new ≡ text.old ++ (codes ", parameters: " ++ decimal params)) }
{
    text.push_all(b", parameters: ")?;
    text.push_all(Buffer::new().format(params).as_bytes())
}

/// Appends how many arguments are given, and how many parameters there are.
fn push_counts(text: &mut Bytes, args: usize, params: usize) -> Result<(), Memory>
    ensures { OnOk result (text.new ≡ text.old ++ counts_caption args params) }
{
    text.push_all(b"arguments: ")?;
    text.push_all(Buffer::new().format(args).as_bytes())?;
    push_parameters(text, params)
}

/// Appends what is given to a method or a task that is called or made.
fn push_given(text: &mut Bytes, name_use: NameUse, found: Option<Binding>) -> Result<(), Memory>
    ensures { OnOk result (text.new ≡ text.old ++ given_caption name_use found) }
{
    match (name_use, found) {
        (NameUse::Method { args, .. }, Some(Binding::Global(GlobalKind::Method { params, .. }))) =>
            push_counts(text, args, params),
        (NameUse::Task { args }, Some(Binding::Global(GlobalKind::Task { params, .. }))) => {
            push_counts(text, args, params)
        }
        _ => push_used(text, name_use, found),
    }
}

/// Appends the type that is needed, and the one that is there.
fn push_typed(text: &mut Bytes, need: LocalType, found: Option<LocalType>) -> Result<(), Memory>
    ensures { OnOk result (text.new ≡ text.old ++ typed_caption need found) }
{
    text.push_all(b"needs ")?;
    text.push_all(type_words(need))?;
    match found {
        None => Ok(()),
        Some(found) => {
            text.push_all(b", and this is ")?;
            text.push_all(type_words(found))
        }
    }
}

/// Appends that a new name is needed, and what this one is bound to.
fn push_taken(text: &mut Bytes, found: Binding) -> Result<(), Memory>
    ensures { OnOk result (text.new ≡ text.old ++ (codes "needs a new name, and this is " ++ binding_words found)) }
{
    text.push_all(b"needs a new name, and this is ")?;
    push_binding(text, found)
}

/// Appends what a new name is bound to already.
fn push_new(text: &mut Bytes, found: Option<Binding>) -> Result<(), Memory>
    ensures { OnOk result (text.new ≡ text.old ++ new_caption found) }
{
    match found {
        None => text.push_all(b"needs a new name"),
        Some(found) => push_taken(text, found),
    }
}

/// A `return` with a value, or without one.
fn value_words(valued: bool) -> &'static [u8]
    ensures { result.now ≡ value_words valued }
{
    if valued {
        b"has a value, and this body "
    } else {
        b"has no value, and this body "
    }
}

/// Appends how many there may be.
pub fn push_most(text: &mut Bytes, most: u64) -> Result<(), Memory>
    ensures { OnOk result (text.new ≡ text.old ++ (codes ", and at most " ++ decimal most)) }
{
    text.push_all(b", and at most ")?;
    text.push_all(Buffer::new().format(most).as_bytes())
}

/// Appends how many there are, and how many there may be.
fn push_of_most(text: &mut Bytes, count: u64, most: u64) -> Result<(), Memory>
    ensures { OnOk result (text.new ≡ text.old
        ++ (codes ": " ++ (decimal count ++ (codes ", and at most " ++ decimal most)))) }
{
    text.push_all(b": ")?;
    text.push_all(Buffer::new().format(count).as_bytes())?;
    push_most(text, most)
}

/// Appends how many there are, and how many there may be.
fn push_over_words(text: &mut Bytes, words: &[u8], count: u64, most: u64) -> Result<(), Memory>
    ensures { OnOk result (text.new ≡ text.old ++ over_words words.now count most) }
{
    text.push_all(words)?;
    push_of_most(text, count, most)
}

/// Whether there are more cells than a program may have.
fn has_many_cells(count: u64) -> bool
    ensures { result ≡ nat_lt max_cells count }
{
    count > u64::from(MAX_CELLS)
}

/// Appends how many cells there are, or that there are too many nodes.
fn push_cells(text: &mut Bytes, count: u64) -> Result<(), Memory>
    ensures { OnOk result (text.new ≡ text.old ++ cells_caption count) }
{
    if has_many_cells(count) {
        push_over_words(text, b"cells up to here", count, u64::from(MAX_CELLS))
    } else {
        text.push_all(b"nodes up to here: more than 131072")
    }
}

/// Appends how many there are of what is limited, and how many there may be.
fn push_over(text: &mut Bytes, limit: NameLimit, count: u64) -> Result<(), Memory>
    ensures { OnOk result (text.new ≡ text.old ++ over_caption limit count) }
{
    match limit {
        NameLimit::Cells => push_cells(text, count),
        NameLimit::Elements => push_over_words(
            text,
            b"elements of this path",
            count,
            MAX_PATH_ELEMENTS as u64,
        ),
        NameLimit::Effects => push_over_words(text, b"effects", count, MAX_EFFECTS as u64),
        NameLimit::Parameters => push_over_words(text, b"parameters", count, MAX_PARAMETERS as u64),
    }
}

/// Appends how many parameters a method or a task has.
fn push_params(text: &mut Bytes, global: GlobalKind) -> Result<(), Memory>
    ensures { OnOk result (text.new ≡ text.old ++ params_words global) }
{
    match global {
        GlobalKind::Method { params, .. } => push_parameters(text, params),
        GlobalKind::Task { params, .. } => push_parameters(text, params),
        GlobalKind::Region(_) => Ok(()),
        GlobalKind::Cells { .. } => Ok(()),
    }
}

/// Appends what the name `main` is bound to.
fn push_main(text: &mut Bytes, found: Option<GlobalKind>) -> Result<(), Memory>
    ensures { OnOk result (text.new ≡ text.old ++ main_caption found) }
{
    match found {
        None => text.push_all(b"nothing is named main"),
        Some(found) => {
            text.push_all(b"main is ")?;
            push_global(text, found)?;
            push_params(text, found)
        }
    }
}

/// Appends a use of a name, by the rule on numbers of arguments or by another.
fn push_use_by(
    text: &mut Bytes,
    counts: bool,
    name_use: NameUse,
    found: Option<Binding>,
) -> Result<(), Memory>
    ensures { OnOk result (text.new ≡ text.old ++ use_caption counts name_use found) }
{
    if counts {
        push_given(text, name_use, found)
    } else {
        push_used(text, name_use, found)
    }
}

/// Appends what is needed at a place, and what is there.
pub(crate) fn push_need(text: &mut Bytes, counts: bool, need: NameNeed) -> Result<(), Memory>
    ensures { OnOk result (text.new ≡ text.old ++ need_caption counts need) }
{
    match need {
        NameNeed::Used { name_use, found } => push_use_by(text, counts, name_use, found),
        NameNeed::Typed { need, found } => push_typed(text, need, found),
        NameNeed::New { found } => push_new(text, found),
        NameNeed::Returned { valued, returns } => {
            text.push_all(value_words(valued))?;
            text.push_all(returns_words(returns))
        }
        NameNeed::Again => {
            text.push_all(b"is declared before, or is Console, which each program has")
        }
        NameNeed::NoReturn { .. } => text.push_all(b"its body can end here"),
        NameNeed::Over { limit, count } => push_over(text, limit, count),
        NameNeed::NoMain { found } => push_main(text, found),
        NameNeed::SecondStar { .. } => text.push_all(b"is a second *"),
    }
}
