//! Texts of paths.
ghost use Rattle.std.specs.Prelude.{◌≡◌, ◌++◌, OnOk};
ghost use Rattle.twe_frontend.specs.meaning.PathTexts.{element_text, more_elements, name_at_number, parameter_at, path_text, star_text, starred_path_text};

use itoa::Buffer;
use region_paths::{Elem, Path};
use twe_ast::Name;
use twe_base::{Bytes, Memory, Word};

/// Appends the name of this number.
fn push_name(text: &mut Bytes, names: &[Word], number: u32) -> Result<(), Memory>
    ensures { OnOk result (text.new ≡ text.old ++ name_at_number names.now number) }
{
    match names.get(number as usize) {
        None => Ok(()),
        Some(name) => text.push_all(name.as_bytes()),
    }
}

/// Appends the name of the parameter of this number.
pub fn push_parameter(text: &mut Bytes, params: &[Name], number: u32) -> Result<(), Memory>
    ensures { OnOk result (text.new ≡ text.old ++ parameter_at params.now number) }
{
    match params.get(number as usize) {
        None => Ok(()),
        Some(name) => text.push_all(name.text.as_bytes()),
    }
}

/// Appends an element, as `D`, `[7]`, `[j]` or `[?]`.
fn push_element(
    text: &mut Bytes,
    regions: &[Word],
    params: &[Name],
    elem: Elem,
) -> Result<(), Memory>
    ensures { OnOk result (text.new ≡ text.old ++ element_text regions.now params.now elem) }
{
    match elem {
        Elem::Name(region) => push_name(text, regions, region),
        Elem::Index(index) => {
            text.push(b'[')?;
            text.push_all(Buffer::new().format(index).as_bytes())?;
            text.push(b']')
        }
        Elem::Var(param) => {
            text.push(b'[')?;
            push_parameter(text, params, param)?;
            text.push(b']')
        }
        Elem::AnyIndex => text.push_all(b"[?]"),
    }
}

/// Appends elements, each after `:`.
fn push_elements(
    text: &mut Bytes,
    regions: &[Word],
    params: &[Name],
    elems: &[Elem],
) -> Result<(), Memory>
    ensures { OnOk result (text.new ≡ text.old ++ more_elements regions.now params.now elems.now) }
{
    for elem in elems {
        text.push(b':')?;
        push_element(text, regions, params, *elem)?;
    }
    Ok(())
}

/// Appends a path, from its first region or from `Root` on.
pub fn push_path(
    text: &mut Bytes,
    regions: &[Word],
    params: &[Name],
    elems: &[Elem],
) -> Result<(), Memory>
    ensures { OnOk result (text.new ≡ text.old ++ path_text regions.now params.now elems.now) }
{
    match elems {
        [Elem::Name(region), rest @ ..] => {
            push_name(text, regions, *region)?;
            push_elements(text, regions, params, rest)
        }
        _ => {
            text.push_all(b"Root")?;
            push_elements(text, regions, params, elems)
        }
    }
}

/// Appends `:*` and the elements after it, if the path has a star.
fn push_star(
    text: &mut Bytes,
    regions: &[Word],
    params: &[Name],
    star: bool,
    tail: &[Elem],
) -> Result<(), Memory>
    ensures { OnOk result (text.new ≡ text.old ++ star_text regions.now params.now star tail.now) }
{
    if !star {
        return Ok(());
    }
    text.push_all(b":*")?;
    push_elements(text, regions, params, tail)
}

/// Appends a path with its star and what stands after it.
pub fn push_starred_path(
    text: &mut Bytes,
    regions: &[Word],
    params: &[Name],
    path: &Path,
) -> Result<(), Memory>
    ensures { OnOk result (text.new ≡ text.old ++ starred_path_text regions.now params.now path.now) }
{
    push_path(text, regions, params, path.elems().as_slice())?;
    push_star(text, regions, params, path.star(), path.tail().as_slice())
}
