//! The shapes of a picture, each on a line of its own.
ghost use Rattle.std.specs.Prelude.{◌≡◌, ◌++◌, IfOk, OnOk, []};
ghost use Rattle.twe_draw.specs.picture.Elements.{after_attributes};
ghost use Rattle.twe_draw.specs.picture.Shapes.{box_around, box_attributes, plain_box, row_line, row_path, title_element, titled_box, upright, upright_path, words_at};

use crate::picture::elements::{push_attribute, push_escaped, push_measure};
use itoa::Buffer;
use std::alloc::Global;
use twe_base::{Bytes, Memory};

/// Appends the attributes of a box of this class.
fn push_box_attributes(
    text: &mut Bytes,
    class: &[u8],
    left: u128,
    top: u128,
    width: u128,
) -> Result<(), Memory>
    ensures { OnOk result (text.new ≡ text.old ++ after_attributes (box_attributes class.now left top width) []) }
{
    push_attribute(text, b"class", class)?;
    push_measure(text, b"x", left)?;
    push_measure(text, b"y", top)?;
    push_measure(text, b"width", width)?;
    push_measure(text, b"height", 14)
}

/// Appends a box of this class.
#[tactic(auto, unfolding(crate::specs::picture::Shapes::plain_box))]
pub fn push_plain_box(
    text: &mut Bytes,
    class: &[u8],
    left: u128,
    top: u128,
    width: u128,
) -> Result<(), Memory>
    ensures { OnOk result (text.new ≡ text.old ++ plain_box class.now left top width) }
{
    text.push_all(b"<rect")?;
    push_box_attributes(text, class, left, top, width)?;
    text.push_all(b"/>\n")
}

/// Appends a title.
pub fn push_title_element(text: &mut Bytes, title: &[u8]) -> Result<(), Memory>
    ensures { OnOk result (text.new ≡ text.old ++ title_element title.now) }
{
    text.push_all(b"<title>")?;
    push_escaped(text, title)?;
    text.push_all(b"</title>")
}

/// Appends a box of this class with something inside.
#[tactic(auto, unfolding(crate::specs::picture::Shapes::box_around))]
fn push_box_around(
    text: &mut Bytes,
    class: &[u8],
    left: u128,
    top: u128,
    width: u128,
    inside: &[u8],
) -> Result<(), Memory>
    ensures { OnOk result (text.new ≡ text.old ++ box_around class.now left top width inside.now) }
{
    text.push_all(b"<rect")?;
    push_box_attributes(text, class, left, top, width)?;
    text.push_all(b">")?;
    text.push_all(inside)?;
    text.push_all(b"</rect>\n")
}

/// The element of a title.
fn title_text(alloc: Global, title: &[u8]) -> Result<Bytes, Memory>
    ensures { IfOk result (λ text. text ≡ title_element title.now) }
{
    let mut text = Bytes::new(alloc);
    push_title_element(&mut text, title)?;
    Ok(text)
}

/// Appends a box of this class with a title.
pub fn push_titled_box(
    text: &mut Bytes,
    alloc: Global,
    class: &[u8],
    left: u128,
    top: u128,
    width: u128,
    title: &[u8],
) -> Result<(), Memory>
    ensures { OnOk result (text.new ≡ text.old ++ titled_box class.now left top width title.now) }
{
    let inside = title_text(alloc, title)?;
    push_box_around(text, class, left, top, width, inside.as_slice())
}

/// Appends words at a place.
#[tactic(auto, unfolding(crate::specs::picture::Shapes::words_at))]
pub fn push_words_at(text: &mut Bytes, left: u128, bottom: u128, words: &[u8]) -> Result<(), Memory>
    ensures { OnOk result (text.new ≡ text.old ++ words_at left bottom words.now) }
{
    text.push_all(b"<text")?;
    push_measure(text, b"x", left)?;
    push_measure(text, b"y", bottom)?;
    text.push_all(b">")?;
    push_escaped(text, words)?;
    text.push_all(b"</text>\n")
}

/// Where a line goes that is upright.
fn upright_path(alloc: Global, left: u128, from: u128, until: u128) -> Result<Bytes, Memory>
    ensures { IfOk result (λ path. path ≡ upright_path left from until) }
{
    let mut path = Bytes::from_slice(alloc, b"M")?;
    path.push_all(Buffer::new().format(left).as_bytes())?;
    path.push_all(b" ")?;
    path.push_all(Buffer::new().format(from).as_bytes())?;
    path.push_all(b"V")?;
    path.push_all(Buffer::new().format(until).as_bytes())?;
    Ok(path)
}

/// Where the line below a row goes.
fn row_path(alloc: Global, height: u128) -> Result<Bytes, Memory>
    ensures { IfOk result (λ path. path ≡ row_path height) }
{
    let mut path = Bytes::from_slice(alloc, b"M240 ")?;
    path.push_all(Buffer::new().format(height).as_bytes())?;
    path.push_all(b"h1000")?;
    Ok(path)
}

/// Appends a line of this class up or down, from one height to another.
#[tactic(auto, unfolding(crate::specs::picture::Shapes::upright))]
pub fn push_upright(
    text: &mut Bytes,
    alloc: Global,
    class: &[u8],
    left: u128,
    from: u128,
    until: u128,
) -> Result<(), Memory>
    ensures { OnOk result (text.new ≡ text.old ++ upright class.now left from until) }
{
    let path = upright_path(alloc, left, from, until)?;
    text.push_all(b"<path")?;
    push_attribute(text, b"class", class)?;
    push_attribute(text, b"d", path.as_slice())?;
    text.push_all(b"/>\n")
}

/// Appends the line below a row.
#[tactic(auto, unfolding(crate::specs::picture::Shapes::row_line))]
pub fn push_row_line(text: &mut Bytes, alloc: Global, height: u128) -> Result<(), Memory>
    ensures { OnOk result (text.new ≡ text.old ++ row_line height) }
{
    let path = row_path(alloc, height)?;
    text.push_all(b"<path")?;
    push_attribute(text, b"class", b"row")?;
    push_attribute(text, b"d", path.as_slice())?;
    text.push_all(b"/>\n")
}
