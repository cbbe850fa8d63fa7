//! Attributes of tags, and text between tags.
ghost use Rattle.std.specs.Prelude.{◌≡◌, ◌++◌, OnOk};
ghost use Rattle.twe_draw.specs.picture.Elements.{attribute_text, escaped, escaped_byte, measured, valued};

use itoa::Buffer;
use twe_base::{Bytes, Memory};

/// Appends an attribute with this value, which stands as it is.
pub fn push_attribute(text: &mut Bytes, name: &[u8], value: &[u8]) -> Result<(), Memory>
    ensures { OnOk result (text.new ≡ text.old ++ attribute_text (valued name.now value.now)) }
{
    text.push_all(b" ")?;
    text.push_all(name)?;
    text.push_all(b"='")?;
    text.push_all(value)?;
    text.push_all(b"'")
}

/// Appends an attribute with a number.
pub fn push_measure(text: &mut Bytes, name: &[u8], number: u128) -> Result<(), Memory>
    ensures { OnOk result (text.new ≡ text.old ++ attribute_text (measured name.now number)) }
{
    push_attribute(text, name, Buffer::new().format(number).as_bytes())
}

/// Appends a byte as it stands between tags.
fn push_escaped_byte(text: &mut Bytes, byte: u8) -> Result<(), Memory>
    ensures { OnOk result (text.new ≡ text.old ++ escaped_byte byte) }
{
    if byte == 38 {
        text.push_all(b"&amp;")
    } else if byte == 60 {
        text.push_all(b"&lt;")
    } else if byte == 62 {
        text.push_all(b"&gt;")
    } else {
        text.push(byte)
    }
}

/// Appends bytes as they stand between tags.
pub fn push_escaped(text: &mut Bytes, bytes: &[u8]) -> Result<(), Memory>
    ensures { OnOk result (text.new ≡ text.old ++ escaped bytes.now) }
{
    for byte in bytes {
        push_escaped_byte(text, *byte)?;
    }
    Ok(())
}
