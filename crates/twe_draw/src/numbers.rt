//! Words with a number.
ghost use Rattle.std.specs.Prelude.{◌≡◌, ◌++◌, OnOk};
ghost use Rattle.twe_draw.specs.Numbers.{with_number};

use itoa::Buffer;
use twe_base::{Bytes, Memory};

/// Appends words and a number.
pub(crate) fn push_number(text: &mut Bytes, words: &[u8], number: u64) -> Result<(), Memory>
    ensures { OnOk result (text.new ≡ text.old ++ with_number words.now number) }
{
    text.push_all(words)?;
    text.push_all(Buffer::new().format(number).as_bytes())
}

/// Appends words and the number of a task, a line or a column.
pub(crate) fn push_small(text: &mut Bytes, words: &[u8], number: u32) -> Result<(), Memory>
    ensures { OnOk result (text.new ≡ text.old ++ with_number words.now number) }
{
    text.push_all(words)?;
    text.push_all(Buffer::new().format(number).as_bytes())
}

/// Appends words and a wide number.
pub(crate) fn push_wide(text: &mut Bytes, words: &[u8], number: u128) -> Result<(), Memory>
    ensures { OnOk result (text.new ≡ text.old ++ with_number words.now number) }
{
    text.push_all(words)?;
    text.push_all(Buffer::new().format(number).as_bytes())
}
