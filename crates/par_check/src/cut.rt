//! The cutting of a batch.
ghost use Rattle.std.specs.Prelude.{◌≡◌, ◌≤◌, length, All, IfOk};
ghost use Rattle.twe_base.specs.Language.{max_text_bytes};
ghost use Rattle.par_check.specs.Batch.{programs_of};

use std::alloc::Global;
use text_answers::cut_at_mark;
use twe_base::{Bytes, List, Memory};

/// Texts in order.
pub type Texts = List<Bytes>;

/// The programs of a batch: the texts between the lines that are exactly `%%`. There is one program more than there are such
/// lines, so an empty batch is one empty program. It takes time and memory linear in the length of the batch.
pub fn programs_of(alloc: Global, batch: &[u8]) -> Result<Texts, Memory>
    requires { length batch.now ≤ max_text_bytes }
    ensures cut { IfOk result (λ texts. texts ≡ programs_of batch.now) }
    ensures short { IfOk result (All (λ text. length text ≤ max_text_bytes)) }
{
    let mut texts = Texts::new(alloc);
    let mut rest = batch;
    while let Some((program, after)) = cut_at_mark(rest) {
        texts.push(Bytes::from_slice(alloc, program)?)?;
        rest = after;
    }
    texts.push(Bytes::from_slice(alloc, rest)?)?;
    Ok(texts)
}
