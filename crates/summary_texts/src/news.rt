//! The new bytes of the summaries of methods.
ghost use Rattle.std.specs.Prelude.{◌≡◌, length, IfErr, IfOk};
ghost use Rattle.summary_texts.specs.News.{bytes_of_new, new_clauses, new_of, news_of};
ghost use Rattle.summary_texts.specs.Pasted.{NewsHaveCause};

use crate::fail::PasteFail;
use crate::push_summary;
use crate::writable::can_be_written;
use effect_sets::Summary;
use std::alloc::Global;
use twe_ast::{Item, Name};
use twe_base::{Bytes, List, MAX_TEXT_BYTES, Memory, Word};

/// The clauses of a summary, if a text can have them.
fn new_clauses(
    alloc: Global,
    regions: &[Word],
    params: &[Name],
    summary: &Summary,
) -> Result<Option<Bytes>, Memory>
    ensures { IfOk result (λ made. made ≡ new_clauses regions.now params.now summary.now) }
{
    if !can_be_written(alloc, summary)? {
        return Ok(None);
    }
    let mut text = Bytes::new(alloc);
    push_summary(&mut text, alloc, regions, params, summary)?;
    Ok(Some(text))
}

/// What is written for a method with this summary.
fn new_of(
    alloc: Global,
    regions: &[Word],
    params: &[Name],
    its: &Option<Summary>,
) -> Result<Option<Bytes>, Memory>
    ensures { IfOk result (λ made. made ≡ new_of regions.now params.now its.now) }
{
    match its {
        None => Ok(None),
        Some(summary) => new_clauses(alloc, regions, params, summary),
    }
}

/// How many bytes are written for a method.
fn count_new(made: &Option<Bytes>) -> usize
    ensures { result ≡ length (bytes_of_new made.now) }
{
    match made {
        None => 0,
        Some(text) => text.len(),
    }
}

/// The new bytes of each method, in the order of the text. It stops as soon as they are more than a text may have.
pub(crate) fn news_of(
    alloc: Global,
    regions: &[Word],
    each: &[Option<Summary>],
    items: &[Item],
) -> Result<List<Option<Bytes>>, PasteFail>
    ensures made { IfOk result (λ news. news ≡ news_of regions.now each.now items.now) }
    ensures refused { IfErr result (NewsHaveCause regions.now each.now items.now) }
{
    let mut news = List::new(alloc);
    let mut at = 0;
    let mut total = 0;
    for item in items {
        if let Item::Method(decl) = item
            && let Some(its) = each.get(at)
        {
            let made = new_of(alloc, regions, decl.params.as_slice(), its)?;
            let count = count_new(&made);
            if count > MAX_TEXT_BYTES - total {
                return Err(PasteFail::TooLong);
            }
            total += count;
            news.push(made)?;
            at += 1;
        }
    }
    Ok(news)
}
