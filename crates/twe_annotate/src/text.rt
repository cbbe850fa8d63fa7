//! What a line says of two tasks.
ghost use Rattle.std.specs.Prelude.{◌≡◌, ◌++◌, IfOk, OnOk, slice_get};
ghost use Rattle.twe_annotate.specs.Texts.{always_place, always_text, equalities_text, equality_text, meeting_text, meetings_text, more_equalities, more_meetings, term_text, unless_text, verdict_text};
ghost use Rattle.twe_frontend.specs.meaning.PathTexts.{starred_path_text};
ghost use Rattle.twe_annotate.specs.Texts as texts;

use effect_meeting::{Equality, Meeting, Term};
use itoa::Buffer;
use region_paths::Path;
use std::alloc::Global;
use twe_ast::Name;
use twe_base::{Bytes, Memory, Word};
use twe_frontend::{push_parameter, push_starred_path};

/// Appends a literal, a parameter of the first declaration, or one of the second with a prime.
fn push_term(text: &mut Bytes, first: &[Name], second: &[Name], term: Term) -> Result<(), Memory>
    ensures { OnOk result (text.new ≡ text.old ++ term_text first.now second.now term) }
{
    match term {
        Term::Literal(value) => text.push_all(Buffer::new().format(value).as_bytes()),
        Term::First(param) => push_parameter(text, first, param),
        Term::Second(param) => {
            push_parameter(text, second, param)?;
            text.push(b'\'')
        }
    }
}

/// Appends an equality.
fn push_equality(
    text: &mut Bytes,
    first: &[Name],
    second: &[Name],
    equality: Equality,
) -> Result<(), Memory>
    ensures { OnOk result (text.new ≡ text.old ++ equality_text first.now second.now equality) }
{
    push_term(text, first, second, equality.left)?;
    text.push_all(b" = ")?;
    push_term(text, first, second, equality.right)
}

/// Appends equalities, each after ` and `.
fn push_more_equalities(
    text: &mut Bytes,
    first: &[Name],
    second: &[Name],
    equalities: &[Equality],
) -> Result<(), Memory>
    ensures { OnOk result (text.new ≡ text.old ++ more_equalities first.now second.now equalities.now) }
{
    for equality in equalities {
        text.push_all(b" and ")?;
        push_equality(text, first, second, *equality)?;
    }
    Ok(())
}

/// Appends equalities, with ` and ` between them.
fn push_equalities(
    text: &mut Bytes,
    first: &[Name],
    second: &[Name],
    equalities: &[Equality],
) -> Result<(), Memory>
    ensures { OnOk result (text.new ≡ text.old ++ equalities_text first.now second.now equalities.now) }
{
    let Some((equality, others)) = equalities.split_first() else {
        return Ok(());
    };
    push_equality(text, first, second, *equality)?;
    push_more_equalities(text, first, second, others)
}

/// Appends meetings, each after ` or `.
fn push_more_meetings(
    text: &mut Bytes,
    first: &[Name],
    second: &[Name],
    meetings: &[Meeting],
) -> Result<(), Memory>
    ensures { OnOk result (text.new ≡ text.old ++ more_meetings first.now second.now meetings.now) }
{
    for meeting in meetings {
        text.push_all(b" or ")?;
        push_equalities(text, first, second, meeting.equalities.as_slice())?;
    }
    Ok(())
}

/// Appends meetings, with ` or ` between them.
fn push_meetings(
    text: &mut Bytes,
    first: &[Name],
    second: &[Name],
    meetings: &[Meeting],
) -> Result<(), Memory>
    ensures { OnOk result (text.new ≡ text.old ++ meetings_text first.now second.now meetings.now) }
{
    let Some((meeting, others)) = meetings.split_first() else {
        return Ok(());
    };
    push_equalities(text, first, second, meeting.equalities.as_slice())?;
    push_more_meetings(text, first, second, others)
}

/// How many meetings stand before the first that has no equalities.
fn always_place(meetings: &[Meeting]) -> usize
    ensures { result ≡ always_place meetings.now }
{
    for (at, meeting) in meetings.iter().enumerate() {
        if meeting.equalities.is_empty() {
            return at;
        }
    }
    meetings.len()
}

/// Appends these words and a path.
fn push_path_after(
    text: &mut Bytes,
    words: &[u8],
    regions: &[Word],
    params: &[Name],
    path: &Path,
) -> Result<(), Memory>
    ensures { OnOk result (text.new ≡ text.old ++ (words.now ++ starred_path_text regions.now params.now path.now)) }
{
    text.push_all(words)?;
    push_starred_path(text, regions, params, path)
}

/// Appends these words and meetings.
fn push_meetings_after(
    text: &mut Bytes,
    words: &[u8],
    first: &[Name],
    second: &[Name],
    meetings: &[Meeting],
) -> Result<(), Memory>
    ensures { OnOk result (text.new ≡ text.old ++ (words.now ++ meetings_text first.now second.now meetings.now)) }
{
    text.push_all(words)?;
    push_meetings(text, first, second, meetings)
}

/// Appends that two tasks always interfere, and where.
fn push_always(
    text: &mut Bytes,
    regions: &[Word],
    first: &[Name],
    meeting: &Meeting,
) -> Result<(), Memory>
    ensures { OnOk result (text.new ≡ text.old ++ always_text regions.now first.now meeting.now) }
{
    push_path_after(text, b"interfere on ", regions, first, &meeting.path)
}

/// Appends when two tasks interfere.
fn push_unless(
    text: &mut Bytes,
    first: &[Name],
    second: &[Name],
    meetings: &[Meeting],
) -> Result<(), Memory>
    ensures { OnOk result (text.new ≡ text.old ++ unless_text first.now second.now meetings.now) }
{
    push_meetings_after(text, b"apart unless ", first, second, meetings)
}

/// Appends meetings, or the path of the first that is always met, if there is one.
fn push_meeting(
    text: &mut Bytes,
    regions: &[Word],
    first: &[Name],
    second: &[Name],
    meetings: &[Meeting],
    place: usize,
) -> Result<(), Memory>
    ensures { OnOk result (text.new ≡ text.old
        ++ meeting_text regions.now first.now second.now meetings.now (slice_get meetings.now place)) }
{
    match meetings.get(place) {
        Some(meeting) => push_always(text, regions, first, meeting),
        None => push_unless(text, first, second, meetings),
    }
}

/// Appends what the line says of two tasks.
pub(crate) fn push_verdict(
    text: &mut Bytes,
    regions: &[Word],
    first: &[Name],
    second: &[Name],
    meetings: &[Meeting],
) -> Result<(), Memory>
    ensures { OnOk result (text.new ≡ text.old ++ verdict_text regions.now first.now second.now meetings.now) }
{
    if meetings.is_empty() {
        return text.push_all(b"apart");
    }
    let place = always_place(meetings);
    push_meeting(text, regions, first, second, meetings, place)
}

/// The usage line.
pub(crate) fn usage_text(alloc: Global) -> Result<Bytes, Memory>
    ensures { IfOk result (λ text. text ≡ texts.annotate_usage_text) }
{
    Bytes::from_slice(
        alloc,
        b"usage: twe_annotate matrix | write | compare [NAME]\n",
    )
}
