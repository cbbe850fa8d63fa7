//! The clauses of a summary as a text has them.
ghost use Rattle.std.specs.Prelude.{◌≡◌, ◌++◌, OnOk};
ghost use Rattle.summary_texts.specs.Texts.{clauses_text, more_paths, paths_text, summary_text};

use crate::order::paths_of;
use effect_sets::Summary;
use region_paths::Elems;
use std::alloc::Global;
use twe_ast::Name;
use twe_base::{Bytes, Memory, Word};
use twe_frontend::push_path;

/// Appends paths, with `, ` between them.
fn push_paths(
    text: &mut Bytes,
    regions: &[Word],
    params: &[Name],
    paths: &[Elems],
) -> Result<(), Memory>
    ensures { OnOk result (text.new ≡ text.old ++ paths_text regions.now params.now paths.now) }
{
    let Some((first, others)) = paths.split_first() else {
        return Ok(());
    };
    push_path(text, regions, params, first.as_slice())?;
    push_more_paths(text, regions, params, others)
}

/// Appends paths, each after `, `.
fn push_more_paths(
    text: &mut Bytes,
    regions: &[Word],
    params: &[Name],
    paths: &[Elems],
) -> Result<(), Memory>
    ensures { OnOk result (text.new ≡ text.old ++ more_paths regions.now params.now paths.now) }
{
    for path in paths {
        text.push_all(b", ")?;
        push_path(text, regions, params, path.as_slice())?;
    }
    Ok(())
}

/// Appends `pure`, or the clauses of the paths that are only read and of those that are written.
pub fn push_clauses(
    text: &mut Bytes,
    regions: &[Word],
    params: &[Name],
    reads: &[Elems],
    writes: &[Elems],
) -> Result<(), Memory>
    ensures { OnOk result (text.new ≡ text.old ++ clauses_text regions.now params.now reads.now writes.now) }
{
    match (reads, writes) {
        ([], []) => text.push_all(b"pure"),
        (_, []) => {
            text.push_all(b"reads ")?;
            push_paths(text, regions, params, reads)
        }
        ([], _) => {
            text.push_all(b"writes ")?;
            push_paths(text, regions, params, writes)
        }
        (_, _) => {
            text.push_all(b"reads ")?;
            push_paths(text, regions, params, reads)?;
            text.push_all(b" writes ")?;
            push_paths(text, regions, params, writes)
        }
    }
}

/// Appends the clauses of a summary.
pub fn push_summary(
    text: &mut Bytes,
    alloc: Global,
    regions: &[Word],
    params: &[Name],
    summary: &Summary,
) -> Result<(), Memory>
    ensures { OnOk result (text.new ≡ text.old ++ summary_text regions.now params.now summary.now) }
{
    let reads = paths_of(alloc, summary, false)?;
    let writes = paths_of(alloc, summary, true)?;
    push_clauses(text, regions, params, reads.as_slice(), writes.as_slice())
}
