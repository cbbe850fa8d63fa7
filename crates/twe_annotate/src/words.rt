//! What the words after the program's name ask for.
ghost use Rattle.std.specs.Prelude.{◌≡◌, IfOk};
ghost use Rattle.twe_annotate.specs.Words.{request_of, request_on, requested_by};

use std::alloc::Global;
use twe_base::{Memory, Word};

/// What is asked for.
#[derive(Debug, Drop)]
pub enum AnnotateRequest {
    /// A line for each two tasks.
    Matrix,
    /// The text with the least summaries of its methods.
    Write,
    /// A line for each method and each task that declares more than it needs.
    Compare,
    /// What the method or the task with this name needs, with a chain of calls for each need.
    Explain(Word),
}

/// What a word asks for, if it asks for something.
fn request_of(word: &Word) -> Option<AnnotateRequest>
    ensures { result ≡ request_of word.now }
{
    let word = word.as_bytes();
    if word == b"matrix".as_slice() {
        Some(AnnotateRequest::Matrix)
    } else if word == b"write".as_slice() {
        Some(AnnotateRequest::Write)
    } else if word == b"compare".as_slice() {
        Some(AnnotateRequest::Compare)
    } else {
        None
    }
}

/// What a word with a name after it asks for, if it asks for something.
fn request_on(alloc: Global, word: &Word, name: &Word) -> Result<Option<AnnotateRequest>, Memory>
    ensures { IfOk result (λ request. request ≡ request_on word.now name.now) }
{
    if word.as_bytes() == b"compare".as_slice() {
        let name = Word::from_text(alloc, name.as_str())?;
        Ok(Some(AnnotateRequest::Explain(name)))
    } else {
        Ok(None)
    }
}

/// What the words ask for, or `None` if they ask for nothing that the program does.
pub(crate) fn requested_by(alloc: Global, words: &[Word]) -> Result<Option<AnnotateRequest>, Memory>
    ensures { IfOk result (λ request. request ≡ requested_by words.now) }
{
    match words {
        [word] => Ok(request_of(word)),
        [word, name] => request_on(alloc, word, name),
        _ => Ok(None),
    }
}
