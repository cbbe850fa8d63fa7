//! Programs that read one text, on ends that fail.
ghost use Rattle.std.specs.Prelude.{◌≡◌, codes};
ghost use Rattle.twe_report.specs.Causes.{without_words};
ghost use Rattle.twe_io.specs.Answers.{on_out};
ghost use Rattle.twe_io.specs.declared.status.Status.TheVariants.{Done};

use std::alloc::Global;
use std::test::Fail;
use twe_base::{Bytes, Calls, Memory, Word};
use twe_io::{Answer, MemSink, MemSource, Status};
use twe_report::{TextProgram, run_text_program, without_words};

const TEXT: &[u8] = b"a text\n";

const USAGE: &[u8] = b"usage: echo\n";

const READ_FAULT: &[u8] = b"read fault\n";

/// A program that writes the text that it reads.
#[derive(Clone, Copy, Debug)]
struct Echo;

impl TextProgram for Echo {
    ghost asked = { λ words. without_words (record {}) words };

    ghost usage = { codes "usage: echo\n" };

    ghost due = { λ _ text answer. answer ≡ on_out Done text };

    fn of_words(_: Global, words: &[Word]) -> Result<Option<Self>, Memory> {
        Ok(without_words(words, Echo))
    }

    fn usage_text(alloc: Global) -> Result<Bytes, Memory> {
        Bytes::from_slice(alloc, b"usage: echo\n")
    }

    fn answer_text(&self, alloc: Global, text: &[u8]) -> Result<Answer, Memory> {
        Ok(Answer::on_out(alloc, Status::Done, Bytes::from_slice(alloc, text)?))
    }
}

/// What one call came to.
#[derive(Drop)]
struct Ended {
    status: u8,
    out: MemSink,
    err: MemSink,
}

/// An end that takes one byte a call and fails at the call with this number; 0 is no call.
fn end(alloc: Global, fails: u64) -> Result<MemSink, Memory> {
    MemSink::new(alloc, 200, 1, Calls::from_slice(alloc, &[fails])?)
}

/// Makes one call on `TEXT`, or on a word, whose source and ends fail at these calls.
fn call(alloc: Global, word: bool, src: u64, out: u64, err: u64) -> Result<Ended, Memory> {
    let mut words = Vec::new(alloc);
    if word {
        words.push(Word::from_text(alloc, "x")?)?;
    }
    let text = Bytes::from_slice(alloc, TEXT)?;
    let mut src = MemSource::new(text, 1, Calls::from_slice(alloc, &[src])?);
    let mut out = end(alloc, out)?;
    let mut err = end(alloc, err)?;
    let status = run_text_program::<Echo, MemSource, MemSink, MemSink>(
        alloc,
        words.as_slice(),
        &mut src,
        &mut out,
        &mut err,
    );
    Ok(Ended {
        status: status.code(),
        out,
        err,
    })
}

#[test]
fn ends_that_fail_at_any_call_are_faults(rt: HostRuntime) -> Result<(), Fail> {
    // One call for each byte of the text, and one that finds its end.
    let calls = TEXT.len() as u64 + 1;
    for at in 1..calls + 2 {
        let ended = call(rt.alloc(), false, at, 0, 0)?;
        let fails = at <= calls;
        assert_eq!(rt; ended.status, if fails { 5 } else { 0 });
        assert_eq!(rt; ended.out.bytes(), if fails { b"" } else { TEXT });
        assert_eq!(rt; ended.err.bytes(), if fails { READ_FAULT } else { b"" });
    }
    for at in 1..TEXT.len() + 2 {
        let ended = call(rt.alloc(), false, 0, at as u64, 0)?;
        assert_eq!(rt; ended.status, if at <= TEXT.len() { 6 } else { 0 });
        assert_eq!(rt; ended.out.bytes(), &TEXT[..at - 1]);
        assert_eq!(rt; ended.err.bytes().len(), 0);
    }
    for at in 1..USAGE.len() + 2 {
        let ended = call(rt.alloc(), true, 0, 0, at as u64)?;
        assert_eq!(rt; ended.status, if at <= USAGE.len() { 6 } else { 2 });
        assert_eq!(rt; ended.err.bytes(), &USAGE[..at - 1]);
        assert_eq!(rt; ended.out.bytes().len(), 0);
    }
    Ok(())
}
