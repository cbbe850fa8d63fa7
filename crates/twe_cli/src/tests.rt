//! What no run of the program shows: ends that fail, and workers that are at work at once. The rest is in `tests/twe/`.
use crate::top::twe;
use std::alloc::Global;
use std::sync::Wait;
use std::test::Fail;
use std::thread::Threads;
use steal_pool::gates::{FreeGate, Gate, MeetGate};
use text_answers::Book;
use twe_base::{Bytes, Calls, Memory, Word};
use twe_io::{MemSink, MemSource, PlainSink, PlainSource, Sink, Source};

const INCREMENT: &[u8] = b"region A;\nint x in A = 41;\ntask void main() writes A { x = x + 1; }\n";

const NOTHING: &[u8] = b"task void main() pure { }\n";

const RESULT: &[u8] = b"x = 42\ntasks 1\n";

const UNCOVERED: &[u8] = b"region A;\nint x in A = 41;\ntask void main() reads A { x = 1; }\n";

const REFUSAL: &[u8] = b"refused: E1 at 3:28\n";

// Nobody knows before that these loops are short.
const TWO_TASKS: &[u8] = b"task void c() pure { int i = 0; while (i < 1) { i = i + 1; } }
task void main() pure { future f = c.executeLater(); future g = c.executeLater(); }
";

const TWO_WRITERS: &[u8] = b"region A, B;
int x in A;
int y in B;
task void c() writes A { while (x < 1) { x = 1; } }
task void e() writes B { while (y < 1) { y = 1; } }
task void main() pure { future f = c.executeLater(); future g = e.executeLater(); }
";

/// Makes one call over these ends and with this gate, and says its status.
fn call<R: Threads + Wait + Sync, S: Source, O: Sink, E: Sink, G: Gate + Sync>(
    rt: &R,
    alloc: Global,
    words: &[&str],
    src: &mut S,
    out: &mut O,
    err: &mut E,
    gate: &G,
) -> Result<u8, Memory> {
    let mut list = Vec::new(alloc);
    for word in words {
        list.push(Word::from_text(alloc, word)?)?;
    }
    let mut book = Book::new(alloc);
    let status = twe(rt, alloc, list.as_slice(), src, out, err, gate, &mut book);
    Ok(status.code())
}

/// Makes the call `run` over these ends, and says its status.
fn run<R: Threads + Wait + Sync, S: Source, O: Sink, E: Sink>(
    rt: &R,
    alloc: Global,
    src: &mut S,
    out: &mut O,
    err: &mut E,
) -> Result<u8, Memory> {
    call(rt, alloc, &["run"], src, out, err, &FreeGate)
}

#[test]
fn a_source_that_fails_at_any_call_is_a_read_fault(rt: HostRuntime) -> Result<(), Fail> {
    for at in 1..29u64 {
        let text = Bytes::from_slice(rt.alloc(), NOTHING)?;
        let mut src = MemSource::new(text, 1, Calls::from_slice(rt.alloc(), &[at])?);
        let mut out = PlainSink::new(rt.alloc(), 200)?;
        let mut err = PlainSink::new(rt.alloc(), 200)?;
        let status = run(&rt, rt.alloc(), &mut src, &mut out, &mut err)?;
        // The text has 26 bytes, and call 27 finds the end.
        assert_eq!(rt; status, if at < 28 { 5 } else { 0 });
        let wanted = if at < 28 {
            b"read fault\n".as_slice()
        } else {
            b""
        };
        assert_eq!(rt; err.bytes(), wanted);
    }
    Ok(())
}

#[test]
fn a_sink_that_fails_at_any_call_keeps_what_it_took(rt: HostRuntime) -> Result<(), Fail> {
    for at in 1..17u64 {
        let mut src = PlainSource::new(Bytes::from_slice(rt.alloc(), INCREMENT)?);
        let fails = Calls::from_slice(rt.alloc(), &[at])?;
        let mut out = MemSink::new(rt.alloc(), 200, 1, fails)?;
        let mut err = PlainSink::new(rt.alloc(), 200)?;
        let status = run(&rt, rt.alloc(), &mut src, &mut out, &mut err)?;
        assert_eq!(rt; status, if at < 16 { 6 } else { 0 });
        assert_eq!(rt; out.bytes(), &RESULT[..(at - 1) as usize]);
        assert_eq!(rt; err.bytes().len(), 0);
    }
    Ok(())
}

#[test]
fn a_sink_of_errors_that_fails_at_any_call_keeps_what_it_took(rt: HostRuntime) -> Result<(), Fail> {
    for at in 1..22u64 {
        let mut src = PlainSource::new(Bytes::from_slice(rt.alloc(), UNCOVERED)?);
        let fails = Calls::from_slice(rt.alloc(), &[at])?;
        let mut out = PlainSink::new(rt.alloc(), 200)?;
        let mut err = MemSink::new(rt.alloc(), 200, 1, fails)?;
        let status = run(&rt, rt.alloc(), &mut src, &mut out, &mut err)?;
        assert_eq!(rt; status, if at < 21 { 6 } else { 1 });
        assert_eq!(rt; err.bytes(), &REFUSAL[..(at - 1) as usize]);
        assert_eq!(rt; out.bytes().len(), 0);
    }
    Ok(())
}

/// Runs a text by two workers, with this gate, and says the status and what was written.
fn run_by_two<R: Threads + Wait + Sync>(
    rt: &R,
    alloc: Global,
    text: &[u8],
    gate: &MeetGate,
) -> Result<(u8, Bytes), Memory> {
    let mut src = PlainSource::new(Bytes::from_slice(alloc, text)?);
    let mut out = PlainSink::new(alloc, 200)?;
    let mut err = PlainSink::new(alloc, 200)?;
    let words = ["run", "--workers", "2"];
    let status = call(rt, alloc, &words, &mut src, &mut out, &mut err, gate)?;
    Ok((status, Bytes::from_slice(alloc, out.bytes())?))
}

#[test]
fn two_workers_begin_segments_at_once(rt: HostRuntime) -> Result<(), Fail> {
    let gate = MeetGate::new(100_000_000, false);
    let (status, out) = run_by_two(&rt, rt.alloc(), TWO_TASKS, &gate)?;
    assert_eq!(rt; status, 0);
    assert_eq!(rt; out.as_slice(), b"tasks 3\n".as_slice());
    assert!(rt; gate.met());
    Ok(())
}

#[test]
fn two_workers_touch_cells_at_once(rt: HostRuntime) -> Result<(), Fail> {
    let gate = MeetGate::new(100_000_000, true);
    let (status, out) = run_by_two(&rt, rt.alloc(), TWO_WRITERS, &gate)?;
    assert_eq!(rt; status, 0);
    assert_eq!(rt; out.as_slice(), b"x = 1\ny = 1\ntasks 3\n".as_slice());
    assert!(rt; gate.met());
    Ok(())
}
