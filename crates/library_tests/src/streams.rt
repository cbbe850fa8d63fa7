//! Sources and sinks on small texts, with a fault at each call in turn, and each call that can run out of memory.
use std::test::Fail;
use twe_base::{Bytes, Calls, Ints, Word};
use twe_io::{
    MemSink, MemSource, PlainSink, PlainSource, ReadFail, StdStream, read_all, write_whole,
};

#[test]
fn a_write_fails_at_the_call_that_is_named(rt: HostRuntime) -> Result<(), Fail> {
    for call in 1..4u64 {
        let fails = Calls::from_slice(rt.alloc(), &[call])?;
        let mut sink = MemSink::new(rt.alloc(), 2, 1, fails)?;
        assert!(rt; write_whole(&mut sink, b"ab").is_ok() == (call == 3));
        assert!(rt; sink.bytes().len() as u64 == call - 1);
    }
    Ok(())
}

#[test]
fn a_read_fails_at_the_call_that_is_named(rt: HostRuntime) -> Result<(), Fail> {
    for call in 1..5u64 {
        let text = Bytes::from_slice(rt.alloc(), b"ab")?;
        let fails = Calls::from_slice(rt.alloc(), &[call])?;
        let mut source = MemSource::new(text, 1, fails);
        let failed = matches!(
            read_all(rt.alloc(), &mut source, 2),
            Err(ReadFail::ReadFault)
        );
        assert!(rt; failed == (call < 4));
    }
    Ok(())
}

#[test]
fn streams_are_read_and_written(rt: HostRuntime) -> Result<(), Fail> {
    let mut source = StdStream::new(b"whole".as_slice());
    let text = read_all(rt.alloc(), &mut source, 5)?;
    let mut sink = StdStream::new(Vec::new(rt.alloc()));
    assert!(rt; write_whole(&mut sink, text.as_slice()).is_ok());
    assert!(rt; text.as_slice() == b"whole".as_slice());
    Ok(())
}

#[test]
fn ends_in_memory_find_memory(rt: HostRuntime) -> Result<(), Fail> {
    let text = Bytes::from_slice(rt.alloc(), b"whole")?;
    let mut source = MemSource::new(text, 2, Calls::new(rt.alloc()));
    let mut source = PlainSource::new(source.read_all(rt.alloc(), 5)?);
    let text = read_all(rt.alloc(), &mut source, 5)?;
    let mut sink = PlainSink::new(rt.alloc(), 5)?;
    assert!(rt; write_whole(&mut sink, text.as_slice()).is_ok());
    Ok(())
}

#[test]
fn lists_and_words_find_memory(rt: HostRuntime) -> Result<(), Fail> {
    let mut numbers = Ints::with_capacity(rt.alloc(), 1)?;
    numbers.push(-7)?;
    numbers.push_all(&[0, 7])?;
    assert!(rt; numbers.copy(rt.alloc())?.len() == 3);
    let mut word = Word::from_text(rt.alloc(), "tas")?;
    word.push_text("k")?;
    assert!(rt; word.copy(rt.alloc())?.len() == 4);
    Ok(())
}
