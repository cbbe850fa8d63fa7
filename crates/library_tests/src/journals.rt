//! Journals as text: what is printed is read again, and a bad line is named.
use seg_journal::{
    End, Entry, Journal, JournalFail, Kind, Limits, Move, print_journal, read_journal,
};
use std::test::Fail;

#[test]
fn what_is_printed_is_read_again(rt: HostRuntime) -> Result<(), Fail> {
    let mv = Move {
        kind: Kind::Run,
        task: 12,
    };
    let end = End::Done { value: -1 };
    let mut journal = Journal::new(rt.alloc());
    journal.push(Entry { mv, end })?;
    let text = print_journal(rt.alloc(), &journal, Limits::default())?;
    let wanted = b"twe-journal 2 fuel 1000000 tasks 10000\nrun 12\n";
    assert!(rt; text.as_slice() == wanted.as_slice());
    let read = read_journal(rt.alloc(), text.as_slice())?;
    assert!(rt; read.moves.len() == 1);
    Ok(())
}

#[test]
fn the_first_bad_line_is_named(rt: HostRuntime) -> Result<(), Fail> {
    let answer = read_journal(rt.alloc(), b"admit 0\nrun 00\nrun\n");
    assert!(rt; matches!(answer, Err(JournalFail::BadLine(2))));
    Ok(())
}
