use crate::outside::{GOOD, Outside, Told, perform, two_files};
use commands::rtsim;
use rt_edge::{SureFiles, SureSink};
use std::alloc::{AllocError, Global};
use std::test::Fail;

const BOARD: &[u8] = b"board 1\nthread A 10 10 any start\n  print \"hi\"\n  print \"bye\"\n";

const TRACE: &[u8] =
    b"1 c0 @0\n  run A\n2 c0 @0\n  do A 1 0\n  print \"hi\"\n3 c0 @0\n  do A 2 0\n  print \"bye\"\n4 c0 @0\n  do A 3 0\n  close A\n5 tick 1\nend quiet @1\n";

fn strings(alloc: Global, words: &[&str]) -> Result<Vec<String>, AllocError> {
    let mut all = Vec::new(alloc);
    for word in words {
        all.push(String::from_str(alloc, word)?)?;
    }
    Ok(all)
}

// Does a command over the board in the file `b`, and its trace in the file `t`.
fn perform_on_board(alloc: Global, words: &[&str], outside: Outside) -> Result<Told, AllocError> {
    perform(alloc, &strings(alloc, words)?, TRACE, BOARD, outside)
}

// The file is opened by one call and taken by five, of which the last finds its end.
#[test]
fn a_failing_call_of_the_files_stops_the_command(rt: HostRuntime) -> Result<(), Fail> {
    for read in 1..7 {
        let told = perform_on_board(rt.alloc(), &["trace", "b"], Outside { read, ..GOOD })?;
        assert_eq!(rt; told.status, 4);
        assert!(rt; told.out.bytes().is_empty());
        assert!(rt; told.err.bytes() == b"rtsim: read fault\n".as_slice());
    }
    let told = perform_on_board(rt.alloc(), &["trace", "b"], Outside { read: 7, ..GOOD })?;
    assert_eq!(rt; told.status, 0);
    Ok(())
}

// The trace is read by nine takes, and the board behind it as before. No text is put where a call fails.
#[test]
fn a_failing_call_of_either_file_stops_a_replay(rt: HostRuntime) -> Result<(), Fail> {
    let words = ["replay", "t", "b"];
    for read in 1..20 {
        let told = perform_on_board(rt.alloc(), &words, Outside { read, ..GOOD })?;
        assert!(rt; told.status == 4 || told.out.bytes() == TRACE);
        assert!(rt; told.status == 0 || told.out.bytes().is_empty());
    }
    let first = perform_on_board(rt.alloc(), &words, Outside { read: 1, ..GOOD })?;
    assert_eq!(rt; first.status, 4);
    let whole = perform_on_board(rt.alloc(), &words, GOOD)?;
    assert!(rt; whole.status == 0 && whole.out.bytes() == TRACE);
    Ok(())
}

#[test]
fn a_failing_put_leaves_a_front_of_the_text(rt: HostRuntime) -> Result<(), Fail> {
    let mut front = 0;
    for write in 1..10 {
        let told = perform_on_board(rt.alloc(), &["trace", "b"], Outside { write, ..GOOD })?;
        assert_eq!(rt; told.status, 5);
        assert_eq!(rt; told.out.bytes().len(), front);
        assert!(rt; TRACE.starts_with(told.out.bytes()));
        assert!(rt; told.err.bytes() == b"rtsim: write fault\n".as_slice());
        front += 16;
    }
    Ok(())
}

#[test]
fn little_room_and_a_failing_line(rt: HostRuntime) -> Result<(), Fail> {
    let small = perform_on_board(rt.alloc(), &["run", "b"], Outside { room: 3, ..GOOD })?;
    assert!(rt; small.status == 5 && small.out.bytes() == b"hib".as_slice());
    let exact = perform_on_board(rt.alloc(), &["run", "b"], Outside { room: 5, ..GOOD })?;
    assert!(rt; exact.status == 0 && exact.out.bytes() == b"hibye".as_slice());
    let silent = perform_on_board(
        rt.alloc(),
        &["trace", "nofile"],
        Outside { line: 1, ..GOOD },
    )?;
    assert!(rt; silent.status == 3 && silent.err.bytes().is_empty());
    Ok(())
}

#[test]
fn sure_files_and_sinks_have_no_faults(rt: HostRuntime) -> Result<(), Fail> {
    let alloc = rt.alloc();
    let mut files = SureFiles::new(two_files(alloc, TRACE, BOARD)?, 7);
    let words = strings(alloc, &["trace", "b"])?;
    let mut out = SureSink::new();
    let mut err = SureSink::new();
    let status = rtsim(alloc, &words, &mut files, &mut out, &mut err);
    prove!(status != 4 && status != 5);
    assert_eq!(rt; status, 0);
    Ok(())
}
