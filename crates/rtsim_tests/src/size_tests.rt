use crate::outside::{GOOD, Outside, Told, perform};
use std::alloc::{AllocError, Global};
use std::process::Abort;
use std::test::Fail;

// A statement of 62 bytes.
const PRINT: &[u8] = b"  print \"012345678901234567890123456789012345678901234567890\"\n";

// The settings of a board that states none.
const SETTINGS: &[u8] =
    b"board 1\ncores 1\nlevels 32\ntickless on\ntick0 0\nuntil 4294967295\nentries 1000000\nlpmax 2147483647\nthresh 2\nlpclock 1 1\ndefault none\nschedule round\nlimit sem 64\nlimit event 64\nlimit mutex 256\n";

const WIDE: Outside = Outside { most: 4096, ..GOOD };

// Does a command over the board in the file `b`.
fn perform_wide(alloc: Global, command: &str, board: &[u8]) -> Result<Told, AllocError> {
    let mut words = Vec::new(alloc);
    words.push(String::from_str(alloc, command)?)?;
    words.push(String::from_str(alloc, "b")?)?;
    perform(alloc, &words, b"", board, WIDE)
}

// A comment fills the board up to this many bytes.
fn filled(alloc: Global, bytes: usize) -> Result<Vec<u8>, AllocError> {
    let mut board = Vec::from_slice(alloc, b"board 1\n#")?;
    for _ in 9..bytes {
        board.push(b'x')?;
    }
    Ok(board)
}

#[test]
fn a_board_has_at_most_1048576_bytes(rt: HostRuntime) -> Result<(), Fail> {
    let longest = perform_wide(rt.alloc(), "trace", &filled(rt.alloc(), 1_048_576)?)?;
    assert_eq!(rt; longest.status, 0);
    let longer = perform_wide(rt.alloc(), "trace", &filled(rt.alloc(), 1_048_577)?)?;
    assert_eq!(rt; longer.status, 6);
    assert!(rt; longer.err.bytes() == b"rtsim: board too long\n".as_slice());
    Ok(())
}

// The settings, 33 threads that print 512 times each, 1,048,344 bytes, and the last line.
fn talkative(alloc: Global, settings: &[u8], last: &[u8]) -> Result<Vec<u8>, AllocError> {
    let mut board = Vec::from_slice(alloc, settings)?;
    for name in b"ABCDEFGHIJKLMNOPQRSTUVWXYZabcdefg" {
        board.extend_from_slice(b"thread ")?;
        board.push(*name)?;
        board.extend_from_slice(b" 9 10 any start\n")?;
        for _ in 0..512 {
            board.extend_from_slice(PRINT)?;
        }
    }
    board.extend_from_slice(last)?;
    Ok(board)
}

// The status of `show` of what `show` writes of a board with this last line, where that has so many bytes.
fn status_of_shown(rt: &impl Abort, alloc: Global, last: &[u8], bytes: usize) -> Result<u8, Fail> {
    let shown = talkative(alloc, SETTINGS, last)?;
    assert_eq!(rt; shown.len(), bytes);
    let first = perform_wide(alloc, "show", &talkative(alloc, b"board 1\n", last)?)?;
    assert_eq!(rt; first.status, 0);
    assert!(rt; first.out.bytes() == shown.as_slice());
    let again = perform_wide(alloc, "show", &shown)?;
    assert!(rt; again.status == 6 || again.out.bytes() == shown.as_slice());
    Ok(again.status)
}

// What is shown is longer by the settings. It is read again up to the size of a board.
#[test]
fn the_longest_shown_board_is_read_again(rt: HostRuntime) -> Result<(), Fail> {
    let last = b"arrive 1 console \"0123456789abcdefghijklm\"\n";
    assert_eq!(rt; status_of_shown(&rt, rt.alloc(), last, 1_048_576)?, 0);
    let longer = b"arrive 1 console \"0123456789abcdefghijklmn\"\n";
    assert_eq!(rt; status_of_shown(&rt, rt.alloc(), longer, 1_048_577)?, 6);
    Ok(())
}
