use board_text::{BoardFault, parse};
use rt_plain::Why;
use std::alloc::{AllocError, Global};
use std::test::Fail;

// The settings, and so many lines that have numbers from 1000 on between these texts.
fn board_of(
    alloc: Global,
    settings: &[u8],
    count: u16,
    before: &[u8],
    behind: &[u8],
) -> Result<Vec<u8>, AllocError> {
    let mut board = Vec::from_slice(alloc, settings)?;
    for n in 0..count {
        board.extend_from_slice(before)?;
        board.push(b'1' + (n / 1000 % 5) as u8)?;
        board.push(b'0' + (n / 100 % 10) as u8)?;
        board.push(b'0' + (n / 10 % 10) as u8)?;
        board.push(b'0' + (n % 10) as u8)?;
        board.extend_from_slice(behind)?;
    }
    Ok(board)
}

// Whether the line with this number is refused since there is no room for it.
fn is_full_at(alloc: Global, board: &[u8], number: usize) -> bool {
    match parse(alloc, board) {
        Err(BoardFault::Line { no, why }) => why == Why::Full && no as usize == number,
        _ => false,
    }
}

// Whether a board may have so many of these lines behind the settings, and no more.
fn is_most(
    alloc: Global,
    settings: &[u8],
    most: u16,
    before: &[u8],
    behind: &[u8],
) -> Result<bool, AllocError> {
    let first = settings.split(|b| *b == b'\n').count();
    let full = board_of(alloc, settings, most, before, behind)?;
    let over = board_of(alloc, settings, most.saturating_add(1), before, behind)?;
    let last = first.saturating_add(usize::from(most));
    Ok(parse(alloc, &full).is_ok() && is_full_at(alloc, &over, last))
}

#[test]
fn a_board_has_at_most_64_pools(rt: HostRuntime) -> Result<(), Fail> {
    assert!(rt; is_most(rt.alloc(), b"board 1\n", 64, b"mempool p", b" 1 1 fifo\n")?);
    Ok(())
}

// The threads of the shell and of soft timers are two of the 256.
#[test]
fn a_board_has_at_most_256_threads(rt: HostRuntime) -> Result<(), Fail> {
    let rest = b" 10 10 any init\n";
    assert!(rt; is_most(rt.alloc(), b"board 1\n", 256, b"thread t", rest)?);
    assert!(rt; is_most(rt.alloc(), b"board 1\nshell 20\n", 255, b"thread t", rest)?);
    assert!(rt; is_most(rt.alloc(), b"board 1\nsoft 4\n", 255, b"thread t", rest)?);
    assert!(rt;
        is_most(
            rt.alloc(),
            b"board 1\nshell 20\nsoft 4\n",
            254,
            b"thread t",
            rest
        )?
    );
    Ok(())
}

// A soft timer that is one too many is told so, also where its thread isn't there.
#[test]
fn a_board_has_at_most_64_timers(rt: HostRuntime) -> Result<(), Fail> {
    let rest = b" oneshot 5 auto -\n";
    assert!(rt; is_most(rt.alloc(), b"board 1\n", 64, b"timer t", rest)?);
    let mut board = board_of(rt.alloc(), b"board 1\n", 64, b"timer t", rest)?;
    board.extend_from_slice(b"timer u softone 5 auto -\n")?;
    assert!(rt; is_full_at(rt.alloc(), &board, 66));
    Ok(())
}

#[test]
fn a_board_has_at_most_4096_arrivals(rt: HostRuntime) -> Result<(), Fail> {
    let settings = b"board 1\nlpclock 1000 1000\n";
    assert!(rt; is_most(rt.alloc(), settings, 4096, b"arrive ", b" console \"x\"\n")?);
    Ok(())
}
