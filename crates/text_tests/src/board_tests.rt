use board_show::laws::shown_boards_are_read;
use board_show::show;
use board_text::parse;
use rt_plain::Board;
use std::alloc::Global;
use std::test::Fail;

// Something of each part of a board that is copied, in canonical text.
const BOARD: &[u8] =
    b"board 1\ncores 1\nlevels 32\ntickless on\ntick0 6\nuntil 9\nentries 7\nlpmax 5\nthresh 3\nlpclock 3 2\ndefault light\nschedule order c0 t\nshell 20\nsoft 21\nlimit sem 1\nlimit event 2\nlimit mutex 3\nsem s 1 fifo\nevent e prio\nmutex m 5\nmailbox b 2 fifo\nmsgqueue q 4 8 prio\nmempool p 2 32 fifo\ndevice uart1 8 9 2 pm s\ntimer t oneshot 5 manual mq_urgent q \"x\"\ntimer u softper 6 auto -\nthread A 10 10 0 start\n  print \"hi\"\n  mp_alloc p ever\n  mp_free p\n  goto 1\narrive 5 uart1 \"ab\"\n";

fn read(alloc: Global, text: &[u8]) -> Result<Board, Fail> {
    Ok(parse(alloc, text).ok().ok_or("no board")?)
}

// How another board is made of one.
#[derive(Clone, Copy)]
enum Way {
    Copied,
    ShownAndRead,
}

fn again(alloc: Global, board: Board, way: Way) -> Option<Board> {
    match way {
        Way::Copied => board.copy(alloc).ok(),
        Way::ShownAndRead => shown_boards_are_read(alloc, &board).ok(),
    }
}

fn is_shown_as(alloc: Global, board: Board, wanted: &[u8]) -> bool {
    match show(alloc, &board) {
        Ok(text) => text.as_slice() == wanted,
        Err(_) => false,
    }
}

#[test]
fn a_copy_is_the_same_board(rt: HostRuntime) -> Result<(), Fail> {
    let board = read(rt.alloc(), BOARD)?;
    let copy = again(rt.alloc(), board, Way::Copied).ok_or("no copy")?;
    assert!(rt; is_shown_as(rt.alloc(), copy, BOARD));
    Ok(())
}

#[test]
fn what_is_shown_is_read_again(rt: HostRuntime) -> Result<(), Fail> {
    let board = read(rt.alloc(), BOARD)?;
    let other = again(rt.alloc(), board, Way::ShownAndRead).ok_or("not read")?;
    assert!(rt; is_shown_as(rt.alloc(), other, BOARD));
    Ok(())
}
