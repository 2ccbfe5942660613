ghost use Rattle.std.specs.Prelude.{◌<◌, length, IfOk};

use board_text::parse;
use kernel_pools::Pools;
use mem_pool::Freed;
use rt_base::{Name, ObjNo, ThreadNo, WaitOrder};
use std::alloc::Global;
use std::process::Abort;
use std::test::Fail;

// A pool of two blocks of 32 bytes, and one of a block of 7.
const BOARD: &[u8] = b"board 1\nmempool p 2 32 fifo\nmempool q 1 7 prio\nthread a 5 3 any start\n";

// A call on a pool, with what it has to answer.
#[derive(Clone, Copy)]
enum Call {
    Give(u16, Option<u32>),
    GiveBack(u16, Option<ThreadNo>, Freed),
    HasFree(bool),
    Order(WaitOrder),
}

// Whether the pools answer a call as they have to.
fn is_answered(pools: &mut Pools, o: ObjNo, call: Call) -> bool
    requires { o < length pools.old }
{
    match call {
        Call::Give(thread, wanted) => pools.give(o, ThreadNo(thread)) == wanted,
        Call::GiveBack(thread, next, wanted) => pools.give_back(o, ThreadNo(thread), next)
            == wanted,
        Call::HasFree(wanted) => pools.has_free(o) == wanted,
        Call::Order(wanted) => pools.order(o) == wanted,
    }
}

// The number of the pool of a name.
fn find(pools: &Pools, name: &[u8]) -> Result<ObjNo, Fail>
    ensures { IfOk result (λ o. o < length pools.now) }
{
    let name = Name::read(name).ok_or("name")?;
    Ok(pools.find(&name).ok_or("pool")?)
}

// Makes one call after another on the pool of a name.
fn make_all(rt: &impl Abort, pools: &mut Pools, name: &[u8], calls: &[Call]) -> Result<(), Fail> {
    for call in calls {
        let o = find(pools, name)?;
        assert!(rt; is_answered(pools, o, *call));
    }
    Ok(())
}

fn opened(alloc: Global, text: &[u8]) -> Result<Pools, Fail> {
    let board = parse(alloc, text).ok().ok_or("board")?;
    Ok(Pools::open(alloc, &board)?)
}

#[test]
fn blocks_are_given_and_given_back(rt: HostRuntime) -> Result<(), Fail> {
    let mut pools = opened(rt.alloc(), BOARD)?;
    let two_blocks = [
        Call::Order(WaitOrder::Fifo),
        Call::Give(0, Some(0)),
        Call::Give(1, Some(32)),
        Call::HasFree(false),
        Call::Give(0, None),
        Call::GiveBack(2, None, Freed::NotHeld),
        Call::GiveBack(1, Some(ThreadNo(0)), Freed::Passed(ThreadNo(0), 32)),
        Call::GiveBack(0, None, Freed::Back(32)),
        Call::HasFree(true),
        Call::GiveBack(0, None, Freed::Back(0)),
        Call::GiveBack(0, None, Freed::NotHeld),
    ];
    make_all(&rt, &mut pools, b"p", &two_blocks)?;
    let one_block = [
        Call::Order(WaitOrder::Prio),
        Call::Give(255, Some(0)),
        Call::HasFree(false),
        Call::GiveBack(255, None, Freed::Back(0)),
    ];
    make_all(&rt, &mut pools, b"q", &one_block)?;
    Ok(())
}

#[test]
fn a_pool_that_the_board_lacks_is_not_found(rt: HostRuntime) -> Result<(), Fail> {
    let pools = opened(rt.alloc(), BOARD)?;
    let name = Name::read(b"r").ok_or("name")?;
    assert!(rt; pools.find(&name).is_none());
    Ok(())
}
