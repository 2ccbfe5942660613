ghost use Rattle.std.specs.Prelude.{◌≡◌, ◌<◌, length};

use rand_core::SeedableRng;
use rand_core::utils::NextWord;
use rand_pcg::Pcg32;
use rt_base::{Prio, ThreadNo, WaitOrder};
use std::process::Abort;
use std::test::Fail;
use susp_list::{Row, SuspList};

// Whether a row comes before another one, told by keys.
fn is_less(order: WaitOrder, i: usize, one: &Row, j: usize, other: &Row) -> bool {
    if order == WaitOrder::Prio && one.prio.0 != other.prio.0 {
        return one.prio.0 < other.prio.0;
    }
    if one.at != other.at {
        return one.at < other.at;
    }
    i < j
}

// The place of the least row but for one place.
fn least(order: WaitOrder, rows: &[Option<Row>], besides: Option<ThreadNo>) -> Option<ThreadNo> {
    let mut best = None;
    for (i, row) in rows.iter().enumerate() {
        let Some(row) = row else { continue };
        if i > 65535 || besides == Some(ThreadNo(i as u16)) {
            continue;
        }
        let is_better = match &best {
            None => true,
            Some((j, least)) => is_less(order, i, row, *j, least),
        };
        if is_better {
            best = Some((i, *row));
        }
    }
    let (i, _) = best?;
    if i > 65535 {
        None
    } else {
        Some(ThreadNo(i as u16))
    }
}

// One random call, on the list and on its rows in the plain.
fn call(list: &mut SuspList, rows: &mut [Option<Row>], words: &mut Pcg32)
    requires list { length list.old.rows ≡ 8 }
    requires rows { length rows.old ≡ 8 }
    ensures { length list.new.rows ≡ 8 }
{
    let place = words.next_word() as usize % 8;
    let thread = ThreadNo(place as u16);
    let prio = Prio((words.next_word() % 3) as u8);
    let at = (words.next_word() % 9) as u64;
    if !list.holds(thread) {
        list.join(thread, prio, at);
        rows[place] = Some(Row { prio, at });
    } else if words.next_word() % 2 == 0 {
        list.leave(thread);
        rows[place] = None;
    } else {
        list.reprio(thread, prio);
        if let Some(row) = rows[place] {
            rows[place] = Some(Row { prio, at: row.at });
        }
    }
}

// Empties a list, and sees that its order is that of a scan of the rows.
fn drain(rt: &impl Abort, order: WaitOrder, list: &mut SuspList, rows: &mut [Option<Row>])
    requires list { length list.old.rows ≡ 8 }
    requires rows { length rows.old ≡ 8 }
{
    for _ in 0..8 {
        let first = least(order, rows, None);
        assert_eq!(rt; list.first(), first);
        let Some(thread) = first else { break };
        let second = least(order, rows, Some(thread));
        assert_eq!(rt; list.second(), second);
        assert!(rt; thread.0 < 8);
        assert!(rt; list.holds(thread));
        assert_eq!(rt; list.after(thread), second);
        list.leave(thread);
        rows[thread.0 as usize] = None;
    }
    assert_eq!(rt; list.len(), 0);
}

#[test]
fn agrees_with_a_scan_of_the_rows(rt: HostRuntime) -> Result<(), Fail> {
    for seed in 0..300u64 {
        let order = if seed % 2 == 0 {
            WaitOrder::Fifo
        } else {
            WaitOrder::Prio
        };
        let mut list = SuspList::new(rt.alloc(), order, 8)?;
        let mut rows = [None; 8];
        let mut words = Pcg32::seed_from_u64(seed);
        for _ in 0..40 {
            call(&mut list, &mut rows, &mut words);
        }
        drain(&rt, order, &mut list, &mut rows);
    }
    Ok(())
}

// Puts a thread into a list of four.
fn enter(rt: &impl Abort, list: &mut SuspList, thread: u16, prio: u8, at: u64)
    requires { length list.old.rows ≡ 4 }
    ensures { length list.new.rows ≡ 4 }
{
    assert!(rt; thread < 4);
    assert!(rt; !list.holds(ThreadNo(thread)));
    list.join(ThreadNo(thread), Prio(prio), at);
}

// Takes the first of a list of four out.
fn take_first(rt: &impl Abort, list: &mut SuspList, wanted: u16)
    requires { length list.old.rows ≡ 4 }
    ensures { length list.new.rows ≡ 4 }
{
    assert_eq!(rt; list.first(), Some(ThreadNo(wanted)));
    assert!(rt; wanted < 4);
    assert!(rt; list.holds(ThreadNo(wanted)));
    list.leave(ThreadNo(wanted));
}

#[test]
fn stands_by_arrival_or_by_priority(rt: HostRuntime) -> Result<(), Fail> {
    for (order, wanted) in [
        (WaitOrder::Fifo, [0, 2, 3, 1]),
        (WaitOrder::Prio, [2, 3, 1, 0]),
    ] {
        let mut list = SuspList::new(rt.alloc(), order, 4)?;
        for (thread, prio, at) in [(0, 20, 5), (1, 10, 7), (3, 10, 6), (2, 10, 6)] {
            enter(&rt, &mut list, thread, prio, at);
        }
        for thread in wanted {
            take_first(&rt, &mut list, thread);
        }
        assert_eq!(rt; list.len(), 0);
        list.reset(WaitOrder::Prio);
        assert_eq!(rt; list.first(), None);
    }
    Ok(())
}
