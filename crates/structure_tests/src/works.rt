ghost use Rattle.std.specs.Prelude.{◌≡◌};

use rand_core::SeedableRng;
use rand_core::utils::NextWord;
use rand_pcg::Pcg32;
use rt_base::ObjNo;
use soft_work::Works;
use std::process::Abort;
use std::test::Fail;

// A call on the works of four timers, with what it has to answer.
#[derive(Clone, Copy)]
enum Call {
    Put(u16),
    Take(Option<u16>),
    DropOne(u16, bool),
}

// Makes one call after another.
fn make_all(rt: &impl Abort, works: &mut Works, calls: &[Call])
    requires { works.old.timers ≡ 4 }
{
    for call in calls {
        match *call {
            Call::Put(timer) => {
                assert!(rt; timer < 4);
                assert!(rt; !works.holds(ObjNo(timer)));
                works.put(ObjNo(timer));
                assert!(rt; works.holds(ObjNo(timer)));
            }
            Call::Take(wanted) => {
                let taken = works.take().map(|timer| timer.0);
                assert_eq!(rt; taken, wanted);
            }
            Call::DropOne(timer, wanted) => {
                assert_eq!(rt; works.drop_one(ObjNo(timer)), wanted);
                assert!(rt; !works.holds(ObjNo(timer)));
            }
        }
    }
}

#[test]
fn works_are_done_in_the_order_of_firing(rt: HostRuntime) -> Result<(), Fail> {
    let fired_and_done = [Call::Put(0), Call::Take(Some(0)), Call::Take(None)];
    let stopped_before_it_was_done = [Call::Put(0), Call::DropOne(0, true), Call::Take(None)];
    let first_fired_first_done = [
        Call::Put(2),
        Call::Put(0),
        Call::Put(3),
        Call::Take(Some(2)),
        Call::Take(Some(0)),
        Call::Take(Some(3)),
    ];
    let the_middle_one_is_stopped = [
        Call::Put(1),
        Call::Put(3),
        Call::Put(2),
        Call::DropOne(3, true),
        Call::DropOne(3, false),
        Call::Take(Some(1)),
        Call::Take(Some(2)),
        Call::Take(None),
    ];
    let started_anew_it_is_the_last = [
        Call::Put(1),
        Call::Put(2),
        Call::DropOne(1, true),
        Call::Put(1),
        Call::Take(Some(2)),
        Call::Take(Some(1)),
    ];
    let no_such_timer = [Call::DropOne(4, false), Call::DropOne(65535, false)];
    let rows: [&[Call]; 6] = [
        &fired_and_done,
        &stopped_before_it_was_done,
        &first_fired_first_done,
        &the_middle_one_is_stopped,
        &started_anew_it_is_the_last,
        &no_such_timer,
    ];
    for calls in rows {
        let mut works = Works::new(rt.alloc(), 4)?;
        make_all(&rt, &mut works, calls);
    }
    Ok(())
}

#[test]
fn seeded_calls_agree_with_a_plain_list(rt: HostRuntime) -> Result<(), Fail> {
    for seed in 0..200u64 {
        let mut works = Works::new(rt.alloc(), 6)?;
        let mut plain = Vec::new(rt.alloc());
        let mut words = Pcg32::seed_from_u64(seed);
        for _ in 0..60 {
            let timer = (words.next_word() % 6) as u16;
            match words.next_word() % 4 {
                0 => {
                    let first = if plain.is_empty() {
                        None
                    } else {
                        Some(ObjNo(plain.remove(0)))
                    };
                    assert_eq!(rt; works.take(), first);
                }
                1 => {
                    let was_there = plain.contains(&timer);
                    plain.retain(|other| *other != timer);
                    assert_eq!(rt; works.drop_one(ObjNo(timer)), was_there);
                }
                _ => {
                    if !works.holds(ObjNo(timer)) {
                        works.put(ObjNo(timer));
                        plain.push(timer)?;
                    }
                }
            }
            assert_eq!(rt; works.holds(ObjNo(timer)), plain.contains(&timer));
        }
    }
    Ok(())
}
