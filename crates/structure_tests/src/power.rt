use pm_core::{LpClock, Votes, length, rounds};
use rand_core::SeedableRng;
use rand_core::utils::NextWord;
use rand_pcg::Pcg32;
use rt_base::{Code, RunMode, Sleep};
use std::test::Fail;

const LONGEST: u32 = 2147483647;

const LAST: u64 = 4294967295;

const MODES: [Sleep; 6] = [
    Sleep::Deep,
    Sleep::Idle,
    Sleep::Shutdown,
    Sleep::Light,
    Sleep::NoSleep,
    Sleep::Standby,
];

#[test]
fn the_lightest_vote_decides(rt: HostRuntime) {
    let mut votes = Votes::new(Sleep::Light);
    assert_eq!(rt; votes.mode(), Sleep::Light);
    for mode in [Sleep::Deep, Sleep::Light, Sleep::Deep] {
        assert_eq!(rt; votes.request(mode), Code::Ok);
    }
    assert_eq!(rt; votes.mode(), Sleep::Light);
    assert_eq!(rt; votes.release(Sleep::Light), Code::Ok);
    assert_eq!(rt; votes.mode(), Sleep::Deep);
    assert_eq!(rt; votes.release(Sleep::Light), Code::Error);
    for _ in 0..253u8 {
        assert_eq!(rt; votes.request(Sleep::Deep), Code::Ok);
    }
    assert_eq!(rt; votes.request(Sleep::Deep), Code::Full);
    assert_eq!(rt; votes.count(Sleep::Deep), 255);
}

#[test]
fn periods_have_rounds_by_the_run_mode(rt: HostRuntime) {
    for (mode, count) in [
        (RunMode::High, 8),
        (RunMode::Normal, 4),
        (RunMode::Medium, 2),
        (RunMode::Low, 1),
    ] {
        assert_eq!(rt; rounds(mode), count);
    }
}

#[test]
fn a_sleep_ends_at_the_least_moment(rt: HostRuntime) {
    let clock = LpClock::new(1, 1);
    for (due, arrival, lpmax, until, thresh, ticks) in [
        (10, Some(9), LONGEST, LAST, 2, Some(9)),
        (10, Some(9), 4, LAST, 2, Some(4)),
        (10, Some(9), LONGEST, 6, 2, Some(6)),
        (10, Some(9), LONGEST, LAST, 20, None),
        (1, None, LONGEST, LAST, 2, None),
        (2, None, LONGEST, LAST, 2, Some(2)),
    ] {
        let found = length(&clock, Some(due), arrival, lpmax, until, thresh);
        assert_eq!(rt; found, ticks);
    }
    assert_eq!(rt; length(&clock, None, None, LONGEST, 7, 2), Some(7));
}

#[test]
fn a_sleep_ends_with_a_whole_count(rt: HostRuntime) {
    let mut clock = LpClock::new(32768, 1000);
    assert_eq!(rt; clock.set(10), (327, 9));
    assert_eq!(rt; length(&clock, Some(10), None, LONGEST, LAST, 2), Some(9));
    clock.advance(9);
    assert_eq!(rt; (clock.count(), clock.rem()), (294, 912));
    assert_eq!(rt; clock.set(1), (33, 0));
    assert_eq!(rt; length(&clock, Some(1), None, LONGEST, LAST, 1), None);
    clock.advance(1);
    assert_eq!(rt; (clock.count(), clock.rem()), (327, 680));
    let slow = LpClock::new(1, 10);
    assert_eq!(rt; slow.set(25), (2, 20));
    assert_eq!(rt; slow.set(9), (0, 0));
}

#[test]
fn ten_sleeps_of_a_tenth_make_a_second(rt: HostRuntime) {
    let mut clock = LpClock::new(32768, 1000);
    for _ in 0..10u32 {
        clock.advance(100);
    }
    assert_eq!(rt; (clock.count(), clock.rem()), (32768, 0));
}

#[test]
fn votes_answer_as_a_plain_list(rt: HostRuntime) -> Result<(), Fail> {
    let mut draws = Pcg32::seed_from_u64(14);
    let mut votes = Votes::new(Sleep::Standby);
    let mut plain = Vec::new(rt.alloc());
    for _ in 0..300u32 {
        let draw = draws.next_word();
        let mode = MODES[(draw % 6) as usize];
        let held = plain.iter().position(|vote| *vote == mode);
        if draw / 6 % 2 == 0 {
            assert_eq!(rt; votes.request(mode), Code::Ok);
            plain.push(mode)?;
        } else if let Some(place) = held {
            assert_eq!(rt; votes.release(mode), Code::Ok);
            plain.remove(place);
        } else {
            assert_eq!(rt; votes.release(mode), Code::Error);
        }
        let lightest = plain
            .iter()
            .copied()
            .min_by_key(|vote: &Sleep| vote.number());
        assert_eq!(rt; votes.mode(), lightest.unwrap_or(Sleep::Standby));
    }
    Ok(())
}

#[test]
fn sleeps_are_as_long_as_a_count_finds(rt: HostRuntime) {
    let mut draws = Pcg32::seed_from_u64(16);
    let clock = LpClock::new(1, 1);
    for _ in 0..300u32 {
        let draw = draws.next_word();
        let due = 1 + draw % 20;
        let arrival = 1 + (draw / 20 % 20) as u64;
        let until = 1 + (draw / 400 % 20) as u64;
        let longest = 1 + draw / 8000 % 20;
        let counted = (1..longest)
            .find(|n| *n == due || [arrival, until].contains(&(*n as u64)))
            .unwrap_or(longest);
        let wanted = (counted >= 3).then_some(counted);
        assert_eq!(rt;
            length(&clock, Some(due), Some(arrival), longest, until, 3),
            wanted
        );
    }
}
