ghost use Rattle.std.specs.Prelude.{IfOk, IsTrue};
ghost use Rattle.object_box.specs.Objects.{has_number};

use object_box::{ClassLimits, Make, NoRate, NotOpen, Objects};
use rand_core::SeedableRng;
use rand_core::utils::NextWord;
use rand_pcg::Pcg32;
use rt_base::{Class, Name, ObjNo};
use std::alloc::{AllocError, Global};
use std::process::Abort;
use std::test::Fail;

const LIMITS: ClassLimits = ClassLimits {
    thread: 3,
    sem: 1,
    event: 1,
    mutex: 1,
    mailbox: 1,
    msgqueue: 1,
    timer: 4,
    device: 2,
};

// The name of a text that is one.
fn name(rt: &impl Abort, text: &[u8]) -> Name {
    Name::read(text).expect(rt, "a name")
}

#[test]
fn makes_up_to_the_limit(rt: HostRuntime) -> Result<(), Fail> {
    let mut objects = Objects::new(rt.alloc(), LIMITS)?;
    let made = objects.make(Class::Sem, name(&rt, b"a"));
    assert_eq!(rt; made, Ok(ObjNo(0)));
    let again = objects.make(Class::Sem, name(&rt, b"a"));
    assert_eq!(rt; again, Err(Make::Taken(ObjNo(0))));
    let more = objects.make(Class::Sem, name(&rt, b"b"));
    assert_eq!(rt; more, Err(Make::ClassFull(1)));
    assert_eq!(rt; objects.find(Class::Sem, &name(&rt, b"a")), Some(ObjNo(0)));
    assert_eq!(rt; objects.find(Class::Event, &name(&rt, b"a")), None);
    Ok(())
}

#[test]
fn gives_the_least_free_number_and_puts_it_in_front(rt: HostRuntime) -> Result<(), Fail> {
    let mut objects = Objects::new(rt.alloc(), LIMITS)?;
    for (text, no) in [(b"a", 0), (b"b", 1), (b"c", 2)] {
        let made = objects.make(Class::Thread, name(&rt, text));
        assert_eq!(rt; made, Ok(ObjNo(no)));
    }
    assert!(rt; objects.holds(Class::Thread, ObjNo(1)));
    objects.remove(Class::Thread, ObjNo(1));
    let made = objects.make(Class::Thread, name(&rt, b"d"));
    assert_eq!(rt; made, Ok(ObjNo(1)));
    assert_eq!(rt; objects.count(Class::Thread), 3);
    for (place, text, no) in [(0, b"d", 1), (1, b"c", 2), (2, b"a", 0)] {
        assert!(rt; place < objects.count(Class::Thread));
        let (found, named) = objects.at(Class::Thread, place);
        assert_eq!(rt; found, ObjNo(no));
        assert_eq!(rt; named.bytes(), text.as_slice());
    }
    Ok(())
}

// Makes the only device of a name, which gets number 0.
fn device(rt: &impl Abort, alloc: Global, text: &[u8]) -> Result<Objects, AllocError>
    ensures { IfOk result (λ a. IsTrue (has_number a.device.objects 0)) }
{
    let mut objects = Objects::new(alloc, LIMITS)?;
    let made = objects.make(Class::Device, name(rt, text));
    assert_eq!(rt; made, Ok(ObjNo(0)));
    assert!(rt; objects.holds(Class::Device, ObjNo(0)));
    Ok(objects)
}

#[test]
fn the_console_stays_open_without_a_rate(rt: HostRuntime) -> Result<(), Fail> {
    let mut objects = device(&rt, rt.alloc(), b"console")?;
    assert_eq!(rt; objects.open_dev(ObjNo(0)), Ok(1));
    assert!(rt; objects.holds(Class::Device, ObjNo(0)));
    assert_eq!(rt; objects.close_dev(ObjNo(0)), Err(NotOpen));
    assert!(rt; objects.holds(Class::Device, ObjNo(0)));
    assert_eq!(rt; objects.set_rate(ObjNo(0), 8), Err(NoRate));
    Ok(())
}

#[test]
fn a_device_opens_and_closes(rt: HostRuntime) -> Result<(), Fail> {
    let mut objects = device(&rt, rt.alloc(), b"uart")?;
    assert_eq!(rt; objects.rate(ObjNo(0)), 1);
    assert_eq!(rt; objects.open_dev(ObjNo(0)), Ok(1));
    assert!(rt; objects.holds(Class::Device, ObjNo(0)));
    assert_eq!(rt; objects.close_dev(ObjNo(0)), Ok(0));
    assert!(rt; objects.holds(Class::Device, ObjNo(0)));
    assert_eq!(rt; objects.opened(ObjNo(0)), 0);
    Ok(())
}

// The least number below the limit of timers that isn't in a plain list.
fn least_free(plain: &[(u16, u8)]) -> Option<u16> {
    (0..LIMITS.timer).find(|no| !plain.iter().any(|p| p.0 == *no))
}

// Makes a timer of a letter, on the objects and on a plain list, newest first.
fn make(
    rt: &impl Abort,
    objects: &mut Objects,
    plain: &mut Vec<(u16, u8)>,
    letter: u8,
) -> Result<(), Fail> {
    let there = plain.iter().find(|p| p.1 == letter).map(|p| p.0);
    let wanted = match (there, least_free(plain)) {
        (Some(no), _) => Err(Make::Taken(ObjNo(no))),
        (None, Some(no)) => Ok(ObjNo(no)),
        (None, None) => Err(Make::ClassFull(LIMITS.timer)),
    };
    let made = objects.make(Class::Timer, name(rt, &[letter]));
    assert_eq!(rt; made, wanted);
    if let Ok(no) = made {
        plain.insert(0, (no.0, letter))?;
    }
    Ok(())
}

// Removes the timer of a letter, if there is one.
fn remove(rt: &impl Abort, objects: &mut Objects, plain: &mut Vec<(u16, u8)>, letter: u8) {
    let found = objects.find(Class::Timer, &name(rt, &[letter]));
    let there = plain.iter().find(|p| p.1 == letter).map(|p| ObjNo(p.0));
    assert_eq!(rt; found, there);
    if let Some(no) = found {
        assert!(rt; objects.holds(Class::Timer, no));
        objects.remove(Class::Timer, no);
        plain.retain(|p| p.1 != letter);
    }
}

// Sees that the timers are those of a plain list, in its order.
fn same(rt: &impl Abort, objects: &Objects, plain: &[(u16, u8)]) {
    let count = objects.count(Class::Timer);
    assert_eq!(rt; count as usize, plain.len());
    for place in 0..count {
        let (no, named) = objects.at(Class::Timer, place);
        let (wanted, letter) = plain[place as usize];
        assert_eq!(rt; no, ObjNo(wanted));
        assert_eq!(rt; named.bytes(), [letter].as_slice());
    }
}

#[test]
fn agrees_with_a_plain_list(rt: HostRuntime) -> Result<(), Fail> {
    for seed in 0..200u64 {
        let mut objects = Objects::new(rt.alloc(), LIMITS)?;
        let mut plain = Vec::new(rt.alloc());
        let mut words = Pcg32::seed_from_u64(seed);
        for _ in 0..40 {
            let letter = b'a' + (words.next_word() % 6) as u8;
            if words.next_word() % 3 == 0 {
                remove(&rt, &mut objects, &mut plain, letter);
            } else {
                make(&rt, &mut objects, &mut plain, letter)?;
            }
        }
        same(&rt, &objects, &plain);
    }
    Ok(())
}
