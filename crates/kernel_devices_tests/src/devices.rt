use board_text::parse;
use kernel_devices::Devices;
use rt_base::{Name, Text};
use rt_plain::{Line, Lines, Row};
use std::alloc::Global;
use std::process::Abort;
use std::test::Fail;

// A device with rings of four bytes that sends three a tick, and one with larger rings.
const BOARD: &[u8] =
    b"board 1\ndevice uart1 4 4 3 nopm s\ndevice uart2 64 64 64 pm -\nthread a 5 3 any start\n";

// Two arrivals at one moment, and one at the next.
const ARRIVALS: &[u8] =
    b"board 1\nlpclock 32768 1000\ndevice uart1 4 4 3 nopm s\nthread a 5 3 any start\narrive 327 console \"x\"\narrive 327 uart1 \"ab\"\narrive 328 console \"y\"\n";

// A call on a device.
#[derive(Clone, Copy)]
enum Call {
    Open,
    Close,
    Read,
    Write,
    Rate,
    Arrive,
}

// What came of it: there is no such device, it refuses, or it was done, with the number of bytes where there is one.
#[derive(Clone, Copy, Debug, PartialEq, Eq)]
enum Answer {
    Missing,
    Refused,
    Done(u8),
}

// A call with its number and its text, which is what was read for a read, and the answer that it has to have.
#[derive(Clone, Copy)]
struct Case {
    call: Call,
    name: &'static [u8],
    number: u8,
    text: &'static [u8],
    answer: Answer,
}

fn case_of(
    call: Call,
    name: &'static [u8],
    number: u8,
    text: &'static [u8],
    answer: Answer,
) -> Case {
    Case {
        call,
        name,
        number,
        text,
        answer,
    }
}

// A closed device refuses, and loses what arrives. An open one keeps the last four bytes, and the first four written.
fn ring_cases() -> [Case; 9] {
    [
        case_of(Call::Read, b"uart1", 8, b"-", Answer::Refused),
        case_of(Call::Write, b"uart1", 0, b"hello", Answer::Refused),
        case_of(Call::Arrive, b"uart1", 0, b"abcdef", Answer::Done(6)),
        case_of(Call::Open, b"uart1", 0, b"-", Answer::Done(0)),
        case_of(Call::Read, b"uart1", 8, b"", Answer::Done(0)),
        case_of(Call::Arrive, b"uart1", 0, b"abcdef", Answer::Done(2)),
        case_of(Call::Read, b"uart1", 3, b"cde", Answer::Done(3)),
        case_of(Call::Write, b"uart1", 0, b"hello", Answer::Done(4)),
        case_of(Call::Write, b"uart1", 0, b"o", Answer::Done(0)),
    ]
}

// The last closing drops what was received. The console takes all, has no rate and stays open.
fn other_cases() -> [Case; 9] {
    [
        case_of(Call::Close, b"uart1", 0, b"-", Answer::Done(0)),
        case_of(Call::Close, b"uart1", 0, b"-", Answer::Refused),
        case_of(Call::Open, b"uart1", 0, b"-", Answer::Done(0)),
        case_of(Call::Read, b"uart1", 8, b"", Answer::Done(0)),
        case_of(Call::Rate, b"uart1", 1, b"-", Answer::Done(0)),
        case_of(Call::Rate, b"console", 1, b"-", Answer::Refused),
        case_of(Call::Close, b"console", 0, b"-", Answer::Refused),
        case_of(Call::Write, b"console", 0, b"hello", Answer::Done(5)),
        case_of(Call::Open, b"uart3", 0, b"-", Answer::Missing),
    ]
}

fn told<E: Copy>(answer: Option<Result<(), E>>) -> Answer {
    match answer {
        None => Answer::Missing,
        Some(Err(_)) => Answer::Refused,
        Some(Ok(())) => Answer::Done(0),
    }
}

// Reads, and looks at the bytes.
fn read(rt: &impl Abort, devices: &mut Devices, name: &Name, number: u8, text: &[u8]) -> Answer {
    assert!(rt; number <= 64);
    match devices.read(name, number) {
        None => Answer::Missing,
        Some(Err(_)) => Answer::Refused,
        Some(Ok(read)) => {
            match &read.text {
                Some(bytes) => assert_eq!(rt; bytes.bytes(), text),
                None => assert!(rt; text.is_empty()),
            }
            Answer::Done(read.count)
        }
    }
}

fn write(devices: &mut Devices, name: &Name, text: &Text) -> Answer {
    match devices.write(name, text) {
        None => Answer::Missing,
        Some(Err(_)) => Answer::Refused,
        Some(Ok(written)) => Answer::Done(written.count),
    }
}

fn arrive(devices: &mut Devices, name: &Name, text: &Text) -> Answer {
    match devices.arrive(name, text) {
        None => Answer::Missing,
        Some(arrived) => Answer::Done(arrived.lost),
    }
}

fn set_rate(rt: &impl Abort, devices: &mut Devices, name: &Name, rate: u8) -> Answer {
    assert!(rt; 1 <= rate && rate <= 64);
    told(devices.set_rate(name, rate))
}

// Makes the call of a case, whose text is given for a write and an arrival.
fn called(rt: &impl Abort, devices: &mut Devices, case: Case, name: &Name, text: &Text) -> Answer {
    match case.call {
        Call::Open => told(devices.open_device(name)),
        Call::Close => told(devices.close_device(name)),
        Call::Read => read(rt, devices, name, case.number, case.text),
        Call::Write => write(devices, name, text),
        Call::Rate => set_rate(rt, devices, name, case.number),
        Call::Arrive => arrive(devices, name, text),
    }
}

// The bytes as a text, or one of one byte where there are none.
fn text_of(bytes: &[u8]) -> Result<Text, Fail> {
    if bytes.is_empty() {
        return Ok(Text::read(b"-").ok_or("text")?);
    }
    Ok(Text::read(bytes).ok_or("text")?)
}

// Makes the call of a case, and looks at its answer.
fn perform(rt: &impl Abort, devices: &mut Devices, case: Case) -> Result<(), Fail> {
    let name = Name::read(case.name).ok_or("name")?;
    let text = text_of(case.text)?;
    let answer = called(rt, devices, case, &name, &text);
    assert_eq!(rt; answer, case.answer);
    Ok(())
}

fn perform_all(rt: &impl Abort, devices: &mut Devices, cases: &[Case]) -> Result<(), Fail> {
    for case in cases {
        perform(rt, devices, *case)?;
    }
    Ok(())
}

// A tick in which one device sends these bytes, or none does where there are none.
fn drain(rt: &impl Abort, devices: &mut Devices, out: &mut Lines, sent: &[u8]) {
    out.clear();
    assert!(rt; devices.count() <= out.spare());
    devices.drain(out);
    if sent.is_empty() {
        assert_eq!(rt; out.len(), 0);
        return;
    }
    assert!(rt; out.len() > 0);
    match out.at(0) {
        Line::Tx(name, text) => {
            assert_eq!(rt; name.bytes(), b"uart1".as_slice());
            assert_eq!(rt; text.bytes(), sent);
        }
        _ => assert!(rt; false, "no line of a device"),
    }
}

// Whether the row at a place shows this device, open so often, with so many received bytes.
fn shows(devices: &Devices, place: usize, name: &[u8], opened: u8, rx: u16) -> bool {
    if place >= devices.count() {
        return false;
    }
    match devices.row(place) {
        Row::Device {
            name: its,
            console: _,
            opened: now,
            rx: held,
            tx: _,
        } => its.bytes() == name && now == opened && held == rx,
        _ => false,
    }
}

// The devices of the text's board.
fn opened(alloc: Global, text: &[u8]) -> Result<Devices, Fail> {
    let board = parse(alloc, text).ok().ok_or("board")?;
    Ok(Devices::open(alloc, &board)?)
}

#[test]
fn devices_keep_what_fits(rt: HostRuntime) -> Result<(), Fail> {
    let mut out = Lines::new(rt.alloc(), 16)?;
    let mut devices = opened(rt.alloc(), BOARD)?;
    assert_eq!(rt; devices.count(), 3);
    perform_all(&rt, &mut devices, &ring_cases())?;
    assert!(rt; shows(&devices, 0, b"uart2", 0, 0) && shows(&devices, 1, b"uart1", 1, 1));
    assert!(rt; devices.busy());
    drain(&rt, &mut devices, &mut out, b"hel");
    perform_all(&rt, &mut devices, &other_cases())?;
    assert!(rt; devices.busy());
    drain(&rt, &mut devices, &mut out, b"l");
    assert!(rt; !devices.busy());
    drain(&rt, &mut devices, &mut out, b"");
    Ok(())
}

// Whether the one line is that of this device, suspended or resumed.
fn shows_power(out: &Lines, suspended: bool, name: &[u8]) -> bool {
    if out.len() != 1 {
        return false;
    }
    match out.at(0) {
        Line::Suspend(device) => suspended && device.bytes() == name,
        Line::Resume(device) => !suspended && device.bytes() == name,
        _ => false,
    }
}

#[test]
fn a_device_with_power_management_is_suspended(rt: HostRuntime) -> Result<(), Fail> {
    let mut out = Lines::new(rt.alloc(), 16)?;
    let devices = opened(rt.alloc(), BOARD)?;
    assert!(rt; devices.count() <= out.spare());
    devices.power_down(&mut out);
    assert!(rt; shows_power(&out, true, b"uart2"));
    out.clear();
    assert!(rt; devices.count() <= out.spare());
    devices.power_up(&mut out);
    assert!(rt; shows_power(&out, false, b"uart2"));
    Ok(())
}

// Takes the next arrival, which comes at this moment at this device.
fn take(rt: &impl Abort, devices: &mut Devices, moment: u64, name: &[u8], text: &[u8]) {
    let Some(next) = devices.next_arrival() else {
        assert!(rt; false, "nothing arrives");
        return;
    };
    assert_eq!(rt; next, moment);
    match devices.take_arrival(next) {
        Some(arrival) => {
            assert_eq!(rt; arrival.device.bytes(), name);
            assert_eq!(rt; arrival.text.bytes(), text);
        }
        None => assert!(rt; false, "nothing arrives then"),
    }
}

#[test]
fn arrivals_come_in_board_order(rt: HostRuntime) -> Result<(), Fail> {
    let mut devices = opened(rt.alloc(), ARRIVALS)?;
    take(&rt, &mut devices, 10, b"console", b"x");
    take(&rt, &mut devices, 10, b"uart1", b"ab");
    take(&rt, &mut devices, 11, b"console", b"y");
    assert!(rt; devices.next_arrival().is_none());
    Ok(())
}

#[test]
fn the_console_gives_byte_by_byte(rt: HostRuntime) -> Result<(), Fail> {
    let mut devices = opened(rt.alloc(), BOARD)?;
    let console = Name::read(b"console").ok_or("name")?;
    let text = Text::read(b"ps").ok_or("text")?;
    assert!(rt; devices.is_console_empty());
    assert_eq!(rt; arrive(&mut devices, &console, &text), Answer::Done(0));
    assert!(rt; shows(&devices, 2, b"console", 1, 2));
    assert_eq!(rt; devices.console_byte(), Some(b'p'));
    assert_eq!(rt; devices.console_byte(), Some(b's'));
    assert_eq!(rt; devices.console_byte(), None);
    Ok(())
}
