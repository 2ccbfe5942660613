//! What stands in the cells of the tables, and its text.
ghost use Rattle.std.specs.Prelude.{false, ◌≡◌, ◌≤◌, ◌<◌, length, decimal, codes, All};
ghost use Rattle.std.specs.Fmt.{digit_glyph};
ghost use Rattle.rt_plain.specs.text.Words.{code_text, sleep_text, hex_eight};
ghost use Rattle.rt_plain.specs.kernel.Tables.{state_text, kind_text, number_or};
ghost use Rattle.finsh.specs.Cells.{cell_text, room_of, name_or_dash, device_text};

use arrayvec::ArrayVec;
use itoa::Buffer;
use rt_base::{Code, CoreNo, Name, Prio, Sleep};
use rt_plain::ThreadState;

/// What stands in a cell.
#[derive(Clone, Copy)]
pub(crate) enum Cell<'a> {
    Name(&'a Name),
    Owner(&'a Option<Name>),
    Prio(Prio),
    State(ThreadState),
    Core(Option<CoreNo>),
    Code(Code),
    Flags(u32),
    Kind { soft: bool, periodic: bool },
    Due(Option<u32>),
    Device { console: bool },
    Mode(Sleep),
    Byte(u8),
    Half(u16),
    Number(u32),
}

/// The text of a cell.
pub(crate) type CellText = ArrayVec<u8, 10>;

fn short(bytes: &[u8]) -> CellText
    requires { length bytes.now ≤ 10 }
    ensures { result.items ≡ bytes.now }
{
    let mut text = CellText::new();
    if text.try_extend_from_slice(bytes).is_err() {
        unreachable!();
    }
    text
}

fn byte(n: u8) -> CellText
    ensures text { result.items ≡ decimal n }
    ensures short { length result.items ≤ 3 }
{
    let mut digits = Buffer::new();
    short(digits.format(n).as_bytes())
}

fn half(n: u16) -> CellText
    ensures text { result.items ≡ decimal n }
    ensures short { length result.items ≤ 5 }
{
    let mut digits = Buffer::new();
    short(digits.format(n).as_bytes())
}

fn number(n: u32) -> CellText
    ensures text { result.items ≡ decimal n }
{
    let mut digits = Buffer::new();
    short(digits.format(n).as_bytes())
}

fn name_or_dash(name: &Option<Name>) -> CellText
    ensures { result.items ≡ name_or_dash name.now }
{
    match name {
        Some(name) => short(name.bytes()),
        None => short(b"-"),
    }
}

fn core(core: Option<CoreNo>) -> CellText
    ensures { result.items ≡ number_or (codes "any") core }
{
    match core {
        Some(core) => byte(core.0),
        None => short(b"any"),
    }
}

fn due(due: Option<u32>) -> CellText
    ensures { result.items ≡ number_or (codes "-") due }
{
    match due {
        Some(tick) => number(tick),
        None => short(b"-"),
    }
}

fn code(code: Code) -> CellText
    ensures { result.items ≡ code_text code }
{
    let number = code.number();
    if number == 0 {
        return short(b"0");
    }
    let mut text = short(b"-");
    if text.try_extend_from_slice(byte(number).as_slice()).is_err() {
        unreachable!();
    }
    text
}

fn state(state: ThreadState) -> &'static [u8]
    ensures { result.now ≡ state_text state }
{
    match state {
        ThreadState::Initial => b"initial",
        ThreadState::Ready => b"ready",
        ThreadState::Running => b"running",
        ThreadState::Suspended => b"suspend",
    }
}

fn kind(soft: bool, periodic: bool) -> &'static [u8]
    ensures { result.now ≡ kind_text soft periodic }
{
    match (soft, periodic) {
        (false, false) => b"oneshot",
        (false, true) => b"periodic",
        (true, false) => b"softone",
        (true, true) => b"softper",
    }
}

fn device(console: bool) -> &'static [u8]
    ensures { result.now ≡ device_text console }
{
    if console { b"console" } else { b"serial" }
}

// The word of a sleep mode.
pub(crate) fn mode(mode: Sleep) -> &'static [u8]
    ensures word { result.now ≡ sleep_text mode }
    ensures short { length result.now ≤ 8 }
{
    match mode {
        Sleep::NoSleep => b"none",
        Sleep::Idle => b"idle",
        Sleep::Light => b"light",
        Sleep::Deep => b"deep",
        Sleep::Standby => b"standby",
        Sleep::Shutdown => b"shutdown",
    }
}

// A hexadecimal digit.
fn glyph(digit: u8) -> u8
    requires { digit < 16 }
    ensures { result ≡ digit_glyph false digit }
{
    if digit < 10 {
        b'0' + digit
    } else {
        b'a' + (digit - 10)
    }
}

// Eight hexadecimal digits, the last one written first.
fn hex(n: u32) -> [u8; 8]
    ensures { result ≡ hex_eight n }
{
    let mut digits = [b'0'; 8];
    let mut left = n;
    let mut i = 8;
    while i > 0 {
        i -= 1;
        digits[i] = glyph((left % 16) as u8);
        left /= 16;
    }
    digits
}

// The text of a cell.
pub(crate) fn written(cell: &Cell) -> CellText
    ensures { result.items ≡ cell_text cell.now }
{
    match cell {
        Cell::Name(name) => short(name.bytes()),
        Cell::Owner(name) => name_or_dash(name),
        Cell::Prio(prio) => byte(prio.0),
        Cell::State(s) => short(state(*s)),
        Cell::Core(c) => core(*c),
        Cell::Code(c) => code(*c),
        Cell::Flags(flags) => short(&hex(*flags)),
        Cell::Kind { soft, periodic } => short(kind(*soft, *periodic)),
        Cell::Due(tick) => due(*tick),
        Cell::Device { console } => short(device(*console)),
        Cell::Mode(m) => short(mode(*m)),
        Cell::Byte(n) => byte(*n),
        Cell::Half(n) => half(*n),
        Cell::Number(n) => number(*n),
    }
}

fn know_byte(n: u8)
    ensures { length (decimal n) ≤ 3 }
{}

fn know_half(n: u16)
    ensures { length (decimal n) ≤ 5 }
{}

fn know_number(n: u32)
    ensures { length (decimal n) ≤ 10 }
{}

#[tactic(auto, using(crate::proofs::Hex::eight_long))]
fn know_flags(n: u32)
    ensures { length (hex_eight n) ≤ 8 }
{}

fn know_owner(name: &Option<Name>)
    ensures { length (name_or_dash name.now) ≤ 8 }
{
    if let Some(name) = name {
        name.bytes();
    }
}

fn know_core(core: Option<CoreNo>)
    ensures { length (number_or (codes "any") core) ≤ 3 }
{
    if let Some(core) = core {
        know_byte(core.0);
    }
}

fn know_due(due: Option<u32>)
    ensures { length (number_or (codes "-") due) ≤ 10 }
{
    if let Some(tick) = due {
        know_number(tick);
    }
}

// The text of a cell has room. It does nothing when it runs.
#[tactic(auto, using(crate::proofs::Short::state, crate::proofs::Short::code, crate::proofs::Short::kind, crate::proofs::Short::device, crate::proofs::Short::mode))]
fn know_cell(cell: &Cell)
    ensures { length (cell_text cell.now) ≤ room_of cell.now }
{
    match cell {
        Cell::Name(name) => {
            name.bytes();
        }
        Cell::Owner(name) => know_owner(name),
        Cell::Prio(prio) => know_byte(prio.0),
        Cell::Core(core) => know_core(*core),
        Cell::Flags(flags) => know_flags(*flags),
        Cell::Due(tick) => know_due(*tick),
        Cell::Byte(n) => know_byte(*n),
        Cell::Half(n) => know_half(*n),
        Cell::Number(n) => know_number(*n),
        Cell::State(_) | Cell::Code(_) | Cell::Kind { .. } | Cell::Device { .. } | Cell::Mode(_) =>
            {}
    }
}

// The texts of cells have room. It does nothing when it runs.
pub(crate) fn know_cells(cells: &[Cell])
    ensures { All (λ c. length (cell_text c) ≤ room_of c) cells.now }
{
    for cell in cells {
        know_cell(cell);
    }
}
