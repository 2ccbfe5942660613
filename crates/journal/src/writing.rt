ghost use Rattle.std.specs.Prelude.{◌≡◌, ◌++◌, [], ◌∷◌, OnOk, codes};
ghost use Rattle.std.specs.Fmt.{decimal};
ghost use Rattle.std.specs.List.{flat_map};
ghost use Rattle.rt_plain.specs.text.Words.{words};
ghost use Rattle.rt_plain.specs.text.Texts.{quoted_text, line_text, indented_line};
ghost use Rattle.journal.specs.Spelled.{spelled};

use crate::backward::Backward;
use crate::shown::{
    Shown, acted, answered, changed, half, mode, name, number, placed, received, text, woken,
};
use crate::table::trace_rows;
use itoa::Buffer;
use rt_base::List;
use rt_plain::Line;
use rt_plain::quotes::put_quoted;
use std::alloc::AllocError;

// Adds bytes at the end.
pub(crate) fn put(out: &mut List<u8>, bytes: &[u8]) -> Result<(), AllocError>
    ensures { OnOk result (out.new ≡ out.old ++ bytes.now) }
{
    out.extend_from_slice(bytes)
}

// Adds a number in digits.
pub(crate) fn put_number(out: &mut List<u8>, n: u64) -> Result<(), AllocError>
    ensures { OnOk result (out.new ≡ out.old ++ decimal n) }
{
    let mut digits = Buffer::new();
    put(out, digits.format(n).as_bytes())
}

fn put_negative(out: &mut List<u8>, n: u8) -> Result<(), AllocError>
    ensures { OnOk result (out.new ≡ out.old ++ (codes "-" ++ decimal n)) }
{
    put(out, b"-")?;
    put_number(out, u64::from(n))
}

fn put_change(out: &mut List<u8>, before: u8, after: u8) -> Result<(), AllocError>
    ensures { OnOk result (out.new ≡ out.old ++ (decimal before ++ codes ">" ++ decimal after)) }
{
    put_number(out, u64::from(before))?;
    put(out, b">")?;
    put_number(out, u64::from(after))
}

fn put_received(out: &mut List<u8>, text: &[u8], lost: u8) -> Result<(), AllocError>
    ensures { OnOk result (out.new ≡ out.old ++ (quoted_text text.now ++ codes " " ++ decimal lost)) }
{
    put_quoted(out, text)?;
    put(out, b" ")?;
    put_number(out, u64::from(lost))
}

fn put_shown(out: &mut List<u8>, field: Shown<'_>) -> Result<(), AllocError>
    ensures { OnOk result (out.new ≡ out.old ++ spelled field.entry) }
{
    match field {
        Shown::Word(word) => put(out, word),
        Shown::Number(n) => put_number(out, n),
        Shown::Negative(n) => put_negative(out, n),
        Shown::Change(before, after) => put_change(out, before, after),
        Shown::Quoted(text) => put_quoted(out, text),
        Shown::Received(text, lost) => put_received(out, text, lost),
    }
}

// A field behind a space.
fn put_spaced(out: &mut List<u8>, field: Shown<'_>) -> Result<(), AllocError>
    ensures { OnOk result (out.new ≡ out.old ++ 32 ∷ spelled field.entry) }
{
    if let Shown::Number(n) = field {
        let mut digits = Backward::new();
        digits.put_number(n);
        digits.put(b" ");
        return put(out, digits.as_slice());
    }
    put(out, b" ")?;
    put_shown(out, field)
}

// A line's word and one field.
fn all1(out: &mut List<u8>, word: &[u8], a: Shown<'_>) -> Result<(), AllocError>
    ensures { OnOk result (out.new ≡ out.old ++ words (word.now ∷ spelled a.entry ∷ [])) }
{
    put(out, word)?;
    put_spaced(out, a)
}

// A line's word and two fields.
fn all2(out: &mut List<u8>, word: &[u8], a: Shown<'_>, b: Shown<'_>) -> Result<(), AllocError>
    ensures { OnOk result (out.new ≡ out.old ++ words (word.now ∷ spelled a.entry ∷ spelled b.entry ∷ [])) }
{
    all1(out, word, a)?;
    put_spaced(out, b)
}

// A line's word and three fields.
fn all3(
    out: &mut List<u8>,
    word: &[u8],
    a: Shown<'_>,
    b: Shown<'_>,
    c: Shown<'_>,
) -> Result<(), AllocError>
    ensures { OnOk result (out.new ≡ out.old ++ words (word.now ∷ spelled a.entry ∷ spelled b.entry ∷ spelled c.entry ∷ [])) }
{
    all2(out, word, a, b)?;
    put_spaced(out, c)
}

macro_rules! put_words {
    ($out:ident $line:ident;
        plain {$($row:ident $word:literal $all:ident ($($value:tt)*) {$($place:literal $field:tt : $shown:ident($($arg:expr),*))*})*}
        stated {$($statement:ident $statement_word:literal $made:ident)*}) => {
        match $line {
            $($($value)* => $all($out, $word $(, $shown($field))*),)*
            $(Line::$statement(thread, k, answer) => all3($out, $statement_word, name(thread), half(k), answered(answer)),)*
        }
    };
}

// The words of a line.
fn put_words(out: &mut List<u8>, line: &Line) -> Result<(), AllocError>
    ensures { OnOk result (out.new ≡ out.old ++ line_text line.now) }
{
    trace_rows!(put_words out line)
}

fn put_line(out: &mut List<u8>, line: &Line) -> Result<(), AllocError>
    ensures { OnOk result (out.new ≡ out.old ++ indented_line (line_text line.now)) }
{
    put(out, b"  ")?;
    put_words(out, line)?;
    put(out, b"\n")
}

pub(crate) fn put_lines(out: &mut List<u8>, lines: &[Line]) -> Result<(), AllocError>
    ensures { OnOk result (out.new ≡ out.old ++ flat_map (λ line. indented_line (line_text line)) lines.now) }
{
    for line in lines {
        put_line(out, line)?;
    }
    Ok(())
}
