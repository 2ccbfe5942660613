//! Writing words and whole lines behind what is there.
ghost use Rattle.std.specs.Prelude.{◌≡◌, ◌++◌, [], ◌∷◌, OnOk, map, codes};
ghost use Rattle.std.specs.Fmt.{decimal};
ghost use Rattle.std.specs.List.{flat_map};
ghost use Rattle.rt_plain.specs.text.Words.{words};
ghost use Rattle.rt_plain.specs.text.Texts.{with_newline};
ghost use Rattle.board_show.specs.Writing.{shown};

use crate::shown::Shown;
use itoa::Buffer;
use rt_base::List;
use rt_plain::quotes::put_quoted;
use std::alloc::AllocError;

pub(crate) fn put(out: &mut List<u8>, bytes: &[u8]) -> Result<(), AllocError>
    ensures { OnOk result (out.new ≡ out.old ++ bytes.now) }
{
    out.extend_from_slice(bytes)
}

pub(crate) fn put_number(out: &mut List<u8>, n: u64) -> Result<(), AllocError>
    ensures { OnOk result (out.new ≡ out.old ++ decimal n) }
{
    let mut digits = Buffer::new();
    put(out, digits.format(n).as_bytes())
}

fn put_negative(out: &mut List<u8>, n: u8) -> Result<(), AllocError>
    ensures { OnOk result (out.new ≡ out.old ++ (codes "-" ++ decimal n)) }
{
    put(out, b"-")?;
    put_number(out, u64::from(n))
}

fn put_shown(out: &mut List<u8>, word: Shown<'_>) -> Result<(), AllocError>
    ensures { OnOk result (out.new ≡ out.old ++ shown word.entry) }
{
    match word {
        Shown::Word(word) => put(out, word),
        Shown::Number(n) => put_number(out, n),
        Shown::Negative(n) => put_negative(out, n),
        Shown::Quoted(text) => put_quoted(out, text),
    }
}

fn put_spaced(out: &mut List<u8>, word: Shown<'_>) -> Result<(), AllocError>
    ensures { OnOk result (out.new ≡ out.old ++ 32 ∷ shown word.entry) }
{
    put(out, b" ")?;
    put_shown(out, word)
}

fn put_others(out: &mut List<u8>, others: &[Shown<'_>]) -> Result<(), AllocError>
    ensures { OnOk result (out.new ≡ out.old ++ flat_map (λ word. 32 ∷ shown word) others.now) }
{
    for word in others {
        put_spaced(out, *word)?;
    }
    Ok(())
}

// The first word and the others, with one space between each two.
#[tactic(auto, using(crate::proofs::Joins::words_are))]
pub(crate) fn put_words(
    out: &mut List<u8>,
    first: &[u8],
    others: &[Shown<'_>],
) -> Result<(), AllocError>
    ensures { OnOk result (out.new ≡ out.old ++ words (first.now ∷ map shown others.now)) }
{
    put(out, first)?;
    put_others(out, others)
}

// A line's word alone.
pub(crate) fn all0(out: &mut List<u8>, first: &[u8]) -> Result<(), AllocError>
    ensures { OnOk result (out.new ≡ out.old ++ words (first.now ∷ [])) }
{
    put_words(out, first, &[])
}

// A line's word and one field.
pub(crate) fn all1(out: &mut List<u8>, first: &[u8], a: Shown<'_>) -> Result<(), AllocError>
    ensures { OnOk result (out.new ≡ out.old ++ words (first.now ∷ shown a.entry ∷ [])) }
{
    put_words(out, first, &[a])
}

// A line's word and two fields.
pub(crate) fn all2(
    out: &mut List<u8>,
    first: &[u8],
    a: Shown<'_>,
    b: Shown<'_>,
) -> Result<(), AllocError>
    ensures { OnOk result (out.new ≡ out.old ++ words (first.now ∷ shown a.entry ∷ shown b.entry ∷ [])) }
{
    put_words(out, first, &[a, b])
}

// A line's word and three fields.
pub(crate) fn all3(
    out: &mut List<u8>,
    first: &[u8],
    a: Shown<'_>,
    b: Shown<'_>,
    c: Shown<'_>,
) -> Result<(), AllocError>
    ensures { OnOk result (out.new ≡ out.old ++ words (first.now ∷ shown a.entry ∷ shown b.entry ∷ shown c.entry ∷ [])) }
{
    put_words(out, first, &[a, b, c])
}

// A line's word and five fields.
pub(crate) fn all5(
    out: &mut List<u8>,
    first: &[u8],
    a: Shown<'_>,
    b: Shown<'_>,
    c: Shown<'_>,
    d: Shown<'_>,
    e: Shown<'_>,
) -> Result<(), AllocError>
    ensures { OnOk result (out.new ≡ out.old ++ words (first.now ∷ shown a.entry ∷ shown b.entry ∷ shown c.entry ∷ shown d.entry ∷ shown e.entry ∷ [])) }
{
    put_words(out, first, &[a, b, c, d, e])
}

// A line of these words, and its newline.
pub(crate) fn put_line(
    out: &mut List<u8>,
    first: &[u8],
    others: &[Shown<'_>],
) -> Result<(), AllocError>
    ensures { OnOk result (out.new ≡ out.old ++ with_newline (words (first.now ∷ map shown others.now))) }
{
    put_words(out, first, others)?;
    put(out, b"\n")
}
