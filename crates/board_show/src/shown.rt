/// A word of a line, as it is written.
#[derive(Clone, Copy)]
pub(crate) enum Shown<'a> {
    Word(&'a [u8]),
    Number(u64),
    Negative(u8),
    Quoted(&'a [u8]),
}
