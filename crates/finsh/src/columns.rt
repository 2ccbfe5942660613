//! The columns of the tables.
ghost use Rattle.std.specs.Prelude.{◌≡◌, map};
ghost use Rattle.rt_plain.specs.kernel.Tables.{columns as plain_columns, power_columns};
ghost use Rattle.finsh.specs.Cells.{column_of};

use rt_base::Class;

/// A column: its title and its width. Its cells stand at the left or at the right.
#[derive(Clone, Copy)]
pub(crate) enum Column {
    Left(&'static [u8], usize),
    Right(&'static [u8], usize),
}

use Column::{Left, Right};

impl Column {
    pub(crate) fn title(&self) -> &'static [u8]
        ensures { result.now ≡ (column_of self.now).title }
    {
        match self {
            Left(title, _) | Right(title, _) => title,
        }
    }

    pub(crate) fn width(&self) -> usize
        ensures { result ≡ (column_of self.now).width }
    {
        match self {
            Left(_, width) | Right(_, width) => *width,
        }
    }
}

// The columns of a class's table.
pub(crate) fn columns(class: Class) -> &'static [Column]
    ensures { map column_of result.now ≡ plain_columns class }
{
    match class {
        Class::Thread => &[
            Left(b"thread", 8),
            Right(b"cur", 3),
            Right(b"base", 4),
            Left(b"state", 9),
            Right(b"core", 4),
            Right(b"left", 4),
            Right(b"code", 4),
        ],
        Class::Sem => &[Left(b"sem", 8), Right(b"value", 5), Right(b"waiters", 7)],
        Class::Event => &[Left(b"event", 8), Right(b"flags", 8), Right(b"waiters", 7)],
        Class::Mutex => &[
            Left(b"mutex", 8),
            Left(b"owner", 8),
            Right(b"hold", 4),
            Right(b"ceil", 4),
            Right(b"waiters", 7),
        ],
        Class::Mailbox => &[
            Left(b"mailbox", 8),
            Right(b"used", 4),
            Right(b"size", 4),
            Right(b"recv", 4),
            Right(b"send", 4),
        ],
        Class::MsgQueue => &[
            Left(b"msgqueue", 8),
            Right(b"used", 4),
            Right(b"size", 4),
            Right(b"max", 4),
            Right(b"recv", 4),
            Right(b"send", 4),
        ],
        Class::Timer => &[
            Left(b"timer", 8),
            Left(b"kind", 8),
            Right(b"time", 10),
            Right(b"due", 10),
        ],
        Class::Device => &[
            Left(b"device", 8),
            Left(b"type", 8),
            Right(b"open", 4),
            Right(b"rx", 4),
            Right(b"tx", 4),
        ],
    }
}

// The columns of the power table.
pub(crate) fn power_columns() -> &'static [Column]
    ensures { map column_of result.now ≡ power_columns }
{
    &[Left(b"mode", 8), Right(b"votes", 5)]
}
