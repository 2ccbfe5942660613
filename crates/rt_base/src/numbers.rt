use std::marker::Model;

/// A priority, from 0: the smaller, the more urgent, as in RT-Thread. The last level belongs to idle.
/// Contracts see it as a number.
#[derive(Clone, Copy, Debug, PartialEq, Eq)]
pub struct Prio(pub u8);

impl Model for Prio {
    ghost use Rattle.std.specs.Prelude.{ℕ};

    ghost Value = { ℕ };

    ghost view = { λ n. n.0 };

    ghost inverse = { λ n. record { 0 = n } };
}

/// The number of a thread, from 0 to 255 in board order; the shell's thread comes first. Contracts see it as a number.
#[derive(Clone, Copy, Debug, PartialEq, Eq)]
pub struct ThreadNo(pub u16);

impl Model for ThreadNo {
    ghost use Rattle.std.specs.Prelude.{ℕ};

    ghost Value = { ℕ };

    ghost view = { λ n. n.0 };

    ghost inverse = { λ n. record { 0 = n } };
}

/// The number of an object, from 0 and below the limit of its class. Contracts see it as a number.
#[derive(Clone, Copy, Debug, PartialEq, Eq)]
pub struct ObjNo(pub u16);

impl Model for ObjNo {
    ghost use Rattle.std.specs.Prelude.{ℕ};

    ghost Value = { ℕ };

    ghost view = { λ n. n.0 };

    ghost inverse = { λ n. record { 0 = n } };
}

/// The number of a core, from 0 to 7. Contracts see it as a number.
#[derive(Clone, Copy, Debug, PartialEq, Eq)]
pub struct CoreNo(pub u8);

impl Model for CoreNo {
    ghost use Rattle.std.specs.Prelude.{ℕ};

    ghost Value = { ℕ };

    ghost view = { λ n. n.0 };

    ghost inverse = { λ n. record { 0 = n } };
}

/// Whose an armed row is: the number of its thread, or 256 more than that of its timer object.
/// Contracts see it as a number.
#[derive(Clone, Copy, Debug, PartialEq, Eq)]
pub struct TimerNo(pub u16);

impl Model for TimerNo {
    ghost use Rattle.std.specs.Prelude.{ℕ};

    ghost Value = { ℕ };

    ghost view = { λ n. n.0 };

    ghost inverse = { λ n. record { 0 = n } };
}
