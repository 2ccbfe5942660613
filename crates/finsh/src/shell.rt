ghost use Rattle.std.specs.Prelude.{◌≡◌, ◌≢◌, ◌≤◌, [], ◌∷◌, None, Some, length};
ghost use Rattle.rt_plain.specs.kernel.Shell.{longer_line};

use arrayvec::ArrayVec;
use std::marker::Model;

// The most bytes of a line.
const LONGEST: usize = 40;

/// A line that was read: at most 40 bytes, without its newline. Contracts see it as its bytes. The length is this
/// project's own.
#[derive(Drop)]
pub struct Command {
    line: ArrayVec<u8, LONGEST>,
}

impl Model for Command {
    ghost use Rattle.std.specs.Prelude.{List, ℕ, ◌≤◌, length};

    ghost Value = { List ℕ };

    ghost view = { λ c. c.line.items };

    ghost invariant = { λ c. length c.line.items ≤ 40 };
}

impl Command {
    /// Its bytes, at most 40.
    pub fn bytes(&self) -> &[u8]
        ensures bytes { result.now ≡ self.now }
        ensures short { length result.now ≤ 40 }
    {
        self.line.as_slice()
    }
}

/// What the console received of a line whose newline hasn't come. Contracts see it as its bytes, of which it keeps the
/// first 40.
#[derive(Drop)]
pub struct Shell {
    line: ArrayVec<u8, LONGEST>,
}

impl Model for Shell {
    ghost use Rattle.std.specs.Prelude.{List, ℕ, ◌≤◌, length};

    ghost Value = { List ℕ };

    ghost view = { λ s. s.line.items };

    ghost invariant = { λ s. length s.line.items ≤ 40 };
}

impl Shell {
    /// An empty line.
    pub fn new() -> Shell
        ensures { result ≡ [] }
    {
        Shell {
            line: ArrayVec::new(),
        }
    }

    /// Takes a byte that the console received. A newline ends the line, which is handed out, and the next one is empty.
    /// Any other byte makes the line longer, where it has fewer than 40 bytes, and the answer is `None`.
    #[tactic(auto, using(crate::proofs::Lines::full, crate::proofs::Lines::longer))]
    pub fn feed(&mut self, byte: u8) -> Option<Command>
        ensures ended { byte ≡ 10 → (result ≡ Some self.old) × (self.new ≡ []) }
        ensures longer { byte ≢ 10 → (result ≡ None) × (self.new ≡ longer_line self.old (byte ∷ [])) }
    {
        if byte == b'\n' {
            let line = self.line.take();
            return Some(Command { line });
        }
        if self.line.is_full() {
            return None;
        }
        self.line.push(byte);
        None
    }
}
