ghost use Rattle.std.specs.Prelude.{ℕ, ◌≡◌, ◌≢◌, ◌<◌, ◌≤◌, nat_lt, if◌then◌else◌};
ghost use Rattle.std.specs.Int.{bit_at};
ghost use Rattle.mem_pool.specs.Bits.{IsLowest};

/// A set of numbers below 64, as the bits of a word.
#[derive(Drop)]
pub struct Bits {
    pub word: u64,
}

impl Bits {
    /// All numbers below `count`.
    pub fn below(count: u8) -> Bits
        requires some { 0 < count }
        requires few { count ≤ 64 }
        ensures { (k : ℕ) → bit_at result.word k ≡ (if nat_lt k count then 1 else 0) }
    {
        Bits {
            word: u64::MAX >> (64 - count),
        }
    }

    /// The least number of the set, or `None` exactly where it is empty.
    pub fn lowest(&self) -> Option<u8>
        ensures { IsLowest self.now.word result }
    {
        if self.word == 0 {
            return None;
        }
        Some(self.word.trailing_zeros() as u8)
    }

    /// Puts a number into the set.
    pub fn insert(&mut self, number: u8)
        requires { number < 64 }
        ensures here { bit_at self.new.word number ≡ 1 }
        ensures elsewhere { (k : ℕ) → k ≢ number → bit_at self.new.word k ≡ bit_at self.old.word k }
    {
        self.word |= 1 << number;
    }

    /// Takes a number out of the set.
    pub fn remove(&mut self, number: u8)
        requires { number < 64 }
        ensures here { bit_at self.new.word number ≡ 0 }
        ensures elsewhere { (k : ℕ) → k < 64 → k ≢ number → bit_at self.new.word k ≡ bit_at self.old.word k }
    {
        self.word &= !(1 << number);
    }
}
