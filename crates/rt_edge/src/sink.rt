ghost use Rattle.std.specs.Prelude.{◌≡◌, ◌<◌, ◌≤◌, ℕ, List, Option, length, take, IfOk, OnErr};
ghost use Rattle.rt_edge.specs.Counts.{Rose};
ghost use Rattle.rt_edge.specs.Contents.{HasGrown, HasKept};

/// A call of the outside failed.
#[derive(Clone, Copy, Debug, PartialEq, Eq)]
pub struct Failed;

/// Where bytes go.
pub trait Sink {
    /// What it holds, where this is told.
    ghost holds: { Self → Option (List ℕ) };

    /// How many calls have failed, up to the type's last value.
    ghost faults: { Self → ℕ };

    /// Takes the front of a piece, and answers how many bytes that is: at least one of a piece that
    /// isn't empty. A call that can take none fails.
    fn put(&mut self, piece: &[u8]) -> Result<usize, Failed>
        ensures faults { faults self.old ≤ faults self.new }
        ensures fits { IfOk result (λ n. n ≤ length piece.now) }
        ensures some { IfOk result (λ n. 0 < length piece.now → 0 < n) }
        ensures grown { IfOk result (λ n. HasGrown (holds self.old) (holds self.new) (take n piece.now)) }
        ensures failed { OnErr result (Rose (faults self.old) (faults self.new)) }
        ensures kept { OnErr result (HasKept (holds self.old) (holds self.new)) };
}
