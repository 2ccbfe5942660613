ghost use Rattle.std.specs.Prelude.{◌≡◌, ◌<◌, ◌≤◌, ℕ, List, Option, length, IfOk, OnOk, OnErr, IsErrOf};
ghost use Rattle.rt_edge.specs.Counts.{Rose, RoseBy};
ghost use Rattle.rt_edge.specs.Contents.{Names, IsOpened, IsAbsent, HasNothingLeft, HasMoved, HasKept};

use crate::Failed;

/// Why a file isn't open.
#[derive(Clone, Copy, Debug, PartialEq, Eq)]
pub enum OpenFault {
    /// There is no file of that name.
    Missing,
    /// It can't be opened for another cause.
    Failed,
}

/// Files by their names, one of which may be open.
pub trait Files {
    /// What each name holds, where this is told. No call changes it.
    ghost held: { Self → Option Names };

    /// What the open file has left, where this is told: nothing where no file is open.
    ghost left: { Self → Option (List ℕ) };

    /// How many names weren't there, up to the type's last value.
    ghost missing: { Self → ℕ };

    /// How many calls have failed, up to the type's last value.
    ghost faults: { Self → ℕ };

    /// How many bytes were taken, up to the type's last value.
    ghost taken: { Self → ℕ };

    /// Opens a file at its begin, in place of the one that was open. No file is open after a refusal.
    fn open(&mut self, name: &str) -> Result<(), OpenFault>
        ensures held { held self.new ≡ held self.old }
        ensures missing { missing self.old ≤ missing self.new }
        ensures faults { faults self.old ≤ faults self.new }
        ensures taken { taken self.new ≡ taken self.old }
        ensures opened { OnOk result (IsOpened (held self.old) name.now (left self.new)) }
        ensures closed { OnErr result (HasNothingLeft (left self.new)) }

        // A missing file is one whose name isn't held.
        ensures missed { IsErrOf result OpenFault.Missing → Rose (missing self.old) (missing self.new) }
        ensures absent { IsErrOf result OpenFault.Missing → IsAbsent (held self.old) name.now }
        ensures failed { IsErrOf result OpenFault.Failed → Rose (faults self.old) (faults self.new) };

    /// Moves bytes of the open file to the front of a buffer, and answers how many: 0 only at the end
    /// of the file, or where none is open.
    fn take(&mut self, buf: &mut [u8]) -> Result<usize, Failed>
        requires { 0 < length buf.old }
        ensures held { held self.new ≡ held self.old }
        ensures missing { missing self.old ≤ missing self.new }
        ensures faults { faults self.old ≤ faults self.new }
        ensures fits { IfOk result (λ n. n ≤ length buf.old) }
        ensures taken { IfOk result (RoseBy (taken self.old) (taken self.new)) }
        ensures moved { IfOk result (λ n. HasMoved (left self.old) (left self.new) n buf.new) }
        ensures failed { OnErr result (Rose (faults self.old) (faults self.new)) }
        ensures kept { OnErr result (HasKept (left self.old) (left self.new)) }
        ensures none { OnErr result (taken self.new ≡ taken self.old) };
}
