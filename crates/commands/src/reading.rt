ghost use Rattle.std.specs.Prelude.{◌≡◌, ◌+◌, ◌<◌, ◌≤◌, IfOk, IsErrOf, length, vec_len};
ghost use Rattle.rt_edge.specs.Counts.{Rose};
ghost use Rattle.rt_edge.specs.Contents.{IsAbsent};
ghost use Rattle.commands.specs.Held.{IfHeld, IfTold};
ghost use Rattle.commands.specs.Reads.{HasCome};
ghost use Rattle.commands.specs.declared.reading.ReadFault.TheVariants.{Memory};

use rt_edge::{Failed, Files, OpenFault};
use std::alloc::{AllocError, Global};

/// Why a file wasn't read.
#[derive(Clone, Copy, Debug, PartialEq, Eq)]
pub enum ReadFault {
    /// There is no file of that name.
    Missing,
    /// A call of the files failed.
    Failed,
    /// It has more bytes than were asked for.
    TooLong,
    /// There was no memory.
    Memory,
}

impl From<AllocError> for ReadFault {
    ghost from_gives = { λ _ fault. fault ≡ Memory };

    fn from(_: AllocError) -> Self {
        ReadFault::Memory
    }
}

// Takes some bytes of the open file, as many as there is room for, and adds them to a text: none only at the end of the
// file.
fn take_some<F: Files>(files: &mut F, text: &mut Vec<u8>, room: usize) -> Result<usize, ReadFault>
    requires { 0 < room }
    ensures come { IfOk result (λ n. HasCome (F.left files.old) (F.left files.new) text.old.items text.new.items n) }
    ensures fits { IfOk result (λ n. (n ≤ room) × (vec_len text.new ≡ vec_len text.old + n)) }
    ensures missing { IsErrOf result ReadFault.Missing → ⊥ }
    ensures long { IsErrOf result ReadFault.TooLong → ⊥ }
    ensures failed { IsErrOf result ReadFault.Failed → Rose (F.faults files.old) (F.faults files.new) }
    ensures faults { F.faults files.old ≤ F.faults files.new }
    ensures missing_count { F.missing files.old ≤ F.missing files.new }
    ensures held { F.held files.new ≡ F.held files.old }
    ensures taken { F.taken files.new ≤ F.taken files.old + room }
    ensures counted { IfOk result (λ n. F.taken files.new ≤ F.taken files.old + n) }
{
    let mut buf = [0u8; 4096];
    let most = room.min(buf.len());
    match files.take(&mut buf[..most]) {
        Ok(n) => {
            text.extend_from_slice(&buf[..n])?;
            Ok(n)
        }
        Err(Failed) => Err(ReadFault::Failed),
    }
}

// Reads the open file to its end, and no more than one byte past the most that are asked for.
fn read_open<F: Files>(alloc: Global, files: &mut F, most: u32) -> Result<Vec<u8>, ReadFault>
    ensures whole { IfOk result (λ text. IfTold (F.left files.old) (λ left. left ≡ text.items)) }
    ensures short { IfOk result (λ text. length text.items ≤ most) }
    ensures long { IsErrOf result ReadFault.TooLong → IfTold (F.left files.old) (λ left. most < length left) }
    ensures missing { IsErrOf result ReadFault.Missing → ⊥ }
    ensures failed { IsErrOf result ReadFault.Failed → Rose (F.faults files.old) (F.faults files.new) }
    ensures faults { F.faults files.old ≤ F.faults files.new }
    ensures missing_count { F.missing files.old ≤ F.missing files.new }
    ensures held { F.held files.new ≡ F.held files.old }
    ensures taken { F.taken files.new ≤ F.taken files.old + (most + 1) }
{
    let most = most as usize;
    let mut text = Vec::new(alloc);
    while text.len() <= most {
        let room = most + 1 - text.len();
        if take_some(files, &mut text, room)? == 0 {
            return Ok(text);
        }
    }
    Err(ReadFault::TooLong)
}

/// All that a file holds, which is read until a call gives no more. `Missing` and `Failed` come only where their count
/// rose, and `TooLong` exactly for a file of more than `most` bytes. No more than `most + 1` bytes are taken.
pub(crate) fn read_file<F: Files>(
    alloc: Global,
    files: &mut F,
    name: &str,
    most: u32,
) -> Result<Vec<u8>, ReadFault>
    ensures whole { IfOk result (λ text. IfHeld (F.held files.old) name.now (λ bytes. bytes ≡ text.items)) }
    ensures short { IfOk result (λ text. length text.items ≤ most) }
    ensures long { IsErrOf result ReadFault.TooLong → IfHeld (F.held files.old) name.now (λ bytes. most < length bytes) }
    ensures missing { IsErrOf result ReadFault.Missing → Rose (F.missing files.old) (F.missing files.new) }
    ensures absent { IsErrOf result ReadFault.Missing → IsAbsent (F.held files.old) name.now }
    ensures failed { IsErrOf result ReadFault.Failed → Rose (F.faults files.old) (F.faults files.new) }
    ensures found { IsErrOf result ReadFault.Memory → IfHeld (F.held files.old) name.now (λ bytes. Unit {0}) }
    ensures faults { F.faults files.old ≤ F.faults files.new }
    ensures missing_count { F.missing files.old ≤ F.missing files.new }
    ensures held { F.held files.new ≡ F.held files.old }
    ensures taken { F.taken files.new ≤ F.taken files.old + (most + 1) }
{
    match files.open(name) {
        Ok(()) => read_open(alloc, files, most),
        Err(OpenFault::Missing) => Err(ReadFault::Missing),
        Err(OpenFault::Failed) => Err(ReadFault::Failed),
    }
}
