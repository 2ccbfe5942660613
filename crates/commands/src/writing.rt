ghost use Rattle.std.specs.Prelude.{◌≡◌, ◌<◌, ◌≤◌, ℕ, IfOk, OnOk, OnErr, take, length, flat_map};
ghost use Rattle.rt_edge.specs.Counts.{Rose};
ghost use Rattle.rt_edge.specs.Contents.{HasGrown, HasKept};

use rt_edge::{Failed, Sink};

// The most bytes of one piece.
const PIECE: usize = 4096;

// The front of a text, as much as goes into one piece.
fn front(text: &[u8]) -> &[u8]
    requires { 0 < length text.now }
    ensures some { 0 < length result.now }
    ensures front { (n : ℕ) → n ≤ length result.now → (n ≤ length text.now) × (take n result.now ≡ take n text.now) }
{
    if text.len() < PIECE {
        return text;
    }
    &text[..PIECE]
}

// Puts the front of a text that isn't empty.
fn put_some<O: Sink>(out: &mut O, text: &[u8]) -> Result<usize, Failed>
    requires { 0 < length text.now }
    ensures some { IfOk result (λ n. (0 < n) × (n ≤ length text.now)) }
    ensures grown { IfOk result (λ n. HasGrown (O.holds out.old) (O.holds out.new) (take n text.now)) }
    ensures failed { OnErr result (Rose (O.faults out.old) (O.faults out.new)) }
    ensures kept { OnErr result (HasKept (O.holds out.old) (O.holds out.new)) }
    ensures faults { O.faults out.old ≤ O.faults out.new }
{
    match out.put(front(text)) {
        Ok(n) => Ok(n),
        Err(fault) => Err(fault),
    }
}

/// Puts a text, piece by piece. It fails only where the count of faults rose, and a front of the text was put then.
#[tactic(auto, using(crate::proofs::GrowLemmas::growing))]
pub(crate) fn put_all<O: Sink>(out: &mut O, text: &[u8]) -> Result<(), Failed>
    ensures ok { OnOk result (HasGrown (O.holds out.old) (O.holds out.new) text.now) }
    ensures front { OnErr result ((n : ℕ) × HasGrown (O.holds out.old) (O.holds out.new) (take n text.now)) }
    ensures failed { OnErr result (Rose (O.faults out.old) (O.faults out.new)) }
    ensures faults { O.faults out.old ≤ O.faults out.new }
{
    let mut at = 0;
    while at < text.len() {
        let (_, rest) = text.split_at(at);
        match put_some(out, rest) {
            Ok(n) => at += n,
            Err(fault) => return Err(fault),
        }
    }
    Ok(())
}

/// Puts parts of a text one after the other, and fails as `put_all` does.
#[tactic(auto, using(crate::proofs::GrowLemmas::growing))]
pub(crate) fn put_parts<O: Sink>(out: &mut O, parts: &[&[u8]]) -> Result<(), Failed>
    ensures ok { OnOk result (HasGrown (O.holds out.old) (O.holds out.new) (flat_map (λ part. part.now) parts.now)) }
    ensures front { OnErr result ((n : ℕ) × HasGrown (O.holds out.old) (O.holds out.new) (take n (flat_map (λ part. part.now) parts.now))) }
    ensures failed { OnErr result (Rose (O.faults out.old) (O.faults out.new)) }
    ensures faults { O.faults out.old ≤ O.faults out.new }
{
    for part in parts {
        match put_all(out, part) {
            Ok(()) => {}
            Err(fault) => return Err(fault),
        }
    }
    Ok(())
}
