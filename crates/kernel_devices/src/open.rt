ghost use Rattle.std.specs.Prelude.{◌≡◌, ◌∷◌, ◌≤◌, All, map, reverse, IfOk};
ghost use Rattle.rt_plain.specs.kernel.LpClock.{moment_after_counts};
ghost use Rattle.rt_plain.specs.kernel.Opening.{new_console, new_device};
ghost use Rattle.kernel_devices.specs.Deviced.{arriving, opened};

use crate::device::SerialDevice;
use crate::devices::{Devices, Incoming};
use rt_plain::{Arrival, Board, DeviceDef};
use std::alloc::{AllocError, Global};

// The moment at which a clock of h counts in q ticks has made so many counts.
fn moment_of(count: u32, h: u32, q: u32) -> u64
    requires { 1 ≤ h }
    ensures { result ≡ moment_after_counts h q count }
{
    (count as u64 * q as u64 + (h as u64 - 1)) / h as u64
}

// An arrival of the board, by its moment.
fn incoming_of(arrival: &Arrival, h: u32, q: u32) -> Incoming
    requires { 1 ≤ h }
    ensures { result ≡ arriving h q arrival.now }
{
    Incoming {
        moment: moment_of(arrival.count, h, q),
        device: arrival.device.copy(),
        text: arrival.text.copy(),
    }
}

// The devices of a board, the one registered last first.
fn devices_of(alloc: Global, defs: &[DeviceDef]) -> Result<Vec<SerialDevice>, AllocError>
    requires { All (λ def. (1 ≤ def.rate) × (def.rate ≤ 64)) defs.now }
    ensures { IfOk result (λ devices. devices.items ≡ reverse (new_console ∷ map new_device defs.now)) }
{
    let mut devices = Vec::with_capacity(alloc, 1 + defs.len())?;
    devices.push_reserved(SerialDevice::console(alloc)?);
    for def in defs {
        devices.push_reserved(SerialDevice::open_from(alloc, def)?);
    }
    devices.reverse();
    Ok(devices)
}

// The arrivals of a board, the last one first.
fn arrivals_of(
    alloc: Global,
    arrivals: &[Arrival],
    h: u32,
    q: u32,
) -> Result<Vec<Incoming>, AllocError>
    requires { 1 ≤ h }
    ensures { IfOk result (λ left. left.items ≡ reverse (map (arriving h q) arrivals.now)) }
{
    let mut left = Vec::with_capacity(alloc, arrivals.len())?;
    for arrival in arrivals {
        left.push_reserved(incoming_of(arrival, h, q));
    }
    left.reverse();
    Ok(left)
}

impl Devices {
    /// The devices of the board, the console among them, and all that is to arrive at them. The one refusal is want of
    /// memory.
    pub fn open(alloc: Global, board: &Board) -> Result<Devices, AllocError>
        ensures { IfOk result (λ devices. devices ≡ opened board.now) }
    {
        let devices = devices_of(alloc, board.devices.as_slice())?;
        let left = arrivals_of(alloc, board.arrivals.as_slice(), board.lp_h, board.lp_q)?;
        Ok(Devices { devices, left })
    }
}
