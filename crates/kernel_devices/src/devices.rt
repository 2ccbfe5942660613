ghost use Rattle.std.specs.Prelude.{◌≡◌};

use crate::device::SerialDevice;
use rt_base::{Name, Text};
use std::marker::Model;

/// A text that is still to arrive at a device. Contracts see the plain arrival.
#[derive(Drop)]
pub struct Incoming {
    /// The moment at which it comes, in ticks since opening.
    pub moment: u64,
    /// The name of the device.
    pub device: Name,
    /// The bytes that come.
    pub text: Text,
}

impl Model for Incoming {
    ghost use Rattle.rt_plain.specs.kernel.State.{Arriving};

    ghost Value = { Arriving };

    ghost view = { λ a. record { moment = a.moment; device = a.device; text = a.text } };
}

/// The devices of a board and all that is still to arrive at them. Contracts see the plain devices, the one registered
/// last first, and the plain arrivals in board order, which is that of their moments. All memory is taken by `open`.
#[derive(Drop)]
pub struct Devices {
    pub(crate) devices: Vec<SerialDevice>,
    // The next one stands last.
    pub(crate) left: Vec<Incoming>,
}

impl Model for Devices {
    ghost use Rattle.kernel_devices.specs.Deviced.{DevicesSeen};

    ghost Value = { DevicesSeen };

    ghost use Rattle.std.specs.Prelude.{reverse};
    ghost use Rattle.kernel_devices.specs.Deviced.{IsDeviced};

    ghost view = { λ d. record { devices = d.devices.items; arrivals = reverse d.left.items } };

    ghost invariant = { λ d. IsDeviced d.devices.items (reverse d.left.items) };
}
