/// How often a device is open, and how many bytes of its transmit ring leave it at a tick.
#[derive(Clone, Copy, Debug, PartialEq, Eq)]
pub struct DeviceRow {
    pub opened: u8,
    pub rate: u8,
}

impl DeviceRow {
    // That of a device as it is made.
    pub(crate) const NEW: DeviceRow = DeviceRow { opened: 0, rate: 1 };
}
