use iom_base::DeviceId;

/// An invalidation request that a device has still to complete.
#[derive(Clone, Copy, PartialEq, Eq, Default)]
pub struct Slot {
    /// The number of the request, which its completion repeats.
    pub serial: u64,
    /// Who was asked.
    pub device: DeviceId,
}

impl Slot {
    ghost use Rattle.std.specs.Prelude.{◌≡◌};
    ghost use Rattle.iom_command_queue.specs.OpenSlots.{is_request};

    /// Whether it has this number, and was sent to this device.
    pub(crate) fn is_request(&self, serial: u64, device: DeviceId) -> bool
        ensures { result ≡ is_request serial device self.now }
    {
        self.serial == serial && self.device == device
    }
}
