ghost use Rattle.std.specs.Prelude.{◌≡◌};
ghost use Rattle.iom_virtio_blk.specs.Stages.{device_status};

/// How far the driver initialized the device (virtio 1.2, sections 2.1 and 3.1).
#[derive(Clone, Copy, PartialEq, Eq)]
pub enum Stage {
    /// Reset.
    Reset,
    /// Its features are settled.
    FeaturesOk,
    /// It has a queue, and works.
    DriverOk,
    /// It worked until a fault, and is to be reset.
    NeedsReset,
}

impl Stage {
    /// The device status: ACKNOWLEDGE 1, DRIVER 2, DRIVER_OK 4, FEATURES_OK 8, DEVICE_NEEDS_RESET 64.
    pub(crate) fn status(self) -> u8
        ensures { result ≡ device_status self }
    {
        match self {
            Stage::Reset => 0,
            Stage::FeaturesOk => 11,
            Stage::DriverOk => 15,
            Stage::NeedsReset => 79,
        }
    }
}
