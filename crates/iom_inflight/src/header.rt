use iom_base::AccessKind;

/// An access in flight, but for the bytes of a write.
#[derive(Clone, Copy, PartialEq, Eq)]
pub(crate) struct AccessHeader {
    /// The address that the device asked for.
    pub(crate) address: u64,
    /// How many bytes, at most 4,096.
    pub(crate) len: u16,
    pub(crate) kind: AccessKind,
    /// The frame that it was translated to.
    pub(crate) frame: u32,
    /// Its place in the order of acceptance over all devices.
    pub(crate) number: u64,
}
