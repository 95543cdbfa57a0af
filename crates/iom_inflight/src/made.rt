use iom_base::{AccessKind, DeviceId};

/// An access that is made: where in memory its bytes are. Those of a read are in the frame to be read,
/// those of a write stand there.
#[derive(Clone, Copy, PartialEq, Eq)]
pub struct MadeAt {
    pub device: DeviceId,
    /// The frame that it was translated to.
    pub frame: u32,
    /// Where in the frame its bytes begin, below 4,096.
    pub offset: u16,
    /// How many bytes, from 1 to 4,096.
    pub len: u16,
    pub kind: AccessKind,
}
