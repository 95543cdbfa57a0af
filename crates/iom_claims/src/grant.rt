//! What is claimed of one page, and what is left of it once it is withdrawn.
ghost use Rattle.std.specs.Prelude.{◌≡◌};
ghost use Rattle.iom_claims.specs.Rows.{is_at, lets};

use iom_base::{AccessKind, DeviceId, Rights};

/// What a device may reach: the frame, at the page, with the right.
#[derive(Clone, Copy, PartialEq, Eq)]
pub struct Grant {
    pub device: DeviceId,
    pub page: u64,
    pub frame: u32,
    pub rights: Rights,
}

/// A claim that isn't done: its number, and the grant that it withdrew.
#[derive(Clone, Copy, PartialEq, Eq)]
pub struct OpenClaim {
    pub number: u32,
    pub grant: Grant,
}

impl Grant {
    /// Whether it is of this page of the device.
    pub(crate) fn is_at(&self, device: DeviceId, page: u64) -> bool
        ensures { result ≡ is_at device page self.now }
    {
        device == self.device && page == self.page
    }

    /// Whether it lets the device reach the frame by an access of this kind.
    pub(crate) fn lets(&self, device: DeviceId, frame: u32, kind: AccessKind) -> bool
        ensures { result ≡ lets device frame kind self.now }
    {
        device == self.device && frame == self.frame && self.rights.allows(kind)
    }
}
