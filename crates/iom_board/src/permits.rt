//! Which devices can do what.
ghost use Rattle.std.specs.Prelude.{◌≡◌};
ghost use Rattle.iom_device.specs.Caches.{kind_in};
ghost use Rattle.iom_board.specs.Permits.{kinds_for, IsPermitted};

use crate::board::Board;
use crate::sender::Sender;
use iom_base::{DeviceId, DeviceKind, Refusal};

/// What not every device can do, or a device that isn't plugged in can't.
#[derive(Clone, Copy)]
pub(crate) enum Act {
    /// To ask for an access at an address that the IOMMU translates.
    Request(Sender),
    /// To ask for one through a cache of its own.
    ThroughCache(Sender),
    /// To say what isn't so.
    Forge,
    /// To ask for a translation.
    Ask,
    /// To have a disk.
    HoldDisk,
    /// What a device of any kind can.
    Any,
}

impl Act {
    /// Whether a device of this kind can.
    #[inline(always)]
    fn is_for(self, kind: DeviceKind) -> bool
        ensures { result ≡ kinds_for self kind }
    {
        match self {
            Act::Request(Sender::Own) => kind.sends_untranslated(),
            Act::Request(Sender::Step) => kind.is_block_device(),
            Act::ThroughCache(Sender::Own) => kind.sends_through_cache(),
            Act::ThroughCache(Sender::Step) => kind.is_block_device(),
            Act::Forge => kind.forges(),
            Act::Ask => kind.asks_questions(),
            Act::HoldDisk => kind.is_block_device(),
            Act::Any => true,
        }
    }

    /// Why a device of this kind is refused that: it isn't there, or can't. None where it can.
    #[inline(always)]
    pub(crate) fn refusal(self, known: Option<DeviceKind>) -> Option<Refusal>
        ensures { IsPermitted (kinds_for self) known result }
    {
        let Some(kind) = known else {
            return Some(Refusal::NoSuchDevice);
        };
        if self.is_for(kind) {
            None
        } else {
            Some(Refusal::WrongKind)
        }
    }
}

impl Board {
    /// Why the device with this id is refused that: none has the id, or it is of a kind that can't. None where it can.
    #[inline(always)]
    pub(crate) fn refusal(&self, act: Act, id: DeviceId) -> Option<Refusal>
        ensures { IsPermitted (kinds_for act) (kind_in self.now.devices.items id) result }
    {
        act.refusal(self.kind_of(id))
    }
}
