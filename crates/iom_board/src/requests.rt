// What a device asks of memory, and what it is answered (IOMMU specification, section 2.3).
ghost use Rattle.std.specs.Prelude.{◌≡◌, ◌+◌, ◌<◌, ◌^◌};
ghost use Rattle.iom_inflight.specs.Invariant.{CarriesBytes};
ghost use Rattle.iom_device.specs.Caches.{kind_in};
ghost use Rattle.iom_iommu.specs.Requests.{access_of};
ghost use Rattle.iom_board.specs.Counted.{IsCounted};
ghost use Rattle.iom_board.specs.BoardParts.{board_parts};
ghost use Rattle.iom_board.specs.Requests.{RequestsAccess, RequestsTranslatedAccess};
ghost use Rattle.iom_board.specs.Senders.{untranslated_by};
ghost use Rattle.iom_board.specs.Invariant.{BoardInvariant};

use crate::board::Board;
use crate::permits::Act;
use crate::sender::Sender;
use iom_base::{AccessKind, DeviceId, DeviceKind, Refusal};
use iom_iommu::Reply;

impl Board {
    /// A device asks for an access to so many bytes at an address that the IOMMU translates (section 2.3, "Process to
    /// translate an IOVA"). `Accepted`, with the access's number among the device's, where it is in flight now; else nothing is:
    /// `BadSpan`, `Busy`, or `Fault` with its cause, whose record goes into the fault queue. `NoSuchDevice` where no device
    /// has the id, `WrongKind` where its kind sends none so; nothing changes then.
    #[inline(always)]
    pub fn request(
        &mut self,
        sender: Sender,
        id: DeviceId,
        address: u64,
        len: u64,
        kind: AccessKind,
        bytes: &[u8],
    ) -> Result<Reply, Refusal>
        requires invariants { BoardInvariant (board_parts self.old) self.old.events }
        requires count { self.old.events + 1 < 2 ^ 64 }
        requires carries { CarriesBytes kind len bytes.now }
        ensures effect { RequestsAccess (untranslated_by sender) (board_parts self.old) id
            (access_of address len kind bytes.now) result (board_parts self.new) }
        ensures invariants { BoardInvariant (board_parts self.new) self.new.events }
        ensures counted { IsCounted self.old self.new }
    {
        self.request_of(sender, self.kind_of(id), id, address, len, kind, bytes)
    }

    /// The same of a device that was looked up: it is of this kind, or isn't there.
    #[inline(always)]
    pub fn request_of(
        &mut self,
        sender: Sender,
        known: Option<DeviceKind>,
        id: DeviceId,
        address: u64,
        len: u64,
        kind: AccessKind,
        bytes: &[u8],
    ) -> Result<Reply, Refusal>
        requires known { known ≡ kind_in self.old.devices.items id }
        requires invariants { BoardInvariant (board_parts self.old) self.old.events }
        requires count { self.old.events + 1 < 2 ^ 64 }
        requires carries { CarriesBytes kind len bytes.now }
        ensures effect { RequestsAccess (untranslated_by sender) (board_parts self.old) id
            (access_of address len kind bytes.now) result (board_parts self.new) }
        ensures invariants { BoardInvariant (board_parts self.new) self.new.events }
        ensures counted { IsCounted self.old self.new }
    {
        self.events += 1;
        if let Some(why) = Act::Request(sender).refusal(known) {
            return Err(why);
        }
        Ok(
            self.iommu
                .request(&mut self.memory, id, address, len, kind, bytes),
        )
    }

    /// A raw device asks for an access at an address of memory, and says that it is translated (PCI Express Base
    /// Specification, section 10.2). Answered as an untranslated request is; `WrongKind` where it isn't a raw device.
    pub fn translated(
        &mut self,
        id: DeviceId,
        address: u64,
        len: u64,
        kind: AccessKind,
        bytes: &[u8],
    ) -> Result<Reply, Refusal>
        requires invariants { BoardInvariant (board_parts self.old) self.old.events }
        requires count { self.old.events + 1 < 2 ^ 64 }
        requires carries { CarriesBytes kind len bytes.now }
        ensures effect { RequestsTranslatedAccess (board_parts self.old) id
            (access_of address len kind bytes.now) result (board_parts self.new) }
        ensures invariants { BoardInvariant (board_parts self.new) self.new.events }
        ensures counted { IsCounted self.old self.new }
    {
        self.events += 1;
        if let Some(why) = self.refusal(Act::Forge, id) {
            return Err(why);
        }
        Ok(
            self.iommu
                .translated(&mut self.memory, id, address, len, kind, bytes),
        )
    }
}
