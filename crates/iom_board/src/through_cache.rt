// Accesses of devices through their own caches of translations (PCI Express Base Specification, section 10.2): what a
// cache has goes to the IOMMU as a translated request.
ghost use Rattle.std.specs.Prelude.{◌≡◌, ◌+◌, ◌/◌, ◌<◌, ◌^◌, length};
ghost use Rattle.std.specs.Option.{option_and_then};
ghost use Rattle.iom_ats_cache.specs.Cache.{Cache, frame_for};
ghost use Rattle.iom_base.specs.Sizes.{page_size};
ghost use Rattle.iom_device.specs.Caches.{cache_of};
ghost use Rattle.iom_inflight.specs.Invariant.{CarriesBytes};
ghost use Rattle.iom_iommu.specs.Parts.{IsAdded, flights_of, frames_of};
ghost use Rattle.iom_iommu.specs.Requests.{access_of};
ghost use Rattle.iom_board.specs.Counted.{IsCounted};
ghost use Rattle.iom_board.specs.BoardParts.{board_parts, disks_at_hand};
ghost use Rattle.iom_board.specs.Senders.{cached_by};
ghost use Rattle.iom_board.specs.Invariant.{BoardInvariant};
ghost use Rattle.iom_board.specs.ThroughCache.{GoesByCache, RequestsAccessThroughCache};

use crate::answers::CacheReply;
use crate::board::Board;
use crate::permits::Act;
use crate::sender::Sender;
use iom_base::{AccessKind, DeviceId, MAX_IN_FLIGHT, PAGE_SIZE, Refusal, Span};
use iom_fabric::PageNumber;
use iom_iommu::Reply;

impl Board {
    /// The frame that the device's own cache has for an access of the kind at the address.
    fn cached_frame(&self, id: DeviceId, address: u64, kind: AccessKind) -> Option<u32>
        ensures { result ≡ option_and_then (λ (cache : Cache). frame_for cache (address / page_size) kind) (cache_of self.now.devices.items id) }
    {
        let page = PageNumber::new(address / PAGE_SIZE).unwrap();
        match self.device_with(id) {
            Some(device) => device.look(page, kind),
            None => None,
        }
    }

    /// What comes of an access of a device that can have it through its own cache.
    fn go_by_cache(
        &mut self,
        id: DeviceId,
        address: u64,
        len: u64,
        kind: AccessKind,
        bytes: &[u8],
    ) -> CacheReply
        requires memory { length self.old.memory ≡ frames_of self.old.iommu }
        requires added { IsAdded self.old.iommu id }
        requires count { (flights_of self.old.iommu).so_far + 1 < 2 ^ 64 }
        requires carries { CarriesBytes kind len bytes.now }
        ensures effect { GoesByCache id (access_of address len kind bytes.now) (board_parts self.old) result (board_parts self.new) }
        ensures frames { length self.new.memory ≡ length self.old.memory }
        ensures disks { disks_at_hand self.new ≡ disks_at_hand self.old }
        ensures events { self.new.events ≡ self.old.events }
    {
        if Span::new(address, len).is_none() {
            return CacheReply::Replied(Reply::BadSpan);
        }
        if self.iommu.in_flight(id) >= MAX_IN_FLIGHT {
            return CacheReply::Replied(Reply::Busy);
        }
        let Some(frame) = self.cached_frame(id, address, kind) else {
            return CacheReply::Miss;
        };
        let physical = u64::from(frame) * PAGE_SIZE + address % PAGE_SIZE;
        CacheReply::Replied(
            self.iommu
                .translated(&mut self.memory, id, physical, len, kind, bytes),
        )
    }

    /// A device asks for an access at the address through its own cache: the first that applies of `Replied(BadSpan)`,
    /// `Replied(Busy)`, `Miss` where the cache has no frame for it, and what the IOMMU answers to the translated request at
    /// that frame. `NoSuchDevice` where no device has the id, `WrongKind` where its kind has none so; nothing changes then.
    pub fn through_cache(
        &mut self,
        sender: Sender,
        id: DeviceId,
        address: u64,
        len: u64,
        kind: AccessKind,
        bytes: &[u8],
    ) -> Result<CacheReply, Refusal>
        requires invariants { BoardInvariant (board_parts self.old) self.old.events }
        requires count { self.old.events + 1 < 2 ^ 64 }
        requires carries { CarriesBytes kind len bytes.now }
        ensures effect { RequestsAccessThroughCache (cached_by sender) (board_parts self.old) id
            (access_of address len kind bytes.now) result (board_parts self.new) }
        ensures invariants { BoardInvariant (board_parts self.new) self.new.events }
        ensures counted { IsCounted self.old self.new }
    {
        self.events += 1;
        if let Some(why) = self.refusal(Act::ThroughCache(sender), id) {
            return Err(why);
        }
        Ok(self.go_by_cache(id, address, len, kind, bytes))
    }
}
