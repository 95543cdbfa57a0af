// Accesses of devices through their own caches of translations (PCI Express Base Specification, section 10.2): what a
// cache has goes to the IOMMU as a translated request.
ghost use Rattle.std.specs.Prelude.{◌≡◌, ◌+◌, ◌<◌, ◌^◌};
ghost use Rattle.iom_base.specs.Accesses.{read_of, write_of};
ghost use Rattle.iom_base.specs.DeviceKinds.{sends_through_cache};
ghost use Rattle.iom_board.specs.Senders.{cached_by};
ghost use Rattle.iom_inflight.specs.Invariant.{CarriesBytes};
ghost use Rattle.iom_iommu.specs.Requests.{access_of};
ghost use Rattle.iom_world_effects.specs.ThroughCache.{DeviceAsksThroughCache};
ghost use Rattle.iom_world.specs.OnHardware.{outcome_unless, outcome_of_cache_reply};
ghost use Rattle.iom_world.specs.Shown.{parts_of, disks_of, inside_of};
ghost use Rattle.iom_answers.specs.Answers.{outcome_of};

use crate::answering::cached_answer;
use crate::world::World;
use iom_answers::Answer;
use iom_base::{AccessKind, DeviceId, Refusal};
use iom_board::{CacheReply, Sender};
use iom_virtio_blk::Disk;
use iom_world_effects::laws_below;

impl<D: Disk> World<D> {
    /// A device asks for an access at the address through its own cache. `BadSpan` and `Busy` as for an
    /// untranslated one; `Miss` where the cache has no frame for it; else what the IOMMU answers to the translated
    /// request at that frame. A device whose kind has none so is refused.
    pub(crate) fn through_cache(
        &mut self,
        sender: Sender,
        id: DeviceId,
        address: u64,
        len: u64,
        kind: AccessKind,
        bytes: &[u8],
    ) -> Answer<'static>
        requires count { self.old.hardware.board.events + 1 < 2 ^ 64 }
        requires carries { CarriesBytes kind len bytes.now }
        ensures effect { DeviceAsksThroughCache (cached_by sender) (parts_of self.old) id (access_of address len kind bytes.now)
            (outcome_of result) (parts_of self.new) }
        ensures disks { disks_of self.new ≡ disks_of self.old }
        ensures inside { inside_of D.shown self.new ≡ inside_of D.shown self.old }
        ensures events { self.new.hardware.board.events ≡ self.old.hardware.board.events + 1 }
        ensures made { self.new.made ≡ self.old.made }
    {
        laws_below();
        let answer = self
            .hardware
            .board
            .through_cache(sender, id, address, len, kind, bytes);
        cached_answer(answer)
    }

    /// A device reads so many bytes at the address through its own cache.
    #[inline(never)]
    pub(crate) fn read_through_cache(
        &mut self,
        id: DeviceId,
        address: u64,
        len: u64,
    ) -> Answer<'static>
        requires count { self.old.hardware.board.events + 1 < 2 ^ 64 }
        ensures effect { DeviceAsksThroughCache sends_through_cache (parts_of self.old) id (read_of address len) (outcome_of result) (parts_of self.new) }
        ensures disks { disks_of self.new ≡ disks_of self.old }
        ensures inside { inside_of D.shown self.new ≡ inside_of D.shown self.old }
        ensures events { self.new.hardware.board.events ≡ self.old.hardware.board.events + 1 }
        ensures made { self.new.made ≡ self.old.made }
    {
        self.through_cache(Sender::Own, id, address, len, AccessKind::Read, &[])
    }

    /// A device writes the bytes at the address through its own cache.
    #[inline(never)]
    pub(crate) fn write_through_cache(
        &mut self,
        id: DeviceId,
        address: u64,
        bytes: &[u8],
    ) -> Answer<'static>
        requires count { self.old.hardware.board.events + 1 < 2 ^ 64 }
        ensures effect { DeviceAsksThroughCache sends_through_cache (parts_of self.old) id (write_of address bytes.now) (outcome_of result) (parts_of self.new) }
        ensures disks { disks_of self.new ≡ disks_of self.old }
        ensures inside { inside_of D.shown self.new ≡ inside_of D.shown self.old }
        ensures events { self.new.hardware.board.events ≡ self.old.hardware.board.events + 1 }
        ensures made { self.new.made ≡ self.old.made }
    {
        let len = bytes.len() as u64;
        self.through_cache(Sender::Own, id, address, len, AccessKind::Write, bytes)
    }
}
