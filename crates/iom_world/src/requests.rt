// What a device asks of memory, and what it is answered.
ghost use Rattle.std.specs.Prelude.{◌≡◌, ◌+◌, ◌<◌, ◌^◌};
ghost use Rattle.iom_base.specs.Accesses.{read_of, write_of};
ghost use Rattle.iom_base.specs.DeviceKinds.{sends_untranslated};
ghost use Rattle.iom_board.specs.Senders.{untranslated_by};
ghost use Rattle.iom_inflight.specs.Invariant.{CarriesBytes};
ghost use Rattle.iom_iommu.specs.Requests.{access_of};
ghost use Rattle.iom_world_effects.specs.Requests.{AsksAccess, AsksTranslated, outcome_of_reply};
ghost use Rattle.iom_world.specs.OnHardware.{outcome_unless};
ghost use Rattle.iom_world.specs.Shown.{parts_of, disks_of, inside_of};
ghost use Rattle.iom_answers.specs.Answers.{outcome_of};

use crate::answering::request_answer;
use crate::world::World;
use iom_answers::Answer;
use iom_base::{AccessKind, DeviceId, Refusal};
use iom_board::Sender;
use iom_iommu::Reply;
use iom_virtio_blk::Disk;
use iom_world_effects::laws_below;

impl<D: Disk> World<D> {
    /// A device asks for an access to so many bytes at the address. `Accepted`, with the access's number among the
    /// device's, where it is in flight now; else nothing is: `NoSuchDevice`, `WrongKind` where its kind sends none so,
    /// `BadSpan`, `Busy`, or `Fault` with its cause, whose record goes into the fault queue.
    #[inline(always)]
    pub(crate) fn request(
        &mut self,
        sender: Sender,
        id: DeviceId,
        address: u64,
        len: u64,
        kind: AccessKind,
        bytes: &[u8],
    ) -> Result<Reply, Refusal>
        requires count { self.old.hardware.board.events + 1 < 2 ^ 64 }
        requires carries { CarriesBytes kind len bytes.now }
        ensures effect { AsksAccess (untranslated_by sender) (parts_of self.old) id (access_of address len kind bytes.now)
            (outcome_unless outcome_of_reply result) (parts_of self.new) }
        ensures fits { address < 2 ^ 64 }
        ensures disks { disks_of self.new ≡ disks_of self.old }
        ensures inside { inside_of D.shown self.new ≡ inside_of D.shown self.old }
        ensures events { self.new.hardware.board.events ≡ self.old.hardware.board.events + 1 }
        ensures made { self.new.made ≡ self.old.made }
    {
        laws_below();
        self.hardware
            .board
            .request(sender, id, address, len, kind, bytes)
    }

    /// A device asks for a read of so many bytes at the address.
    #[inline(never)]
    pub(crate) fn read(&mut self, id: DeviceId, address: u64, len: u64) -> Answer<'static>
        requires count { self.old.hardware.board.events + 1 < 2 ^ 64 }
        ensures effect { AsksAccess sends_untranslated (parts_of self.old) id (read_of address len) (outcome_of result) (parts_of self.new) }
        ensures fits { address < 2 ^ 64 }
        ensures disks { disks_of self.new ≡ disks_of self.old }
        ensures inside { inside_of D.shown self.new ≡ inside_of D.shown self.old }
        ensures events { self.new.hardware.board.events ≡ self.old.hardware.board.events + 1 }
        ensures made { self.new.made ≡ self.old.made }
    {
        request_answer(self.request(Sender::Own, id, address, len, AccessKind::Read, &[]))
    }

    /// A device asks for a write of the bytes at the address: answered as a read is.
    #[inline(never)]
    pub(crate) fn write(&mut self, id: DeviceId, address: u64, bytes: &[u8]) -> Answer<'static>
        requires count { self.old.hardware.board.events + 1 < 2 ^ 64 }
        ensures effect { AsksAccess sends_untranslated (parts_of self.old) id (write_of address bytes.now)
            (outcome_of result) (parts_of self.new) }
        ensures fits { address < 2 ^ 64 }
        ensures disks { disks_of self.new ≡ disks_of self.old }
        ensures inside { inside_of D.shown self.new ≡ inside_of D.shown self.old }
        ensures events { self.new.hardware.board.events ≡ self.old.hardware.board.events + 1 }
        ensures made { self.new.made ≡ self.old.made }
    {
        let len = bytes.len() as u64;
        request_answer(self.request(Sender::Own, id, address, len, AccessKind::Write, bytes))
    }

    /// A raw device asks for an access at an address of memory, and says that it is translated. Answered as an
    /// untranslated one is; only a raw device does so.
    fn translated(
        &mut self,
        id: DeviceId,
        address: u64,
        len: u64,
        kind: AccessKind,
        bytes: &[u8],
    ) -> Result<Reply, Refusal>
        requires count { self.old.hardware.board.events + 1 < 2 ^ 64 }
        requires carries { CarriesBytes kind len bytes.now }
        ensures effect { AsksTranslated (parts_of self.old) id (access_of address len kind bytes.now) (outcome_unless outcome_of_reply result) (parts_of self.new) }
        ensures disks { disks_of self.new ≡ disks_of self.old }
        ensures inside { inside_of D.shown self.new ≡ inside_of D.shown self.old }
        ensures events { self.new.hardware.board.events ≡ self.old.hardware.board.events + 1 }
        ensures made { self.new.made ≡ self.old.made }
    {
        laws_below();
        self.hardware
            .board
            .translated(id, address, len, kind, bytes)
    }

    /// A raw device asks so for a read of so many bytes.
    #[inline(never)]
    pub(crate) fn read_translated(
        &mut self,
        id: DeviceId,
        address: u64,
        len: u64,
    ) -> Answer<'static>
        requires count { self.old.hardware.board.events + 1 < 2 ^ 64 }
        ensures effect { AsksTranslated (parts_of self.old) id (read_of address len) (outcome_of result) (parts_of self.new) }
        ensures disks { disks_of self.new ≡ disks_of self.old }
        ensures inside { inside_of D.shown self.new ≡ inside_of D.shown self.old }
        ensures events { self.new.hardware.board.events ≡ self.old.hardware.board.events + 1 }
        ensures made { self.new.made ≡ self.old.made }
    {
        request_answer(self.translated(id, address, len, AccessKind::Read, &[]))
    }

    /// A raw device asks so for a write of the bytes.
    #[inline(never)]
    pub(crate) fn write_translated(
        &mut self,
        id: DeviceId,
        address: u64,
        bytes: &[u8],
    ) -> Answer<'static>
        requires count { self.old.hardware.board.events + 1 < 2 ^ 64 }
        ensures effect { AsksTranslated (parts_of self.old) id (write_of address bytes.now) (outcome_of result) (parts_of self.new) }
        ensures disks { disks_of self.new ≡ disks_of self.old }
        ensures inside { inside_of D.shown self.new ≡ inside_of D.shown self.old }
        ensures events { self.new.hardware.board.events ≡ self.old.hardware.board.events + 1 }
        ensures made { self.new.made ≡ self.old.made }
    {
        let len = bytes.len() as u64;
        request_answer(self.translated(id, address, len, AccessKind::Write, bytes))
    }
}
