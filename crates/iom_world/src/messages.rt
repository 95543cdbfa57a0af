// What is sent between the IOMMU and the devices with caches of their own (PCI Express Base Specification, chapter
// 10, "Address Translation Services"), and what becomes of it on the way.
ghost use Rattle.std.specs.Prelude.{◌≡◌, ◌+◌, ◌<◌, ◌^◌, slice_get};
ghost use Rattle.iom_ats_cache.specs.declared.taken.Taken.{Taken};
ghost use Rattle.iom_world_effects.specs.Deliveries.{outcome_of_taking, DeliversMessage};
ghost use Rattle.iom_world_effects.specs.Messages.{outcome_of_repeat, AsksQuestion, ForgesCompletion, DropsMessage, RepeatsMessage};
ghost use Rattle.iom_world.specs.OnHardware.{outcome_unless, outcome_of_sending, outcome_of_delivery};
ghost use Rattle.iom_world.specs.Shown.{parts_of, disks_of, inside_of};
ghost use Rattle.iom_world.specs.Blocks.{DeliversTo};
ghost use Rattle.iom_answers.specs.Answers.{outcome_of};

use crate::answering::{delivery_answer, repeat_answer, send_answer};
use crate::world::World;
use iom_answers::Answer;
use iom_ats_cache::Taken;
use iom_base::{DeviceId, Refusal};
use iom_board::Delivered;
use iom_fabric::{PageNumber, Repeat};
use iom_virtio_blk::Disk;
use iom_world_effects::laws_below;

impl<D: Disk> World<D> {
    /// A device asks for the translation of a page, in the epoch of its cache: `Sent`, or `Lost` where 64 messages
    /// are under way; `Refused(NoSuchDevice)`, and `Refused(WrongKind)` for a block device.
    #[inline(never)]
    pub(crate) fn ask(&mut self, id: DeviceId, page: PageNumber) -> Answer<'static>
        requires count { self.old.hardware.board.events + 1 < 2 ^ 64 }
        ensures effect { AsksQuestion (parts_of self.old) id page (outcome_of result) (parts_of self.new) }
        ensures disks { disks_of self.new ≡ disks_of self.old }
        ensures inside { inside_of D.shown self.new ≡ inside_of D.shown self.old }
        ensures events { self.new.hardware.board.events ≡ self.old.hardware.board.events + 1 }
        ensures made { self.new.made ≡ self.old.made }
    {
        // What it ensures is known from here on: the page is one of the address space.
        page.number();
        send_answer(self.hardware.board.ask(id, page))
    }

    /// A device says that it completed the request with this number, whether it was asked or not: answered as a
    /// question is; only a raw device does so.
    #[inline(never)]
    pub(crate) fn forge(&mut self, id: DeviceId, serial: u64) -> Answer<'static>
        requires count { self.old.hardware.board.events + 1 < 2 ^ 64 }
        ensures effect { ForgesCompletion (parts_of self.old) id serial (outcome_of result) (parts_of self.new) }
        ensures disks { disks_of self.new ≡ disks_of self.old }
        ensures inside { inside_of D.shown self.new ≡ inside_of D.shown self.old }
        ensures events { self.new.hardware.board.events ≡ self.old.hardware.board.events + 1 }
        ensures made { self.new.made ≡ self.old.made }
    {
        send_answer(self.hardware.board.forge(id, serial))
    }

    /// The message at the place arrives, and is under way no more: `NoMessage` where there is none. A question is
    /// `Answered`. An answer is `Kept`, `Stale` or `AnswerRefused`, and a request to invalidate `Invalidated`; a
    /// device without a cache has `Ignored` them. A word that such a request is completed is `Closed` where that is
    /// open for the device, and else `NotClosed`.
    #[inline(never)]
    pub(crate) fn deliver(&mut self, place: u64) -> Answer<'static>
        requires count { self.old.hardware.board.events + 1 < 2 ^ 64 }
        ensures effect { DeliversMessage (parts_of self.old) place (outcome_of result) (parts_of self.new) }
        ensures disks { disks_of self.new ≡ disks_of self.old }
        ensures inside { DeliversTo (slice_get self.old.hardware.board.fabric place) (inside_of D.shown self.old) (outcome_of result) (inside_of D.shown self.new) }
        ensures events { self.new.hardware.board.events ≡ self.old.hardware.board.events + 1 }
        ensures made { self.new.made ≡ self.old.made }
    {
        laws_below();
        delivery_answer(self.hardware.deliver(place))
    }

    /// The message at the place is lost; `NoMessage` where there is none.
    #[inline(never)]
    pub(crate) fn drop_message(&mut self, place: u64) -> Answer<'static>
        requires count { self.old.hardware.board.events + 1 < 2 ^ 64 }
        ensures effect { DropsMessage (parts_of self.old) place (outcome_of result) (parts_of self.new) }
        ensures disks { disks_of self.new ≡ disks_of self.old }
        ensures inside { inside_of D.shown self.new ≡ inside_of D.shown self.old }
        ensures events { self.new.hardware.board.events ≡ self.old.hardware.board.events + 1 }
        ensures made { self.new.made ≡ self.old.made }
    {
        if self.hardware.board.drop_message(place) {
            Answer::Dropped
        } else {
            Answer::NoMessage
        }
    }

    /// A copy of the message at the place is sent, and may be `Lost` where 64 are under way; `NoMessage` where there
    /// is none.
    #[inline(never)]
    pub(crate) fn repeat(&mut self, place: u64) -> Answer<'static>
        requires count { self.old.hardware.board.events + 1 < 2 ^ 64 }
        ensures effect { RepeatsMessage (parts_of self.old) place (outcome_of result) (parts_of self.new) }
        ensures disks { disks_of self.new ≡ disks_of self.old }
        ensures inside { inside_of D.shown self.new ≡ inside_of D.shown self.old }
        ensures events { self.new.hardware.board.events ≡ self.old.hardware.board.events + 1 }
        ensures made { self.new.made ≡ self.old.made }
    {
        repeat_answer(self.hardware.board.repeat(place))
    }
}
