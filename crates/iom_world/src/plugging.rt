// Which devices there are, and how one is plugged in.
ghost use Rattle.std.specs.Prelude.{◌≡◌, ◌+◌, ◌<◌, ◌^◌};
ghost use Rattle.iom_machine.specs.declared.event.Event.TheVariants as events;
ghost use Rattle.iom_device.specs.Caches.{kind_in, epoch_in};
ghost use Rattle.iom_world_effects.specs.Effect.{PlugsDevice};
ghost use Rattle.iom_machine.specs.Disks.{disks_after};
ghost use Rattle.iom_world.specs.Shown.{parts_of, disks_of, inside_of};
ghost use Rattle.iom_base.specs.DeviceKinds.{disk_of};
ghost use Rattle.iom_world.specs.Blocks.{PlugsBlock};
ghost use Rattle.iom_answers.specs.Answers.{outcome_of};

use crate::answering::done_answer;
use crate::world::World;
use iom_answers::Answer;
use iom_base::{DeviceId, DeviceKind, NewDevice};
use iom_virtio_blk::Disk;

impl<D: Disk> World<D> {
    /// What the device with this id is, if one is plugged in.
    pub fn kind_of(&self, id: DeviceId) -> Option<DeviceKind>
        ensures { result ≡ kind_in self.now.hardware.board.devices.items id }
    {
        self.hardware.board.kind_of(id)
    }

    /// The epoch of its cache; 0 where it has none, or isn't plugged in.
    pub fn epoch_of(&self, id: DeviceId) -> u64
        ensures { result ≡ epoch_in self.now.hardware.board.devices.items id }
    {
        self.hardware.board.epoch_of(id)
    }

    /// A device is plugged in, attached to nothing and with nothing in flight; a block device with the disk that
    /// it names. The driver learns of it once nothing is against it on the side of the hardware, and there is room for it
    /// there: so nothing is half done.
    #[inline(never)]
    pub(crate) fn plug(&mut self, id: DeviceId, what: NewDevice) -> Answer<'static>
        requires count { self.old.hardware.board.events + 1 < 2 ^ 64 }
        ensures effect { PlugsDevice (disks_of self.old) (parts_of self.old) id what (outcome_of result) (parts_of self.new) }
        ensures disks { disks_of self.new ≡ disks_after (events.Plug id what) (outcome_of result) (disks_of self.old) }
        ensures inside { PlugsBlock (disk_of what) (inside_of D.shown self.old) id (outcome_of result) (inside_of D.shown self.new) }
        ensures events { self.new.hardware.board.events ≡ self.old.hardware.board.events + 1 }
        ensures made { self.new.made ≡ self.old.made }
    {
        if let Err(why) = self.hardware.board.prepare_plug(id, what) {
            self.hardware.board.events += 1;
            return Answer::Refused(why);
        }
        if let Err(why) = self.driver.plug(id, what.kind().has_cache()) {
            self.hardware.board.events += 1;
            return Answer::Refused(why);
        }
        done_answer(self.hardware.plug(id, what))
    }
}
