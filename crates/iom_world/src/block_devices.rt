// The events of block devices (virtio 1.2).
ghost use Rattle.std.specs.Prelude.{◌≡◌, ◌+◌, ◌<◌, ◌^◌, ℕ};
ghost use Rattle.iom_machine.specs.declared.event.Event.TheVariants as events;
ghost use Rattle.iom_virtqueue.specs.Layouts.{layout_of};
ghost use Rattle.iom_world_effects.specs.BlockDevices.{InsertsMedium, SetsBlockQueue, TakesBlockStep, TellsBlockStatus};
ghost use Rattle.iom_machine.specs.Disks.{disks_after};
ghost use Rattle.iom_world.specs.Blocks.{InsertsIntoBlock, SetsQueueOf, TakesStepOf, TellsStatusOf};
ghost use Rattle.iom_world.specs.OnHardware.{outcome_of_status, outcome_unless};
ghost use Rattle.iom_world.specs.Shown.{parts_of, disks_of, inside_of};
ghost use Rattle.iom_answers.specs.Answers.{outcome_of};

use crate::answering::{done_answer, status_answer, step_answer};
use crate::world::World;
use iom_answers::Answer;
use iom_base::DeviceId;
use iom_virtio_blk::Disk;
use iom_world_effects::laws_below;

impl<D: Disk> World<D> {
    /// The disk is put into the block device: `BadMedium` where that has one, or the disk was in a device before,
    /// or there is none of this number. Nothing changes where it is refused.
    #[inline(never)]
    pub(crate) fn medium(&mut self, id: DeviceId, disk: u64) -> Answer<'static>
        requires count { self.old.hardware.board.events + 1 < 2 ^ 64 }
        ensures effect { InsertsMedium (disks_of self.old) (parts_of self.old) id disk (outcome_of result) (parts_of self.new) }
        ensures disks { disks_of self.new ≡ disks_after (events.Medium id disk) (outcome_of result) (disks_of self.old) }
        ensures inside { InsertsIntoBlock disk (inside_of D.shown self.old) id (outcome_of result) (inside_of D.shown self.new) }
        ensures events { self.new.hardware.board.events ≡ self.old.hardware.board.events + 1 }
        ensures made { self.new.made ≡ self.old.made }
    {
        done_answer(self.hardware.medium(id, disk))
    }

    /// The queue of the block device is set, and what its own cache has is forgotten: `BadQueue` where the queue
    /// can't lie so.
    #[inline(never)]
    pub(crate) fn queue(
        &mut self,
        id: DeviceId,
        size: u64,
        descriptors: u64,
        available: u64,
        used: u64,
    ) -> Answer<'static>
        requires count { self.old.hardware.board.events + 1 < 2 ^ 64 }
        ensures effect { SetsBlockQueue (parts_of self.old) id (layout_of size descriptors available used) (outcome_of result) (parts_of self.new) }
        ensures disks { disks_of self.new ≡ disks_of self.old }
        ensures inside { SetsQueueOf (layout_of size descriptors available used) (inside_of D.shown self.old) id (outcome_of result) (inside_of D.shown self.new) }
        ensures events { self.new.hardware.board.events ≡ self.old.hardware.board.events + 1 }
        ensures made { self.new.made ≡ self.old.made }
    {
        done_answer(self.hardware.queue(id, size, descriptors, available, used))
    }

    /// The status of the block device is read.
    #[inline(never)]
    pub(crate) fn block_status(&mut self, id: DeviceId) -> Answer<'static>
        requires count { self.old.hardware.board.events + 1 < 2 ^ 64 }
        ensures effect { (status : ℕ) × TellsBlockStatus (parts_of self.old) id status (outcome_of result) (parts_of self.new) }
        ensures disks { disks_of self.new ≡ disks_of self.old }
        ensures inside { TellsStatusOf (parts_of self.old) (inside_of D.shown self.old) id (outcome_of result) (parts_of self.new) (inside_of D.shown self.new) }
        ensures events { self.new.hardware.board.events ≡ self.old.hardware.board.events + 1 }
        ensures made { self.new.made ≡ self.old.made }
    {
        let answer = self.hardware.status(id);
        self.hardware.board.events += 1;
        status_answer(answer)
    }

    /// The block device takes a step, up to the access that it wants, which begins in the same event.
    #[inline(never)]
    pub(crate) fn step_block(&mut self, id: DeviceId) -> Answer<'static>
        requires count { self.old.hardware.board.events + 1 < 2 ^ 64 }
        ensures effect { TakesBlockStep (parts_of self.old) id (outcome_of result) (parts_of self.new) }
        ensures disks { disks_of self.new ≡ disks_of self.old }
        ensures inside { TakesStepOf (parts_of self.old) (inside_of D.shown self.old) id (outcome_of result) (parts_of self.new) (inside_of D.shown self.new) }
        ensures events { self.new.hardware.board.events ≡ self.old.hardware.board.events + 1 }
        ensures made { self.new.made ≡ self.old.made }
    {
        laws_below();
        step_answer(self.hardware.step(id))
    }
}
