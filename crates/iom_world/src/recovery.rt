// What is done about a device that doesn't answer.
ghost use Rattle.std.specs.Prelude.{◌≡◌, ◌+◌, ◌<◌, ◌^◌, if◌then◌else◌};
ghost use Rattle.iom_machine.specs.declared.outcome.Outcome.TheVariants as outcome;
ghost use Rattle.iom_world_effects.specs.Recovery.{QuarantinesDevice, RevivesDevice, RestartsQueue, TimesOutFence, ResetsDevice};
ghost use Rattle.iom_world.specs.Shown.{parts_of, disks_of, inside_of};
ghost use Rattle.iom_world.specs.Blocks.{ResetsBlock};
ghost use Rattle.iom_answers.specs.Answers.{outcome_of};

use crate::answering::{done_answer, ticket_answer, timeout_answer};
use crate::world::World;
use iom_answers::Answer;
use iom_base::DeviceId;
use iom_virtio_blk::Disk;

impl<D: Disk> World<D> {
    /// A device is quarantined: what it holds lingers until the ticket is confirmed.
    #[inline(never)]
    pub(crate) fn quarantine(&mut self, id: DeviceId) -> Answer<'static>
        requires count { self.old.hardware.board.events + 1 < 2 ^ 64 }
        ensures effect { QuarantinesDevice (parts_of self.old) id (outcome_of result) (parts_of self.new) }
        ensures disks { disks_of self.new ≡ disks_of self.old }
        ensures inside { inside_of D.shown self.new ≡ inside_of D.shown self.old }
        ensures events { self.new.hardware.board.events ≡ self.old.hardware.board.events + 1 }
        ensures made { self.new.made ≡ self.old.made }
    {
        self.hardware.board.events += 1;
        let answer = self.driver.quarantine(
            &mut self.hardware.board.memory,
            &mut self.hardware.board.iommu,
            id,
        );
        ticket_answer(answer)
    }

    /// A device that was quarantined is reset, and then attached again: else its cache might still have translations
    /// from before, of pages that others have by now.
    #[inline(never)]
    pub(crate) fn revive(&mut self, id: DeviceId) -> Answer<'static>
        requires count { self.old.hardware.board.events + 1 < 2 ^ 64 }
        ensures effect { RevivesDevice (parts_of self.old) id (outcome_of result) (parts_of self.new) }
        ensures disks { disks_of self.new ≡ disks_of self.old }
        ensures inside { ResetsBlock (inside_of D.shown self.old) id (outcome_of result) (inside_of D.shown self.new) }
        ensures events { self.new.hardware.board.events ≡ self.old.hardware.board.events + 1 }
        ensures made { self.new.made ≡ self.old.made }
    {
        if let Err(why) = self.driver.may_revive(id) {
            self.hardware.board.events += 1;
            return Answer::Refused(why);
        }
        // It is there, since the driver and the hardware have the same devices.
        self.hardware.reset(id).unwrap();
        done_answer(self.driver.revive(&mut self.hardware.board.memory, id))
    }

    /// The command queue is emptied, and filled with what is still needed.
    #[inline(never)]
    pub(crate) fn restart(&mut self) -> Answer<'static>
        requires count { self.old.hardware.board.events + 1 < 2 ^ 64 }
        ensures effect { RestartsQueue (parts_of self.old) (outcome_of result) (parts_of self.new) }
        ensures disks { disks_of self.new ≡ disks_of self.old }
        ensures inside { inside_of D.shown self.new ≡ inside_of D.shown self.old }
        ensures events { self.new.hardware.board.events ≡ self.old.hardware.board.events + 1 }
        ensures made { self.new.made ≡ self.old.made }
    {
        self.hardware.board.events += 1;
        done_answer(
            self.driver.restart(
                &mut self.hardware.board.memory,
                &mut self.hardware.board.iommu,
            ),
        )
    }

    /// A fence that waits for devices is given up; `NoEffect` where none does.
    #[inline(never)]
    pub(crate) fn timeout(&mut self) -> Answer<'static>
        requires count { self.old.hardware.board.events + 1 < 2 ^ 64 }
        ensures effect { TimesOutFence (parts_of self.old) (outcome_of result) (parts_of self.new) }
        ensures disks { disks_of self.new ≡ disks_of self.old }
        ensures inside { inside_of D.shown self.new ≡ inside_of D.shown self.old }
        ensures events { self.new.hardware.board.events ≡ self.old.hardware.board.events + 1 }
        ensures made { self.new.made ≡ self.old.made }
    {
        timeout_answer(self.hardware.board.timeout())
    }

    /// A device is reset: `Refused(NoSuchDevice)` where there is none.
    #[inline(never)]
    pub(crate) fn reset(&mut self, device: DeviceId) -> Answer<'static>
        requires count { self.old.hardware.board.events + 1 < 2 ^ 64 }
        ensures effect { ResetsDevice (parts_of self.old) device (outcome_of result) (parts_of self.new) }
        ensures disks { disks_of self.new ≡ disks_of self.old }
        ensures inside { ResetsBlock (inside_of D.shown self.old) device (outcome_of result) (inside_of D.shown self.new) }
        ensures events { self.new.hardware.board.events ≡ self.old.hardware.board.events + 1 }
        ensures made { self.new.made ≡ self.old.made }
    {
        done_answer(self.hardware.reset(device))
    }
}
