// What the driver is asked to do.
ghost use denote.Follow.{follows_so};
ghost use Rattle.std.specs.Borrow.{sem};
ghost use mathlib.Core.Option.{none};
ghost use Rattle.iom_world.specs.contracts.world.World.{the_row};
ghost use Rattle.std.specs.Prelude.{⊤, ◌≡◌, ◌+◌, ◌<◌, ◌≤◌, ◌^◌, ℕ};
ghost use Rattle.iom_world_effects.specs.Answers.{outcome_of_done, outcome_of_ticket};
ghost use Rattle.iom_world_effects.specs.Effect.{outcome_of_poll, outcome_of_report, AttachesDevice, GrantsPage, ReleasesPage, DetachesDevice, PollsTickets, TakesReport};
ghost use Rattle.iom_world.specs.Shown.{parts_of, disks_of, inside_of};
ghost use Rattle.iom_world.specs.Blocks.{LeavesBlock};
ghost use Rattle.iom_answers.specs.Answers.{outcome_of};

use crate::answering::{done_answer, poll_answer, ticket_answer};
use crate::world::World;
use iom_answers::Answer;
use iom_base::{DeviceId, Mode, Refusal};
use iom_driver::{Mapping, Polled, Ticket};
use iom_fault_queue::Record;
use iom_machine::FaultRecord;
use iom_virtio_blk::Disk;

impl<D: Disk> World<D> {
    /// A device is attached in the mode, with ATS or without.
    #[inline(never)]
    pub(crate) fn attach(&mut self, id: DeviceId, mode: Mode, ats: bool) -> Answer<'static>
        requires count { self.old.hardware.board.events + 1 < 2 ^ 64 }
        ensures effect { AttachesDevice (parts_of self.old) id mode ats (outcome_of result) (parts_of self.new) }
        ensures disks { disks_of self.new ≡ disks_of self.old }
        ensures inside { inside_of D.shown self.new ≡ inside_of D.shown self.old }
        ensures events { self.new.hardware.board.events ≡ self.old.hardware.board.events + 1 }
        ensures made { self.new.made ≡ self.old.made }
    {
        self.hardware.board.events += 1;
        done_answer(
            self.driver
                .attach(&mut self.hardware.board.memory, id, mode, ats),
        )
    }

    /// A device gets a frame at a page.
    #[inline(never)]
    pub(crate) fn grant(&mut self, id: DeviceId, mapping: Mapping) -> Answer<'static>
        requires count { self.old.hardware.board.events + 1 < 2 ^ 64 }
        ensures effect { GrantsPage (parts_of self.old) id mapping.page mapping.frame mapping.rights (outcome_of result) (parts_of self.new) }
        ensures disks { disks_of self.new ≡ disks_of self.old }
        ensures inside { inside_of D.shown self.new ≡ inside_of D.shown self.old }
        ensures events { self.new.hardware.board.events ≡ self.old.hardware.board.events + 1 }
        ensures made { self.new.made ≡ self.old.made }
    {
        self.hardware.board.events += 1;
        done_answer(
            self.driver
                .grant(&mut self.hardware.board.memory, id, mapping),
        )
    }

    /// What a device holds at a page is released.
    #[inline(never)]
    pub(crate) fn release(&mut self, id: DeviceId, page: u64) -> Answer<'static>
        requires count { self.old.hardware.board.events + 1 < 2 ^ 64 }
        ensures effect { ReleasesPage (parts_of self.old) id page (outcome_of result) (parts_of self.new) }
        ensures disks { disks_of self.new ≡ disks_of self.old }
        ensures inside { inside_of D.shown self.new ≡ inside_of D.shown self.old }
        ensures events { self.new.hardware.board.events ≡ self.old.hardware.board.events + 1 }
        ensures made { self.new.made ≡ self.old.made }
    {
        self.hardware.board.events += 1;
        let answer = self.driver.release(
            &mut self.hardware.board.memory,
            &mut self.hardware.board.iommu,
            id,
            page,
        );
        ticket_answer(answer)
    }

    /// A device is detached: it leaves until the ticket is confirmed, and its disk goes at once.
    #[inline(never)]
    pub(crate) fn detach(&mut self, id: DeviceId) -> Answer<'static>
        requires count { self.old.hardware.board.events + 1 < 2 ^ 64 }
        ensures effect { DetachesDevice (parts_of self.old) id (outcome_of result) (parts_of self.new) }
        ensures disks { disks_of self.new ≡ disks_of self.old }
        ensures inside { LeavesBlock (inside_of D.shown self.old) id (outcome_of result) (inside_of D.shown self.new) }
        ensures events { self.new.hardware.board.events ≡ self.old.hardware.board.events + 1 }
        ensures made { self.new.made ≡ self.old.made }
    {
        let answer = self.driver.detach(
            &mut self.hardware.board.memory,
            &mut self.hardware.board.iommu,
            id,
        );
        let ticket = match answer {
            Ok(ticket) => ticket,
            Err(why) => {
                self.hardware.board.events += 1;
                return Answer::Refused(why);
            }
        };
        // It is there, since the driver and the hardware have the same devices.
        self.hardware.remove_disk(id).unwrap();
        Answer::Ticket(ticket.0)
    }

    /// The driver learns which tickets' fences are done, and forgets what waited for them: what a device that is leaving had is given back.
    #[inline(never)]
    pub(crate) fn poll(&mut self) -> Answer<'static>
        requires count { self.old.hardware.board.events + 1 < 2 ^ 64 }
        ensures effect { PollsTickets (parts_of self.old) (outcome_of result) (parts_of self.new) }
        ensures disks { disks_of self.new ≡ disks_of self.old }
        ensures inside { inside_of D.shown self.new ≡ inside_of D.shown self.old }
        ensures events { self.new.hardware.board.events ≡ self.old.hardware.board.events + 1 }
        ensures made { self.new.made ≡ self.old.made }
    {
        self.hardware.board.events += 1;
        match self.driver.poll(&mut self.hardware.board.memory, &self.hardware.board.iommu) {
            Ok(polled) => poll_answer(polled),
            Err(why) => Answer::Refused(why),
        }
    }

    /// The driver takes the oldest fault record of the queue; where it finds none, records are written again
    /// that were dropped before.
    #[inline(never)]
    pub(crate) fn faults(&mut self) -> Answer<'_>
        requires count { self.old.hardware.board.events + 1 < 2 ^ 64 }
        ensures* happens { sem 𝓛 (follows_so (the_row D.row D.Disk) (the_row D.row D.Disk) self.entry.ghost_name none (λ _ _. ⊤) (λ v.
            TakesReport (parts_of self.old) (outcome_of result) (parts_of v)
            × (disks_of v ≡ disks_of self.old)
            × (inside_of D.shown v ≡ inside_of D.shown self.old)
            × (v.hardware.board.events ≡ self.old.hardware.board.events + 1)
            × (v.made ≡ self.old.made))) }
    {
        self.hardware.board.events += 1;
        match self.driver.faults(&self.hardware.board.memory, &mut self.hardware.board.iommu) {
            Ok(Some(record)) => {
                self.record.words = record.words();
                Answer::Record(&self.record)
            }
            Ok(None) => Answer::NoRecord,
            Err(why) => Answer::Refused(why),
        }
    }
}
