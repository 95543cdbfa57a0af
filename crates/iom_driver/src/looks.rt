// What is looked at of a driver by somebody who explains its answers. No call of the driver uses these.
ghost use Rattle.std.specs.Prelude.{◌≡◌};
ghost use Rattle.iom_phys_mem.specs.Words.{word_at};
ghost use Rattle.iom_table_frames.specs.Owners.{owner_at};
ghost use Rattle.iom_driver.specs.Layout.{completion_address};
ghost use Rattle.iom_driver.specs.Looks.{awaited_fence, oldest_pending, parting_ticket};
ghost use Rattle.iom_driver.specs.Devices.{attachment_by_id};
ghost use Rattle.iom_driver.specs.StateOf.{state_of};

use crate::device::Attachment;
use crate::driver::Driver;
use crate::layout::completion_frame;
use crate::polling::first_word;
use iom_base::{DeviceId, Owner};
use iom_ledger::Ledger;
use iom_phys_mem::{Bytes, Memory};

impl Driver {
    /// What is held and what lingers.
    pub fn ledger(&self) -> &Ledger
        ensures { result.now ≡ (state_of self.now).ledger }
    {
        &self.ledger
    }

    /// Whom the frame is reserved for: the system, or a device whose table it is. None where it isn't reserved, or outside memory.
    pub fn owner_of(&self, frame: u32) -> Option<Owner>
        ensures { result ≡ owner_at (state_of self.now).owners frame }
    {
        self.owners.owner_of(frame)
    }

    /// The oldest ticket that isn't confirmed: the next that a poll confirms. None where all are.
    pub fn oldest_pending(&self) -> Option<u32>
        ensures { result ≡ oldest_pending (state_of self.now) }
    {
        if self.confirmed < self.given {
            Some(self.confirmed + 1)
        } else {
            None
        }
    }

    /// The number of the fence that the ticket waits for. None where the ticket wasn't given, or is confirmed.
    pub fn awaited_fence(&self, ticket: u32) -> Option<u32>
        ensures { result ≡ awaited_fence (state_of self.now) ticket }
    {
        if ticket <= self.confirmed || ticket > self.given {
            return None;
        }
        let last_queued_with = if ticket < self.restarted {
            self.restarted
        } else {
            ticket
        };
        Some(last_queued_with + self.restarts)
    }

    /// The ticket under which the device was quarantined, or leaves. None where neither is so.
    pub fn parting_ticket(&self, id: DeviceId) -> Option<u32>
        ensures { result ≡ parting_ticket (attachment_by_id (state_of self.now).devices id) }
    {
        match self.device_of(id)?.attachment {
            Attachment::Detached | Attachment::Attached(_) => None,
            Attachment::Quarantined { ticket, .. } | Attachment::Leaving { ticket, .. } => {
                Some(ticket)
            }
        }
    }

    /// The completion word in this memory: the number of the last fence that the IOMMU was done with. None where the memory has no such
    /// place.
    pub fn completion_word(&self, memory: &Memory) -> Option<u32>
        ensures { result ≡ word_at 4 memory.now (completion_address self.now.frames) }
    {
        let frame = completion_frame(self.frames);
        if frame >= memory.frames() {
            return None;
        }
        Some(first_word(memory, frame))
    }
}
