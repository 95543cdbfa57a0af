// What a device holds at a page is released.
ghost use Rattle.iom_driver.specs.Calls.{AnswersRelease};
ghost use Rattle.iom_driver.specs.Ready.{IsReady};
ghost use Rattle.iom_driver.specs.StateOf.{state_of};

use crate::answers::Ticket;
use crate::appending::append_release;
use crate::driver::Driver;
use iom_base::{DeviceId, Refusal};
use iom_page_table::unmap;
use iom_phys_mem::Memory;
use iom_registers::Mmio;

impl Driver {
    /// What the device holds at the page is released under the next ticket: the page's leaf is cleared, and
    /// commands are queued, an invalidation of the page, where the device has ATS one that asks it to drop its
    /// own copies, and the ticket's fence. `NotStarted`, `NoSuchDevice`, `NotAttached`, `Quarantined`,
    /// `NotGranted`, `TooManyPending` where 256 tickets wait, `QueueFull` where the ring has fewer free places
    /// than these commands take, two or with ATS three, `NumbersUsedUp` after the last fence's number: the
    /// first that applies. Takes no memory.
    pub fn release<M: Mmio>(
        &mut self,
        memory: &mut Memory,
        io: &mut M,
        id: DeviceId,
        page: u64,
    ) -> Result<Ticket, Refusal>
        requires ready { IsReady (state_of self.old) memory.old (M.registers io.old) }
        ensures effect { AnswersRelease M.Mmio (state_of self.old) memory.old io.old id page result (state_of self.new) memory.new io.new }
        ensures ready { IsReady (state_of self.new) memory.new (M.registers io.new) }
    {
        let stage = match self.admit_release(io, id, page) {
            Ok(stage) => stage,
            Err(why) => return Err(why),
        };
        let number = self.last_fence() + 1;
        self.given += 1;
        self.ledger.release(id, page, self.given);
        unmap(memory, stage.mode.size(), stage.root, page);
        append_release(memory, io, self.frames, id, stage, page, number);
        Ok(Ticket(self.given))
    }
}
