// A device is detached: it leaves under a ticket.
ghost use Rattle.iom_driver.specs.Leaving.{AnswersDetach};
ghost use Rattle.iom_driver.specs.Ready.{IsReady};
ghost use Rattle.iom_driver.specs.StateOf.{state_of};

use crate::answers::Ticket;
use crate::attachments::set_attachment;
use crate::device::Attachment;
use crate::driver::Driver;
use crate::layout::directory_frame;
use iom_base::{DeviceId, Refusal};
use iom_directory_build::clear_context;
use iom_phys_mem::Memory;
use iom_registers::Mmio;

impl Driver {
    /// The device leaves under the next ticket: its context is cleared, and three commands are queued, an
    /// invalidation of its context, one of its address space, and the ticket's fence. Its frames and its number
    /// are its own until a poll confirms the ticket. `NotStarted`, `NoSuchDevice`, `NotAttached` (a leaving
    /// device too), `Quarantined`, `StillGranted` where it holds or lingers on something, `TooManyPending`
    /// where 256 tickets wait, `QueueFull` where the ring has fewer than three free places, `NumbersUsedUp`
    /// after the last fence's number: the first that applies, and then nothing changes. Takes no memory.
    pub fn detach<M: Mmio>(
        &mut self,
        memory: &mut Memory,
        io: &mut M,
        id: DeviceId,
    ) -> Result<Ticket, Refusal>
        requires ready { IsReady (state_of self.old) memory.old (M.registers io.old) }
        ensures effect { AnswersDetach M.Mmio (state_of self.old) memory.old io.old id result (state_of self.new) memory.new io.new }
        ensures ready { IsReady (state_of self.new) memory.new (M.registers io.new) }
    {
        let stage = match self.admit_detach(io, id) {
            Ok(stage) => stage,
            Err(why) => return Err(why),
        };
        let number = self.last_fence() + 1;
        self.given += 1;
        let ticket = self.given;
        set_attachment(&mut self.devices, id, Attachment::Leaving { ticket, stage });
        let directory = directory_frame(self.frames);
        clear_context(memory, self.levels, directory, id);
        self.append_detach(memory, io, id, stage, number);
        Ok(Ticket(ticket))
    }
}
