// A device is quarantined, and attached again.
ghost use Rattle.std.specs.Prelude.{◌≡◌, ◌<◌, ◌↔◌, ℕ, Some, IfOk, IfErr, IsSome, Contains, length};
ghost use Rattle.iom_base.specs.Sizes.{page_limit_of};
ghost use Rattle.iom_base.specs.Refusals.{first_that_applies, NoneApplies};
ghost use Rattle.iom_ledger.specs.Shown.{held_in, pages_listed};
ghost use Rattle.iom_page_table.specs.FirstTables.{IsRoot, HasTable, KeepsOutside, KeepsTables};
ghost use Rattle.iom_registers.specs.declared.registers.Registers.{Registers};
ghost use Rattle.iom_driver.specs.Quarantines.{all_unmapped, held_pages, LosesHeldLeaves, AnswersQuarantine};
ghost use Rattle.iom_driver.specs.Ready.{TablesStand, IsReady};
ghost use Rattle.iom_driver.specs.Reasons.{why_not_revive};
ghost use Rattle.iom_driver.specs.Revivals.{AnswersRevive};
ghost use Rattle.iom_driver.specs.StateOf.{state_of};

use crate::answers::Ticket;
use crate::attachments::set_attachment;
use crate::contexts::context_for;
use crate::device::Attachment;
use crate::driver::Driver;
use crate::layout::directory_frame;
use iom_base::{DeviceId, Refusal, Size};
use iom_directory_build::{clear_context, put_context};
use iom_ledger::Ledger;
use iom_page_table::unmap;
use iom_phys_mem::Memory;
use iom_registers::Mmio;

/// Clears the leaf of each page that the device holds.
fn clear_leaves(ledger: &Ledger, memory: &mut Memory, id: DeviceId, size: Size, root: u32)
    requires tree { IsRoot size memory.old root }
    requires pages { (page : ℕ) → IsSome (held_in ledger.now id page) → page < page_limit_of size }
    ensures tree { IsRoot size memory.new root }
    ensures tables { (f : ℕ) → HasTable size memory.new root f ↔ HasTable size memory.old root f }
    ensures leaves { LosesHeldLeaves size ledger.now id root memory.old memory.new }
    ensures outside { KeepsOutside size memory.old memory.new root }
    ensures keeps { KeepsTables size memory.old memory.new root }
    ensures size { length memory.new ≡ length memory.old }
    ensures whole { memory.new ≡ all_unmapped size memory.old root (held_pages ledger.now id (pages_listed ledger.now id)) }
    ensures all { (page : ℕ) → IsSome (held_in ledger.now id page)
        → Contains (held_pages ledger.now id (pages_listed ledger.now id)) page }
{
    for index in 0..ledger.page_count(id) {
        if let Some(page) = ledger.page_at(id, index) {
            if ledger.holds(id, page).is_some() {
                unmap(memory, size, root, page);
            }
        }
    }
}

impl Driver {
    /// The device is quarantined under the next ticket: its context is cleared, and the leaf of each page that it holds;
    /// all of these are released; and the commands of a detach are queued. Its tables and its number stay its own.
    /// `NotStarted`, `NoSuchDevice`, `NotAttached` (a leaving device too), `Quarantined`, `TooManyPending` where 256
    /// tickets wait, `QueueFull` where the ring has fewer than three free places, `NumbersUsedUp` after the last
    /// fence's number: the first that applies, and then nothing changes. Takes no memory.
    pub fn quarantine<M: Mmio>(
        &mut self,
        memory: &mut Memory,
        io: &mut M,
        id: DeviceId,
    ) -> Result<Ticket, Refusal>
        requires ready { IsReady (state_of self.old) memory.old (M.registers io.old) }
        ensures effect { AnswersQuarantine M.Mmio (state_of self.old) memory.old io.old id result (state_of self.new) memory.new io.new }
        ensures ready { IsReady (state_of self.new) memory.new (M.registers io.new) }
    {
        let stage = match self.admit_quarantine(io, id) {
            Ok(stage) => stage,
            Err(why) => return Err(why),
        };
        let number = self.last_fence() + 1;
        self.given += 1;
        let ticket = self.given;
        let directory = directory_frame(self.frames);
        clear_context(memory, self.levels, directory, id);
        clear_leaves(&self.ledger, memory, id, stage.mode.size(), stage.root);
        self.ledger.release_all(id, ticket);
        set_attachment(
            &mut self.devices,
            id,
            Attachment::Quarantined { ticket, stage },
        );
        self.append_detach(memory, io, id, stage, number);
        Ok(Ticket(ticket))
    }

    /// Why the device may not be revived, if so: what [`Driver::revive`] answers. Whoever revives it asks this first,
    /// and has the device reset between the two.
    pub fn may_revive(&self, id: DeviceId) -> Result<(), Refusal>
        ensures admitted { IfOk result (λ done. NoneApplies (why_not_revive (state_of self.now) id)) }
        ensures refused { IfErr result (λ why. first_that_applies (why_not_revive (state_of self.now) id) ≡ Some why) }
    {
        self.admit_revive(id)?;
        Ok(())
    }

    /// A device whose quarantine's ticket is confirmed is attached as it was before; it holds nothing. Its context is
    /// written: a device with a cache of its own has to be reset by then. `NotStarted`, `NoSuchDevice`, `NotAttached`
    /// (a leaving device too), `AlreadyAttached`, `StillGranted` while the ticket isn't confirmed: the first that
    /// applies, and then nothing changes. Takes no memory.
    pub fn revive(&mut self, memory: &mut Memory, id: DeviceId) -> Result<(), Refusal>
        requires stand { TablesStand (state_of self.old) memory.old }
        ensures effect { AnswersRevive (state_of self.old) memory.old id result (state_of self.new) memory.new }
        ensures stand { TablesStand (state_of self.new) memory.new }
        ensures ready { (r : Registers) → IsReady (state_of self.old) memory.old r → IsReady (state_of self.new) memory.new r }
    {
        let stage = match self.admit_revive(id) {
            Ok(stage) => stage,
            Err(why) => return Err(why),
        };
        let directory = directory_frame(self.frames);
        let context = context_for(memory, stage);
        put_context(memory, self.levels, directory, id, context, &[]);
        set_attachment(&mut self.devices, id, Attachment::Attached(stage));
        Ok(())
    }
}
