// The commands are taken one by one (IOMMU specification, section 3.1, "Command-Queue (CQ)").
ghost use Rattle.std.specs.Prelude.{◌≡◌, ◌≢◌, ◌+◌, ◌<◌, ◌^◌, length};
ghost use Rattle.iom_registers.specs.Queues.{command_head, command_tail};
ghost use Rattle.iom_iommu.specs.Parts.{registers_of, slots_of, frames_of};
ghost use Rattle.iom_iommu.specs.Fetches.{IsAtCommand, LooksAhead, FetchesCommand, ExecutesCommand};

use crate::fetched::Fetched;
use crate::front::Front;
use crate::iommu::Iommu;
use iom_command_queue::{Command, CommandRing, QueueEntry};
use iom_phys_mem::Memory;
use iom_tlb::TransCache;

impl<C: TransCache> Iommu<C> {
    /// Takes the command at the head from memory and does it.
    ///
    /// The head stays, and memory with it, unless the answer is `Did`. A fence waits while an invalidation request is
    /// open; then, with PR or PW, for the accesses that were accepted before its first fetch that found none open, and
    /// for no later ones. An ATS.INVAL waits while 32 requests are open, and opens one for its device: where the answer
    /// is that it did, its number is that of the last request. A fetch that
    /// finds an illegal command sets `cmd_ill`. One that can't load the command, or not store a fence's word, sets
    /// `cqmf`. These two answer `Stopped`, and so does each fetch until software clears the bit.
    pub fn fetch(&mut self, memory: &mut Memory) -> Fetched
        requires memory { length memory.old ≡ frames_of self.old }
        requires serials { (slots_of self.old).last + 1 < 2 ^ 64 }
        ensures { FetchesCommand memory.old self.old result memory.new self.new }
    {
        match self.look() {
            Front::Stopped => Fetched::Stopped,
            Front::Empty => Fetched::Empty,
            Front::Command => self.fetch_next(memory),
        }
    }

    /// The first part of a fetch: what stands at the front of the queue, which the registers alone say. Where commands
    /// aren't processed, or none waits, it is all that a fetch does: in an empty queue nothing is kept of a fence. Before
    /// a command it changes nothing, and [`fetch_next`](Self::fetch_next) goes on.
    #[inline(always)]
    pub fn look(&mut self) -> Front
        ensures { LooksAhead self.old result self.new }
    {
        if !self.registers.is_processing_commands() {
            return Front::Stopped;
        }
        if self.registers.command_head() == self.registers.command_tail() {
            self.forget_fence();
            return Front::Empty;
        }
        Front::Command
    }

    /// The rest of a fetch, where commands are processed and one waits: takes it from memory and does it, as
    /// [`fetch`](Self::fetch) says.
    #[inline(always)]
    pub fn fetch_next(&mut self, memory: &mut Memory) -> Fetched
        requires memory { length memory.old ≡ frames_of self.old }
        requires serials { (slots_of self.old).last + 1 < 2 ^ 64 }
        requires waits { IsAtCommand self.old }
        ensures { FetchesCommand memory.old self.old result memory.new self.new }
    {
        match CommandRing::first(memory, &self.registers) {
            QueueEntry::Outside => {
                self.forget_fence();
                self.registers.set_cqmf();
                Fetched::Stopped
            }
            QueueEntry::Illegal(_) => {
                self.forget_fence();
                self.registers.set_cmd_ill();
                Fetched::Stopped
            }
            QueueEntry::Command(command) => self.take(memory, &command),
        }
    }

    /// Does the command that stands at the head, unless it has to wait.
    fn take(&mut self, memory: &mut Memory, command: &Command) -> Fetched
        requires stands { command_head (registers_of self.old) ≢ command_tail (registers_of self.old) }
        requires serials { (slots_of self.old).last + 1 < 2 ^ 64 }
        ensures { ExecutesCommand command.now memory.old self.old result memory.new self.new }
    {
        match *command {
            Command::IotinvalVma { .. } | Command::IotinvalGvma { .. } => {
                self.invalidate_translations(command);
            }
            Command::IofenceC { store, wsi, pr, pw } => {
                return self.fence(memory, &store, wsi, pr, pw);
            }
            Command::IodirInvalDdt { device } => self.invalidate_contexts(device),
            Command::AtsInval { device, .. } => {
                if !self.open_request(device) {
                    return Fetched::Waiting;
                }
            }
        }
        Fetched::Did(*command)
    }
}
