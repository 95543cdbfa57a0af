// What can be foreseen of a fetch and of a timeout, without doing either.
ghost use Rattle.std.specs.Prelude.{◌≡◌, false};
ghost use Rattle.iom_iommu.specs.Foreseen.{fence_waits_again, waits_again, fetch_has_effect, FetchLeavesAll};
ghost use Rattle.iom_iommu.specs.Parts.{fence_snapshot_of};
ghost use Rattle.iom_iommu.specs.Timeouts.{can_time_out};

use crate::iommu::Iommu;
use iom_command_queue::{Command, CommandRing, MAX_SLOTS, QueueEntry};
use iom_phys_mem::Memory;
use iom_tlb::TransCache;

impl<C: TransCache> Iommu<C> {
    /// Whether a fence waits as it did when it was fetched last.
    fn fence_waits_again(&self, pr: bool, pw: bool) -> bool
        ensures { result ≡ fence_waits_again pr pw self.now }
    {
        if !self.slots.is_empty() {
            return self.fence_waits;
        }
        !self.fence_waits
            && self.fence_snapshot.is_some()
            && self.waits_with(pr, pw, self.counted())
    }

    /// Whether the command, which stands at the head, waits as it did when it was fetched last.
    fn waits_again(&self, command: &Command) -> bool
        ensures { result ≡ waits_again command.now self.now }
    {
        match *command {
            Command::IofenceC { pr, pw, .. } => self.fence_waits_again(pr, pw),
            Command::AtsInval { .. } => !self.fence_waits && self.slots.len() == MAX_SLOTS,
            Command::IotinvalVma { .. }
            | Command::IotinvalGvma { .. }
            | Command::IodirInvalDdt { .. } => false,
        }
    }

    /// Whether a fetch would do something: commands are processed, one stands at the head, and it isn't one that would only
    /// wait as it did when it was fetched last. A command that would stop the processing does something. Where it
    /// answers false a fetch leaves memory and IOMMU as they are, but that where no command waits nothing is kept of a fence.
    pub fn fetch_has_effect(&self, memory: &Memory) -> bool
        ensures value { result ≡ fetch_has_effect memory.now self.now }
        ensures idle { result ≡ false → FetchLeavesAll memory.now self.now }
    {
        if !self.registers.is_processing_commands() {
            return false;
        }
        match CommandRing::next(memory, &self.registers) {
            None => false,
            Some(QueueEntry::Outside | QueueEntry::Illegal(_)) => true,
            Some(QueueEntry::Command(command)) => !self.waits_again(&command),
        }
    }

    /// How many accesses were accepted when the fence at the head of the command queue was first fetched with no request open: it waits
    /// for those among them that aren't made, and for no later ones. None where it wasn't fetched so, or no fence stands there.
    pub fn fence_snapshot(&self) -> Option<u64>
        ensures { result ≡ fence_snapshot_of self.now }
    {
        self.fence_snapshot
    }

    /// Whether a timeout would have its effect: the fence at the head was fetched and told to wait for invalidation requests,
    /// and one of these is open.
    pub fn can_time_out(&self) -> bool
        ensures { result ≡ can_time_out self.now }
    {
        self.fence_waits && !self.slots.is_empty()
    }
}
