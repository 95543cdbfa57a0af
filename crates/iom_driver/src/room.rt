// The room that the ring of commands has (IOMMU specification, section 3.1, "Command-Queue (CQ)").
ghost use Rattle.std.specs.Prelude.{◌≡◌, ◌≤◌, ◌+◌, nat_le};
ghost use Rattle.iom_command_queue.specs.Waiting.{how_many};
ghost use Rattle.iom_registers.specs.Queues.{command_entries};
ghost use Rattle.iom_driver.specs.Layout.{queue_entries};
ghost use Rattle.iom_driver.specs.Reasons.{lacks_places};

use crate::access::read;
use crate::layout::QUEUE_ENTRIES;
use iom_registers::{Mmio, Register};

/// How many commands wait.
#[inline]
fn how_many<M: Mmio>(io: &M) -> u64
    requires { command_entries (M.registers io.now) ≡ queue_entries }
    ensures { result ≡ how_many (M.registers io.now) }
{
    let head = read(io, Register::Cqh);
    let tail = read(io, Register::Cqt);
    if head <= tail {
        tail - head
    } else {
        tail + QUEUE_ENTRIES - head
    }
}

/// Whether the ring has no room for so many commands more.
pub(crate) fn lacks_places<M: Mmio>(io: &M, places: u64) -> bool
    requires entries { command_entries (M.registers io.now) ≡ queue_entries }
    requires few { places ≤ 256 }
    ensures { result ≡ lacks_places places (M.registers io.now) }
{
    how_many(io) + places >= QUEUE_ENTRIES
}
