//! Laws of the queue as a list, for the layers above.
ghost use Rattle.std.specs.Prelude.{◌≡◌, ◌+◌, ◌==◌, length};
ghost use Rattle.iom_registers.specs.Queues.{fault_entries};
ghost use Rattle.iom_fault_queue.specs.Ring.{records_in, is_full};
ghost use Rattle.iom_fault_queue.specs.Laws.{LeavesQueue, ComeOutInOrder};

use iom_phys_mem::Memory;
use iom_registers::Registers;

/// Whatever changes neither a frame of the ring, nor where the ring is, nor head and tail, leaves the list.
pub fn unchanged(memory: &Memory, registers: &Registers, new: &Memory, later: &Registers)
    requires { LeavesQueue memory.now registers.now new.now later.now }
    ensures { records_in new.now later.now ≡ records_in memory.now registers.now }
{}

/// A queue is full exactly where it has one entry less than places.
pub fn full(memory: &Memory, registers: &Registers)
    ensures { is_full registers.now ≡ (length (records_in memory.now registers.now) + 1 == fault_entries registers.now) }
{}

/// Over any list of puts, takes and changes beside the queue: what comes out is what was in the queue and
/// then what was written, in that order.
pub fn in_order()
    ensures { ComeOutInOrder }
{}
