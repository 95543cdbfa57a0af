// The IOMMU is told where its structures are, and its queues are turned on.
ghost use Rattle.std.specs.Prelude.{◌≡◌, ◌<◌, ◌≤◌, length, false, Some, slice_get, slice_set};
ghost use Rattle.iom_phys_mem.specs.Words.{zeroed};
ghost use Rattle.iom_registers.specs.declared.register.Register.TheVariants.{Ddtp};
ghost use Rattle.iom_driver.specs.Calls.{Starts, StartsFrom, IsOff};
ghost use Rattle.iom_driver.specs.Layout.{directory_frame, ddtp_of};
ghost use Rattle.iom_driver.specs.Ready.{IsReady};
ghost use Rattle.iom_driver.specs.StateOf.{state_of};

use crate::access::write;
use crate::driver::Driver;
use crate::layout::{completion_address, cqb_of, ddtp_of, directory_frame, fqb_of};
use iom_base::FRAME_SIZE;
use iom_phys_mem::{Bytes, Memory};
use iom_registers::{Mmio, Register};

/// What `cqcsr` and `fqcsr` are told: the queue is on, without interrupts.
const ON: u64 = 1;

/// Makes the bytes of the frame zero.
fn clear(memory: &mut Memory, frame: u32)
    requires { frame < length memory.old }
    ensures { memory.new ≡ slice_set memory.old frame zeroed }
{
    if let Some(bytes) = memory.frame_mut(frame) {
        *bytes = [0; FRAME_SIZE];
    }
}

/// Tells the IOMMU where the device directory is. It may look up any id from then on: whoever tells it is lent the
/// memory, in which the directory's root is zero already.
fn name_directory<M: Mmio>(memory: &Memory, io: &mut M, frames: u32, levels: u8)
    requires many { 64 ≤ frames }
    requires zero { slice_get memory.now (directory_frame frames) ≡ Some zeroed }
    ensures { io.new ≡ M.after io.old Ddtp (ddtp_of frames levels) }
{
    write(io, Register::Ddtp, ddtp_of(frames, levels));
}

impl Driver {
    /// Starts a driver that isn't started, on a memory of its size, where both queues are off and the indices
    /// that software writes are 0, as at power-on. The completion word and the root of the device directory
    /// are zero; then `ddtp`, `cqb`, `cqcsr`, `fqb` and `fqcsr` are written, in this order.
    pub fn start<M: Mmio>(&mut self, memory: &mut Memory, io: &mut M)
        requires idle { (state_of self.old).started ≡ false }
        requires size { length memory.old ≡ length (state_of self.old).owners }
        requires off { IsOff (M.registers io.old) }
        ensures effect { Starts M.Mmio (state_of self.old) memory.old io.old (state_of self.new) memory.new io.new }
        ensures ready { IsReady (state_of self.new) memory.new (M.registers io.new) }
    {
        memory.store_u32(completion_address(self.frames), 0);
        clear(memory, directory_frame(self.frames));
        name_directory(memory, io, self.frames, self.levels);
        write(io, Register::Cqb, cqb_of(self.frames));
        write(io, Register::Cqcsr, ON);
        write(io, Register::Fqb, fqb_of(self.frames));
        write(io, Register::Fqcsr, ON);
        self.started = true;
    }

    /// The same for a driver that has given no ticket, with all fence numbers below the first used up: its first
    /// fence has that number. From 1 it is what `start` does to a new driver.
    pub fn start_from<M: Mmio>(&mut self, first_fence: u32, memory: &mut Memory, io: &mut M)
        requires first { 1 ≤ first_fence }
        requires idle { (state_of self.old).started ≡ false }
        requires unnumbered { (state_of self.old).given ≡ 0 }
        requires size { length memory.old ≡ length (state_of self.old).owners }
        requires off { IsOff (M.registers io.old) }
        ensures effect { StartsFrom M.Mmio first_fence (state_of self.old) memory.old io.old (state_of self.new) memory.new io.new }
        ensures ready { IsReady (state_of self.new) memory.new (M.registers io.new) }
    {
        self.restarts = first_fence - 1;
        self.start(memory, io);
    }
}
