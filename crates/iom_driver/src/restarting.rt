// The command queue is emptied, and all that is still needed is queued anew.
ghost use Rattle.std.specs.Prelude.{◌≡◌, ◌≢◌, ◌+◌, ◌*◌, ◌<◌, ◌≤◌, ◌^◌, ℕ, [], Some, IfSome, All, length, slice_get};
ghost use Rattle.iom_command_queue.specs.Waiting.{how_many, commands_in};
ghost use Rattle.iom_driver.specs.declared.device.Device.{Device as DeviceValue};
ghost use Rattle.iom_driver.specs.Appends.{AppendsAll};
ghost use Rattle.iom_driver.specs.Devices.{owned_stages};
ghost use Rattle.iom_driver.specs.Directory.{KeepsDirectory};
ghost use Rattle.iom_driver.specs.Layout.{command_frame};
ghost use Rattle.iom_driver.specs.Ready.{IsRing, KeepsFaults, IsReady};
ghost use Rattle.iom_driver.specs.Restarts.{turned_off_and_on, all_requeued, IsNamable, AnswersRestart};
ghost use Rattle.iom_driver.specs.StateOf.{state_of};

use crate::access::write;
use crate::appending::{append_device, append_fence};
use crate::device::Device;
use crate::driver::Driver;
use iom_base::Refusal;
use iom_phys_mem::Memory;
use iom_registers::{Mmio, Register};

/// What `cqcsr` is told: the queue is off, or on without interrupts.
const OFF: u64 = 0;

const ON: u64 = 1;

/// Turns the command queue off and on again, with both indices 0: no command waits any more, no invalidation
/// request is open, and nothing is wrong (IOMMU specification, chapter 5, `cqcsr`).
fn turn_off_and_on<M: Mmio>(memory: &Memory, io: &mut M)
    requires { IsRing (length memory.now) (M.registers io.old) }
    ensures registers { io.new ≡ turned_off_and_on M.Mmio io.old }
    ensures ring { IsRing (length memory.now) (M.registers io.new) }
    ensures empty { commands_in memory.now (M.registers io.new) ≡ [] }
    ensures count { how_many (M.registers io.new) ≡ 0 }
    ensures named { KeepsDirectory (M.registers io.old) (M.registers io.new) }
    ensures faults { KeepsFaults (M.registers io.old) (M.registers io.new) }
{
    write(io, Register::Cqcsr, OFF);
    write(io, Register::Cqt, 0);
    write(io, Register::Cqcsr, ON);
}

/// Appends the commands of a restart for each of the devices, in their order.
fn append_devices<M: Mmio>(memory: &mut Memory, io: &mut M, devices: &[Device])
    requires many { 64 ≤ length memory.old }
    requires ring { IsRing (length memory.old) (M.registers io.old) }
    requires empty { how_many (M.registers io.old) ≡ 0 }
    requires few { length devices.now ≤ 16 }
    requires namable { All IsNamable devices.now }
    ensures appended { AppendsAll M.Mmio memory.old io.old (all_requeued devices.now) memory.new io.new }
    ensures count { how_many (M.registers io.new) ≤ 48 }
    ensures ring { IsRing (length memory.old) (M.registers io.new) }
    ensures named { KeepsDirectory (M.registers io.old) (M.registers io.new) }
    ensures faults { KeepsFaults (M.registers io.old) (M.registers io.new) }
    ensures other_frames { (n : ℕ) → n ≢ command_frame (length memory.old) → slice_get memory.new n ≡ slice_get memory.old n }
    ensures size { length memory.new ≡ length memory.old }
{
    for k in 0..devices.len() {
        append_device(memory, io, devices[k]);
    }
}

impl Driver {
    /// The command queue is turned off and on, which empties it, and gives up each invalidation request that isn't
    /// completed and what timed out. Then commands are queued, for each attached, quarantined or leaving device in
    /// the order of plugging: invalidations of its context and of its address space, and where it is attached with
    /// ATS one that asks it to drop all its own copies; and one fence, for which each ticket waits from then on that
    /// isn't confirmed. These are at most 49. `NotStarted`, `NumbersUsedUp` after the last fence's number: the first
    /// that applies, and then nothing changes. Takes no memory.
    pub fn restart<M: Mmio>(&mut self, memory: &mut Memory, io: &mut M) -> Result<(), Refusal>
        requires ready { IsReady (state_of self.old) memory.old (M.registers io.old) }
        ensures effect { AnswersRestart M.Mmio (state_of self.old) memory.old io.old result (state_of self.new) memory.new io.new }
        ensures ready { IsReady (state_of self.new) memory.new (M.registers io.new) }
    {
        if !self.started {
            return Err(Refusal::NotStarted);
        }
        if self.last_fence() == u32::MAX {
            return Err(Refusal::NumbersUsedUp);
        }
        let number = self.last_fence() + 1;
        self.restarts += 1;
        self.restarted = self.given;
        turn_off_and_on(memory, io);
        append_devices(memory, io, &self.devices);
        append_fence(memory, io, self.frames, number);
        Ok(())
    }
}
