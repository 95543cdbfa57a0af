// Hardware at power-on.
ghost use Rattle.std.specs.Prelude.{◌↔◌, IfOk, IsErrOf, IsTrue};
ghost use Rattle.iom_block_devices.specs.Shown.{states_of};
ghost use Rattle.iom_phys_mem.specs.Sizes.{IsMemorySize};
ghost use Rattle.iom_phys_mem.specs.declared.memory.MemError.TheVariants.{BadSize};
ghost use Rattle.iom_hardware.specs.Inside.{inside};
ghost use Rattle.iom_hardware.specs.PowerOn.{IsHardwareAtPowerOn};
ghost use Rattle.iom_hardware.specs.Invariant.{HardwareInvariant};

use crate::hardware::Hardware;
use iom_base::MAX_DEVICES;
use iom_block_devices::{number_disks, numbers_of};
use iom_board::Board;
use iom_phys_mem::{MAX_FRAMES, MIN_FRAMES, MemError};
use iom_virtio_blk::Disk;
use std::alloc::Global;

/// Whether a memory may have so many frames.
fn is_size(frames: u32) -> bool
    ensures { IsTrue result ↔ IsMemorySize frames }
{
    (MIN_FRAMES..=MAX_FRAMES).contains(&frames)
}

impl<D: Disk> Hardware<D> {
    /// Hardware at power-on, with so many frames of memory: all bytes are zero, no device is plugged in, no message is under
    /// way, no event was counted, and each disk is at hand, with its place among these as its number, from 0. `BadSize`
    /// exactly where the frames aren't 64 to 4,096; else `OutOfMemory` where an allocation is refused.
    pub fn new(alloc: Global, frames: u32, disks: Vec<D>) -> Result<Hardware<D>, MemError>
        ensures power_on { IfOk result (λ hardware. IsHardwareAtPowerOn frames (states_of D.shown disks.items) hardware.board (inside D.shown hardware)) }
        ensures invariants { IfOk result (λ hardware. HardwareInvariant hardware) }
        ensures size { IfOk result (λ hardware. IsMemorySize frames) }
        ensures bad_size { (IsErrOf result BadSize) ↔ ¬ IsMemorySize frames }
    {
        // First of all: a size that there isn't is told as that, whatever memory there is for the lists.
        if !is_size(frames) {
            return Err(MemError::BadSize);
        }
        let Ok(at_hand) = number_disks(alloc, disks) else {
            return Err(MemError::OutOfMemory);
        };
        let Ok(numbers) = numbers_of(alloc, &at_hand) else {
            return Err(MemError::OutOfMemory);
        };
        let Ok(blocks) = Vec::with_capacity(alloc, MAX_DEVICES) else {
            return Err(MemError::OutOfMemory);
        };
        let board = Board::new(alloc, frames, &numbers)?;
        Ok(Hardware {
            board,
            blocks,
            at_hand,
        })
    }
}
