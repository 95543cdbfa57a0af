// A world at power-on.
ghost use Rattle.std.specs.Prelude.{◌≡◌, ◌↔◌, ◌≤◌, None, IfOk, IsErrOf, IsTrue};
ghost use Rattle.iom_block_devices.specs.Shown.{states_of};
ghost use Rattle.iom_driver.specs.Layout.{IsLevels};
ghost use Rattle.iom_phys_mem.specs.Sizes.{IsMemorySize};
ghost use Rattle.iom_phys_mem.specs.declared.memory.MemError.TheVariants.{BadSize};
ghost use Rattle.iom_world.specs.PowerOn.{BeginsAt, BeginsFrom};
ghost use Rattle.iom_world.specs.Shown.{shown_of};

use crate::world::World;
use iom_driver::Driver;
use iom_hardware::Hardware;
use iom_machine::FaultRecord;
use iom_phys_mem::{MAX_FRAMES, MIN_FRAMES, MemError};
use iom_virtio_blk::Disk;
use std::alloc::Global;

/// The most levels of a device directory (IOMMU specification, section 2.1, "Device-Directory-Table (DDT)").
const MAX_LEVELS: u8 = 3;

/// Whether a memory may have so many frames, and the device directory so many levels.
fn is_size(frames: u32, levels: u8) -> bool
    ensures { IsTrue result ↔ IsMemorySize frames × IsLevels levels }
{
    (MIN_FRAMES..=MAX_FRAMES).contains(&frames) && (1..=MAX_LEVELS).contains(&levels)
}

impl<D: Disk> World<D> {
    /// The world at power-on, with so many frames of memory and levels of the device directory, and with these disks: all
    /// bytes are zero, the last four frames are the system's, no device is plugged in, nothing is granted, the driver is
    /// started, no command waits, no message is under way, no event was counted, and each disk is at hand, with its place
    /// among these as its number, from 0. `BadSize` exactly where the frames aren't 64 to 4,096 or the levels aren't 1 to 3
    /// (IOMMU specification, section 2.1, "Device-Directory-Table (DDT)"); else `OutOfMemory` where an allocation is refused.
    pub fn new(alloc: Global, frames: u32, levels: u8, disks: Vec<D>) -> Result<World<D>, MemError>
        ensures begins { IfOk result (λ world. BeginsAt frames levels (states_of D.shown disks.items) (shown_of D.shown world)) }
        ensures made { IfOk result (λ world. world.made ≡ None) }
        ensures size { IfOk result (λ world. IsMemorySize frames × IsLevels levels) }
        ensures bad_size { (IsErrOf result BadSize) ↔ ¬ (IsMemorySize frames × IsLevels levels) }
    {
        World::new_from(alloc, 1, frames, levels, disks)
    }

    /// The same with all numbers of fences below the first used up: the first fence gets that number, and none
    /// comes after 4,294,967,295.
    pub fn new_from(
        alloc: Global,
        first_fence: u32,
        frames: u32,
        levels: u8,
        disks: Vec<D>,
    ) -> Result<World<D>, MemError>
        requires first { 1 ≤ first_fence }
        ensures begins { IfOk result (λ world. BeginsFrom first_fence frames levels (states_of D.shown disks.items) (shown_of D.shown world)) }
        ensures made { IfOk result (λ world. world.made ≡ None) }
        ensures size { IfOk result (λ world. IsMemorySize frames × IsLevels levels) }
        ensures bad_size { (IsErrOf result BadSize) ↔ ¬ (IsMemorySize frames × IsLevels levels) }
    {
        // First of all: a size that there isn't is told as that, whatever memory there is for the lists.
        if !is_size(frames, levels) {
            return Err(MemError::BadSize);
        }
        let mut driver = Driver::new(alloc, frames, levels)?;
        let mut hardware = Hardware::new(alloc, frames, disks)?;
        driver.start_from(
            first_fence,
            &mut hardware.board.memory,
            &mut hardware.board.iommu,
        );
        Ok(World {
            hardware,
            driver,
            record: FaultRecord { words: [0; 4] },
            made: None,
        })
    }
}
