// A board at power-on.
ghost use Rattle.std.specs.Prelude.{◌≡◌, ◌↔◌, IfOk, IsErrOf};
ghost use Rattle.iom_iommu.specs.Parts.{IsAtPowerOn};
ghost use Rattle.iom_phys_mem.specs.Sizes.{IsMemorySize};
ghost use Rattle.iom_phys_mem.specs.declared.memory.MemError.TheVariants.{BadSize};
ghost use Rattle.iom_board.specs.BoardParts.{board_parts};
ghost use Rattle.iom_board.specs.PowerOn.{IsBoardAtPowerOn};
ghost use Rattle.iom_board.specs.Invariant.{BoardInvariant};

use crate::board::Board;
use iom_base::MAX_DEVICES;
use iom_fabric::Fabric;
use iom_iommu::Iommu;
use iom_phys_mem::{MemError, Memory};
use iom_tlb::Ioatc;
use std::alloc::{AllocError, Global};

/// The IOMMU at power-on, over a cache of translations that has nothing.
fn iommu_at_power_on(alloc: Global, frames: u32) -> Result<Iommu<Ioatc>, AllocError>
    ensures { IfOk result (IsAtPowerOn frames) }
{
    Iommu::new(alloc, frames, Ioatc::new(alloc)?)
}

/// A list of these numbers of disks.
fn numbers_of(alloc: Global, disks: &[u64]) -> Result<Vec<u64>, AllocError>
    ensures { IfOk result (λ numbers. numbers.items ≡ disks.now) }
{
    let mut numbers = Vec::new(alloc);
    numbers.extend_from_slice(disks)?;
    Ok(numbers)
}

impl Board {
    /// A board at power-on, with so many frames of memory and disks of these numbers: all bytes are zero, no device is
    /// plugged in, no message is under way, and no event was counted. `BadSize` exactly where the frames aren't 64 to 4,096;
    /// else `OutOfMemory` where an allocation is refused.
    pub fn new(alloc: Global, frames: u32, disks: &[u64]) -> Result<Board, MemError>
        ensures power_on { IfOk result (IsBoardAtPowerOn frames disks.now) }
        ensures invariants { IfOk result (λ board. BoardInvariant (board_parts board) board.events) }
        ensures size { IfOk result (λ board. IsMemorySize frames) }
        ensures bad_size { (IsErrOf result BadSize) ↔ ¬ IsMemorySize frames }
    {
        let memory = Memory::new(alloc, frames)?;
        let Ok(devices) = Vec::with_capacity(alloc, MAX_DEVICES) else {
            return Err(MemError::OutOfMemory);
        };
        let Ok(numbers) = numbers_of(alloc, disks) else {
            return Err(MemError::OutOfMemory);
        };
        let Ok(iommu) = iommu_at_power_on(alloc, frames) else {
            return Err(MemError::OutOfMemory);
        };
        Ok(Board {
            memory,
            iommu,
            devices,
            fabric: Fabric::new(),
            disks: numbers,
            events: 0,
        })
    }
}
