// A driver with nothing in it.
ghost use Rattle.std.specs.Prelude.{◌≡◌, ◌↔◌, IfOk, IsErrOf, ℕ, List, length};
ghost use Rattle.iom_phys_mem.specs.Sizes.{IsMemorySize};
ghost use Rattle.iom_phys_mem.specs.declared.memory.MemError.TheVariants.{BadSize};
ghost use Rattle.iom_registers.specs.declared.registers.Registers.{Registers};
ghost use Rattle.iom_driver.specs.Calls.{IsOpening};
ghost use Rattle.iom_driver.specs.Layout.{IsLevels};
ghost use Rattle.iom_driver.specs.Ready.{IsReady};
ghost use Rattle.iom_driver.specs.StateOf.{state_of};

use crate::driver::Driver;
use crate::layout::MAX_DEVICES;
use iom_ledger::Ledger;
use iom_phys_mem::{MAX_FRAMES, MIN_FRAMES, MemError};
use iom_table_frames::TableFrames;
use std::alloc::{AllocError, Global};

/// The most levels of a device directory.
const MAX_LEVELS: u8 = 3;

/// A driver with nothing in it.
fn opening(alloc: Global, frames: u32, levels: u8) -> Result<Driver, AllocError>
    requires size { IsMemorySize frames }
    requires levels { IsLevels levels }
    ensures opening { IfOk result (λ driver. IsOpening frames levels (state_of driver)) }
    ensures ready { IfOk result (λ driver. (memory : List (List ℕ)) (r : Registers)
        → length memory ≡ frames → IsReady (state_of driver) memory r) }
{
    // The ledger comes last, so that none is ever dropped here.
    let devices = Vec::with_capacity(alloc, MAX_DEVICES)?;
    let owners = TableFrames::new(alloc, frames)?;
    let ledger = Ledger::new(alloc, frames)?;
    Ok(Driver {
        ledger,
        owners,
        devices,
        frames,
        levels,
        started: false,
        given: 0,
        confirmed: 0,
        restarts: 0,
        restarted: 0,
    })
}

impl Driver {
    /// A driver for so many frames of memory and levels of the device directory. Nothing is granted, no
    /// device is plugged in, the last four frames are the system's, and it isn't started. Makes the room of
    /// the owners of frames, the tickets and the devices. `BadSize` exactly where the frames aren't 64 to 4,096 or the
    /// levels aren't 1 to 3; else `OutOfMemory` where an allocation is refused.
    pub fn new(alloc: Global, frames: u32, levels: u8) -> Result<Driver, MemError>
        ensures opening { IfOk result (λ driver. IsOpening frames levels (state_of driver)) }
        ensures ready { IfOk result (λ driver. (memory : List (List ℕ)) (r : Registers)
            → length memory ≡ frames → IsReady (state_of driver) memory r) }
        ensures bad_size { (IsErrOf result BadSize) ↔ ¬ (IsMemorySize frames × IsLevels levels) }
    {
        if levels < 1 || levels > MAX_LEVELS || frames < MIN_FRAMES || frames > MAX_FRAMES {
            return Err(MemError::BadSize);
        }
        match opening(alloc, frames, levels) {
            Ok(driver) => Ok(driver),
            Err(_) => Err(MemError::OutOfMemory),
        }
    }
}
