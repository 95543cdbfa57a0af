//! The disks of the programs, by whose names their scripts plug block devices in.
//!
//! `iommu-run` and `iommu-hw` have the same four. The layer above may rely on [`program_disks`] making exactly these, with
//! what `specs/Disks.antt` says of each.
#![tactic(auto)]

ghost use Rattle.std.specs.Prelude.{◌≡◌, IfOk};
ghost use Rattle.iom_block_devices.specs.Shown.{states_of};
ghost use Rattle.iom_program_disks.specs.Disks.{program_disks};
ghost use Rattle.iom_virtio_blk.specs.MemoryDisks.{disk_state};

use iom_virtio_blk::MemoryDisk;
use std::alloc::{AllocError, Global};

/// The disks of the programs, whose names are their places: 0 and 1 have 64 sectors, 2 has 2, and 3 has 64 and fails at
/// its second call.
pub fn program_disks(alloc: Global) -> Result<Vec<MemoryDisk>, AllocError>
    ensures { IfOk result (λ disks. states_of disk_state disks.items ≡ program_disks) }
{
    let mut disks = Vec::with_capacity(alloc, 4)?;
    disks.push(MemoryDisk::new(alloc, 0, 64, None)?)?;
    disks.push(MemoryDisk::new(alloc, 1, 64, None)?)?;
    disks.push(MemoryDisk::new(alloc, 2, 2, None)?)?;
    disks.push(MemoryDisk::new(alloc, 3, 64, Some(2))?)?;
    Ok(disks)
}
