// What a block device wants next, to be looked at.
ghost use Rattle.std.specs.Prelude.{◌≡◌, IfOk};
ghost use Rattle.iom_block_devices.specs.Changes.{block_with};
ghost use Rattle.iom_block_devices.specs.Wanted.{wanted_of};
ghost use Rattle.iom_hardware.specs.Inside.{inside};

use crate::hardware::Hardware;
use iom_base::{Access, DeviceId};
use iom_block_devices::wanted;
use iom_virtio_blk::Disk;
use std::alloc::{AllocError, Global};

impl<D: Disk> Hardware<D> {
    /// The access that the block device wants, or waits for where it began that. None where it wants none, or no block
    /// device has the id.
    pub fn wanted(&self, alloc: Global, id: DeviceId) -> Result<Option<Access>, AllocError>
        ensures { IfOk result (λ access. access ≡ wanted_of (block_with (inside D.shown self.now).blocks id)) }
    {
        wanted(alloc, &self.blocks, id)
    }
}
