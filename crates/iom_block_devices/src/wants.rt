// The access that a block device wants, with its bytes.
ghost use Rattle.std.specs.Prelude.{◌≡◌, IfOk};
ghost use Rattle.iom_base.specs.Accesses.{write_of};
ghost use Rattle.iom_virtio_blk.specs.Blocks.{wanted_by};
ghost use Rattle.iom_block_devices.specs.Changes.{block_with};
ghost use Rattle.iom_block_devices.specs.Wanted.{wanted_of, wanted_access, wanted_at};
ghost use Rattle.iom_block_devices.specs.Shown.{shown_blocks};

use crate::block::Block;
use crate::blocks::place_of;
use iom_base::{Access, AccessKind, DeviceId, Sequence};
use iom_virtio_blk::{Blk, Disk, WantedAccess};
use iom_virtqueue::Want;
use std::alloc::{AllocError, Global};

/// The status of a block device that works: ACKNOWLEDGE 1, DRIVER 2, DRIVER_OK 4 and FEATURES_OK 8, and no
/// DEVICE_NEEDS_RESET.
const WORKS: u8 = 15;

/// A write of the bytes.
fn write_of(alloc: Global, address: u64, bytes: &[u8]) -> Result<Access, AllocError>
    ensures { IfOk result (λ access. access ≡ write_of address bytes.now) }
{
    let mut written = Vec::new(alloc);
    written.extend_from_slice(bytes)?;
    Ok(Access {
        address,
        len: bytes.len() as u64,
        kind: AccessKind::Write,
        bytes: Sequence::from_vec(written),
    })
}

/// The access that this block device wants.
fn wanted_by<D: Disk>(alloc: Global, blk: &Blk<D>) -> Result<Option<Access>, AllocError>
    ensures { IfOk result (λ access. access ≡ wanted_access (wanted_by blk.now.front)) }
{
    match blk.wants() {
        WantedAccess::Small(Want::Nothing) => Ok(None),
        WantedAccess::Small(Want::Read { address, len }) => Ok(Some(Access {
            address,
            len: u64::from(len),
            kind: AccessKind::Read,
            bytes: Sequence::new(alloc),
        })),
        WantedAccess::Small(Want::Write { address, bytes }) => {
            Ok(Some(write_of(alloc, address, bytes.as_slice())?))
        }
        WantedAccess::OfSector { address, from, len } => {
            Ok(Some(write_of(alloc, address, blk.sector_part(from, len))?))
        }
    }
}

/// The access that this block device wants, where it works.
fn wanted_where_ready<D: Disk>(alloc: Global, blk: &Blk<D>) -> Result<Option<Access>, AllocError>
    ensures { IfOk result (λ access. access ≡ wanted_at blk.now.front.stage blk.now.front) }
{
    if blk.status() != WORKS {
        return Ok(None);
    }
    wanted_by(alloc, blk)
}

/// The access that the block device with this id wants, or waits for where it began that. None where it wants none, as
/// before its driver is ready, or there is none with the id.
pub fn wanted<D: Disk>(
    alloc: Global,
    blocks: &[Block<D>],
    id: DeviceId,
) -> Result<Option<Access>, AllocError>
    ensures { IfOk result (λ access. access ≡ wanted_of (block_with (shown_blocks D.shown blocks.now) id)) }
{
    match place_of(blocks, id) {
        Some(place) => wanted_where_ready(alloc, &blocks[place].blk),
        None => Ok(None),
    }
}
