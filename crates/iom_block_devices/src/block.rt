use iom_base::DeviceId;
use iom_virtio_blk::{Blk, Disk};

/// A block device that is plugged in.
#[derive(Drop)]
pub struct Block<D: Disk> {
    pub id: DeviceId,
    pub blk: Blk<D>,
}

/// A disk that was never in a device, by its number.
#[derive(Drop)]
pub struct DiskAtHand<D: Disk> {
    pub number: u64,
    pub disk: D,
}
