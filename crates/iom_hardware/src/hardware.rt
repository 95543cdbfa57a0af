use iom_block_devices::{Block, DiskAtHand};
use iom_board::Board;
use iom_virtio_blk::Disk;

/// The board, and the block devices themselves. Software is lent memory and registers: so its parts are public, and what
/// stays true of them is asked of each call, and given back.
#[derive(Drop)]
pub struct Hardware<D: Disk> {
    /// Memory, the IOMMU, the devices with their caches, the messages under way, and how many events there were.
    pub board: Board,
    /// The block devices themselves, in the order of plugging.
    pub blocks: Vec<Block<D>>,
    /// The disks that were never in a device.
    pub at_hand: Vec<DiskAtHand<D>>,
}
