// Whether two worlds are equal.
ghost use Rattle.std.specs.Prelude.{◌↔◌, IsTrue};
ghost use Rattle.iom_world.specs.Same.{HasNoBlocks, IsSameWorld};

use crate::world::World;
use iom_virtio_blk::Disk;

impl<D: Disk> World<D> {
    // Whether neither a block device is plugged in nor a disk is at hand.
    fn has_no_blocks(&self) -> bool
        ensures { IsTrue result ↔ HasNoBlocks self.now }
    {
        if !self.hardware.blocks.is_empty() {
            return false;
        }
        self.hardware.at_hand.is_empty()
    }

    /// Whether the two have the same hardware and the same driver, and neither has a block device or a disk at hand. Block
    /// devices aren't compared: where one of the two has any, this is false. How many events there were is no matter, nor
    /// how much room their lists have.
    pub fn is_same(&self, other: &World<D>) -> bool
        ensures { IsTrue result ↔ IsSameWorld self.now other.now }
    {
        if !self.has_no_blocks() || !other.has_no_blocks() {
            return false;
        }
        if !self.driver.is_same(&other.driver) {
            return false;
        }
        self.hardware.board.is_same(&other.hardware.board)
    }
}
