// A block device's queue is set, and a device is reset (virtio 1.2, sections 2.4 and 3.1.1).
ghost use Rattle.std.specs.Prelude.{◌≡◌, ◌+◌, ◌<◌, ◌^◌};
ghost use Rattle.iom_board.specs.BoardParts.{board_parts};
ghost use Rattle.iom_board.specs.Commits.{ResetsAnyDevice};
ghost use Rattle.iom_board.specs.Counted.{IsCounted};
ghost use Rattle.iom_virtqueue.specs.Layouts.{layout_of};
ghost use Rattle.iom_hardware.specs.Blocks.{ResetsInside, SetsQueueInside};
ghost use Rattle.iom_hardware.specs.Inside.{inside};
ghost use Rattle.iom_hardware.specs.Queues.{SetsQueue};
ghost use Rattle.iom_hardware.specs.Invariant.{HardwareInvariant};

use crate::hardware::Hardware;
use iom_base::{DeviceId, Refusal};
use iom_block_devices::{reset, set_up};
use iom_virtio_blk::Disk;
use iom_virtqueue::Layout;

impl<D: Disk> Hardware<D> {
    /// A device is reset, as [`Board::reset`](iom_board::Board::reset) says; a block device gives up what it had in work, and
    /// has no queue.
    pub fn reset(&mut self, id: DeviceId) -> Result<(), Refusal>
        requires invariants { HardwareInvariant self.old }
        requires count { self.old.board.events + 1 < 2 ^ 64 }
        ensures effect { ResetsAnyDevice (board_parts self.old.board) id result (board_parts self.new.board) }
        ensures inside { ResetsInside (inside D.shown self.old) id result (inside D.shown self.new) }
        ensures invariants { HardwareInvariant self.new }
        ensures counted { IsCounted self.old.board self.new.board }
    {
        self.board.reset(id)?;
        reset(&mut self.blocks, id);
        Ok(())
    }

    /// The queue of the block device is set: the device is reset, takes what it offers, and works. What its own cache has is
    /// forgotten. `NoSuchDevice` where no device has the id, `WrongKind` where it is no block device, `BadQueue` where the
    /// queue can't lie so: then nothing changes.
    pub fn queue(
        &mut self,
        id: DeviceId,
        size: u64,
        descriptors: u64,
        available: u64,
        used: u64,
    ) -> Result<(), Refusal>
        requires invariants { HardwareInvariant self.old }
        requires count { self.old.board.events + 1 < 2 ^ 64 }
        ensures effect { SetsQueue (board_parts self.old.board) id (layout_of size descriptors available used) result (board_parts self.new.board) }
        ensures inside { SetsQueueInside (layout_of size descriptors available used) (inside D.shown self.old) id result (inside D.shown self.new) }
        ensures invariants { HardwareInvariant self.new }
        ensures counted { IsCounted self.old.board self.new.board }
    {
        if let Some(why) = self.why_no_block(id) {
            self.board.events += 1;
            return Err(why);
        }
        let Some(layout) = Layout::new(size, descriptors, available, used) else {
            self.board.events += 1;
            return Err(Refusal::BadQueue);
        };
        self.board.reset(id)?;
        set_up(&mut self.blocks, id, layout);
        Ok(())
    }
}
