// A block device's queue is set, and a device is reset, while requests are under way (virtio 1.2, sections 2.4 and 3.1.1).
ghost use Rattle.std.specs.Prelude.{◌≡◌, ◌+◌, ◌<◌, ◌^◌, OnErr, OnOk};
ghost use Rattle.iom_board.specs.BoardParts.{board_parts};
ghost use Rattle.iom_board.specs.Commits.{ResetsAnyDevice};
ghost use Rattle.iom_board.specs.Counted.{IsCounted};
ghost use Rattle.iom_hardware.specs.Blocks.{ResetsInside, SetsQueueInside};
ghost use Rattle.iom_hardware.specs.Inside.{inside};
ghost use Rattle.iom_hardware.specs.Invariant.{HardwareInvariant};
ghost use Rattle.iom_hardware.specs.Queues.{SetsQueue};
ghost use Rattle.iom_virtqueue.specs.Layouts.{layout_of};
ghost use Rattle.iom_walks.specs.Calls.{given_up};
ghost use Rattle.iom_walks.specs.Walks.{row_of};
ghost use Rattle.iom_stepped_hardware.specs.Beside.{AreBesideHardware};

use iom_base::{DeviceId, Refusal};
use iom_hardware::Hardware;
use iom_virtio_blk::Disk;
use iom_walks::Walks;

/// A device is reset, as [`Hardware::reset`] says, and its request that is under way is given up. Nothing changes where it is
/// refused.
pub fn reset<D: Disk>(
    hardware: &mut Hardware<D>,
    walks: &mut Walks,
    id: DeviceId,
) -> Result<(), Refusal>
    requires invariants { HardwareInvariant hardware.old }
    requires beside { AreBesideHardware (board_parts hardware.old.board) (inside D.shown hardware.old).blocks walks.old }
    requires count { hardware.old.board.events + 1 < 2 ^ 64 }
    ensures effect { ResetsAnyDevice (board_parts hardware.old.board) id result (board_parts hardware.new.board) }
    ensures inside { ResetsInside (inside D.shown hardware.old) id result (inside D.shown hardware.new) }
    ensures given_up { OnOk result (walks.new ≡ given_up walks.old (row_of walks.old id)) }
    ensures kept { OnErr result (walks.new ≡ walks.old) }
    ensures invariants { HardwareInvariant hardware.new }
    ensures beside { AreBesideHardware (board_parts hardware.new.board) (inside D.shown hardware.new).blocks walks.new }
    ensures counted { IsCounted hardware.old.board hardware.new.board }
{
    hardware.reset(id)?;
    walks.give_up(id);
    Ok(())
}

/// The queue of the block device is set, as [`Hardware::queue`] says, and its request that is under way is given up. Nothing
/// changes where it is refused.
pub fn queue<D: Disk>(
    hardware: &mut Hardware<D>,
    walks: &mut Walks,
    id: DeviceId,
    size: u64,
    descriptors: u64,
    available: u64,
    used: u64,
) -> Result<(), Refusal>
    requires invariants { HardwareInvariant hardware.old }
    requires beside { AreBesideHardware (board_parts hardware.old.board) (inside D.shown hardware.old).blocks walks.old }
    requires count { hardware.old.board.events + 1 < 2 ^ 64 }
    ensures effect { SetsQueue (board_parts hardware.old.board) id (layout_of size descriptors available used) result (board_parts hardware.new.board) }
    ensures inside { SetsQueueInside (layout_of size descriptors available used) (inside D.shown hardware.old) id result (inside D.shown hardware.new) }
    ensures given_up { OnOk result (walks.new ≡ given_up walks.old (row_of walks.old id)) }
    ensures kept { OnErr result (walks.new ≡ walks.old) }
    ensures invariants { HardwareInvariant hardware.new }
    ensures beside { AreBesideHardware (board_parts hardware.new.board) (inside D.shown hardware.new).blocks walks.new }
    ensures counted { IsCounted hardware.old.board hardware.new.board }
{
    hardware.queue(id, size, descriptors, available, used)?;
    walks.give_up(id);
    Ok(())
}
