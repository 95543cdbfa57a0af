// The oldest access in flight of a device is made, while requests are under way.
ghost use Rattle.std.specs.Prelude.{◌+◌, ◌<◌, ◌^◌, IfOk, length};
ghost use Rattle.std.specs.Option.{IfSome};
ghost use Rattle.iom_board.specs.BoardParts.{board_parts};
ghost use Rattle.iom_board.specs.Commits.{CommitsOldestAccess};
ghost use Rattle.iom_board.specs.Counted.{IsCounted};
ghost use Rattle.iom_hardware.specs.Blocks.{HearsIfMade, oldest_number};
ghost use Rattle.iom_hardware.specs.Inside.{inside};
ghost use Rattle.iom_hardware.specs.Invariant.{HardwareInvariant};
ghost use Rattle.iom_inflight.specs.Flights.{row_of};
ghost use Rattle.iom_iommu.specs.Parts.{flights_of};
ghost use Rattle.iom_iommu.specs.Requests.{IsWithinFrame};
ghost use Rattle.iom_stepped_hardware.specs.Beside.{AreBesideHardware};

use iom_base::{DeviceId, Refusal};
use iom_hardware::Hardware;
use iom_inflight::MadeAt;
use iom_virtio_blk::Disk;
use iom_walks::Walks;

/// The oldest access of the device in flight is made, as [`Hardware::commit`] says. A request that is under way stays, and a block
/// device that waits for that hears nothing: it has begun no access.
pub fn commit<D: Disk>(
    hardware: &mut Hardware<D>,
    walks: &Walks,
    id: DeviceId,
) -> Result<Option<MadeAt>, Refusal>
    requires invariants { HardwareInvariant hardware.old }
    requires beside { AreBesideHardware (board_parts hardware.old.board) (inside D.shown hardware.old).blocks walks.now }
    requires count { hardware.old.board.events + 1 < 2 ^ 64 }
    ensures effect { CommitsOldestAccess (board_parts hardware.old.board) id result (board_parts hardware.new.board) }
    ensures inside { HearsIfMade result (oldest_number (row_of (flights_of hardware.old.board.iommu).rows id)) hardware.new.board.memory
        (inside D.shown hardware.old) id (inside D.shown hardware.new) }
    ensures within { IfOk result (λ made. IfSome made (IsWithinFrame (length hardware.new.board.memory))) }
    ensures invariants { HardwareInvariant hardware.new }
    ensures beside { AreBesideHardware (board_parts hardware.new.board) (inside D.shown hardware.new).blocks walks.now }
    ensures counted { IsCounted hardware.old.board hardware.new.board }
{
    match hardware.commit(id) {
        Ok(Some(made)) => {
            // That these bytes are there is all that is wanted of them.
            let _bytes = hardware.board.bytes_of(made);
            Ok(Some(made))
        }
        Ok(None) => Ok(None),
        Err(why) => Err(why),
    }
}
