// What the IOMMU does with the commands in its queue, while requests are under way.
ghost use Rattle.std.specs.Prelude.{◌≡◌, ◌+◌, ◌<◌, ◌^◌};
ghost use Rattle.iom_board.specs.BoardParts.{board_parts};
ghost use Rattle.iom_board.specs.Commits.{TakesCommand};
ghost use Rattle.iom_board.specs.Counted.{IsCounted};
ghost use Rattle.iom_hardware.specs.Inside.{inside};
ghost use Rattle.iom_hardware.specs.Invariant.{HardwareInvariant};
ghost use Rattle.iom_iommu.specs.Parts.{registers_of};
ghost use Rattle.iom_iommu.specs.Stepped.{BeginsAnewAfter, begins_anew};
ghost use Rattle.iom_stepped_hardware.specs.Beside.{AreBesideHardware};

use iom_hardware::Hardware;
use iom_iommu::Fetched;
use iom_stepped_board as board;
use iom_virtio_blk::Disk;
use iom_walks::Walks;

/// The IOMMU takes the command at the head of its queue, as [`iom_stepped_board::fetch`] says: after an IOTINVAL or an
/// IODIR.INVAL_DDT all requests that are under way begin anew, those of block devices too.
pub fn fetch<D: Disk>(hardware: &mut Hardware<D>, walks: &mut Walks) -> Fetched
    requires invariants { HardwareInvariant hardware.old }
    requires beside { AreBesideHardware (board_parts hardware.old.board) (inside D.shown hardware.old).blocks walks.old }
    requires count { hardware.old.board.events + 1 < 2 ^ 64 }
    ensures effect { TakesCommand (board_parts hardware.old.board) result (board_parts hardware.new.board) }
    ensures anew { BeginsAnewAfter (begins_anew result) (registers_of hardware.new.board.iommu).ddtp walks.old walks.new }
    ensures inside { inside D.shown hardware.new ≡ inside D.shown hardware.old }
    ensures invariants { HardwareInvariant hardware.new }
    ensures beside { AreBesideHardware (board_parts hardware.new.board) (inside D.shown hardware.new).blocks walks.new }
    ensures counted { IsCounted hardware.old.board hardware.new.board }
{
    board::fetch(&mut hardware.board, walks)
}
