// What the IOMMU does with the commands in its queue, while requests are under way.
ghost use Rattle.std.specs.Prelude.{◌≡◌, ◌+◌, ◌<◌, ◌^◌};
ghost use Rattle.iom_board.specs.BoardParts.{board_parts};
ghost use Rattle.iom_board.specs.Commits.{TakesCommand};
ghost use Rattle.iom_board.specs.Counted.{IsCounted};
ghost use Rattle.iom_board.specs.Invariant.{BoardInvariant};
ghost use Rattle.iom_iommu.specs.Parts.{registers_of};
ghost use Rattle.iom_iommu.specs.Stepped.{BeginsAnewAfter, begins_anew};
ghost use Rattle.iom_stepped_board.specs.Beside.{AreBeside};

use iom_board::Board;
use iom_command_queue::Command;
use iom_iommu::Fetched;
use iom_registers::{DirectoryPointer, Registers};
use iom_walks::Walks;

/// What `ddtp` holds.
fn directory_pointer(registers: &Registers) -> DirectoryPointer
    ensures { result ≡ registers.now.ddtp }
{
    DirectoryPointer {
        mode: registers.directory_mode(),
        ppn: registers.directory_root(),
    }
}

/// Whether a command ended what is cached of contexts or translations.
fn begins_anew(fetched: &Fetched) -> bool
    ensures { result ≡ begins_anew fetched.now }
{
    match *fetched {
        Fetched::Did(
            Command::IotinvalVma { .. }
            | Command::IotinvalGvma { .. }
            | Command::IodirInvalDdt { .. },
        ) => true,
        Fetched::Did(Command::IofenceC { .. } | Command::AtsInval { .. })
        | Fetched::Waiting
        | Fetched::Empty
        | Fetched::Stopped => false,
    }
}

/// The IOMMU takes the command at the head of its queue, as a board's does. Where that is an IOTINVAL or an IODIR.INVAL_DDT,
/// whatever it covers, all requests that are under way begin anew, from the root of the directory, and look in no cache. A fence
/// waits for none of them.
pub fn fetch(board: &mut Board, walks: &mut Walks) -> Fetched
    requires invariants { BoardInvariant (board_parts board.old) board.old.events }
    requires beside { AreBeside (board_parts board.old) walks.old }
    requires count { board.old.events + 1 < 2 ^ 64 }
    ensures effect { TakesCommand (board_parts board.old) result (board_parts board.new) }
    ensures anew { BeginsAnewAfter (begins_anew result) (registers_of board.new.iommu).ddtp walks.old walks.new }
    ensures invariants { BoardInvariant (board_parts board.new) board.new.events }
    ensures beside { AreBeside (board_parts board.new) walks.new }
    ensures counted { IsCounted board.old board.new }
{
    let fetched = board.fetch();
    if begins_anew(&fetched) {
        let ddtp = directory_pointer(board.iommu.registers());
        walks.begin_anew(ddtp);
    }
    fetched
}
