// A device is reset, or loses its disk, while a request of it is under way.
ghost use Rattle.std.specs.Prelude.{◌≡◌, ◌+◌, ◌<◌, ◌^◌, OnOk, OnErr};
ghost use Rattle.iom_board.specs.BoardParts.{board_parts};
ghost use Rattle.iom_board.specs.Commits.{ResetsAnyDevice};
ghost use Rattle.iom_board.specs.Counted.{IsCounted};
ghost use Rattle.iom_board.specs.Invariant.{BoardInvariant};
ghost use Rattle.iom_board.specs.Plugging.{LosesDisk};
ghost use Rattle.iom_stepped_board.specs.Beside.{AreBeside};
ghost use Rattle.iom_walks.specs.Calls.{given_up};
ghost use Rattle.iom_walks.specs.Walks.{row_of};

use iom_base::{DeviceId, Refusal};
use iom_board::Board;
use iom_walks::Walks;

/// A device is reset, as a board's is, and its request that is under way is given up. `NoSuchDevice` where no device has the id;
/// nothing changes then.
pub fn reset(board: &mut Board, walks: &mut Walks, id: DeviceId) -> Result<(), Refusal>
    requires invariants { BoardInvariant (board_parts board.old) board.old.events }
    requires beside { AreBeside (board_parts board.old) walks.old }
    requires count { board.old.events + 1 < 2 ^ 64 }
    ensures effect { ResetsAnyDevice (board_parts board.old) id result (board_parts board.new) }
    ensures given_up { OnOk result (walks.new ≡ given_up walks.old (row_of walks.old id)) }
    ensures kept { OnErr result (walks.new ≡ walks.old) }
    ensures invariants { BoardInvariant (board_parts board.new) board.new.events }
    ensures beside { AreBeside (board_parts board.new) walks.new }
    ensures counted { IsCounted board.old board.new }
{
    board.reset(id)?;
    walks.give_up(id);
    Ok(())
}

/// The disk of the device goes, if it has one, as of a board's device: a block device is reset, and its request that is under way is
/// given up. `NoSuchDevice` where no device has the id; nothing changes then.
pub fn remove_disk(board: &mut Board, walks: &mut Walks, id: DeviceId) -> Result<(), Refusal>
    requires invariants { BoardInvariant (board_parts board.old) board.old.events }
    requires beside { AreBeside (board_parts board.old) walks.old }
    requires count { board.old.events + 1 < 2 ^ 64 }
    ensures effect { LosesDisk (board_parts board.old) id result (board_parts board.new) }
    ensures given_up { OnOk result (walks.new ≡ given_up walks.old (row_of walks.old id)) }
    ensures kept { OnErr result (walks.new ≡ walks.old) }
    ensures invariants { BoardInvariant (board_parts board.new) board.new.events }
    ensures beside { AreBeside (board_parts board.new) walks.new }
    ensures counted { IsCounted board.old board.new }
{
    board.remove_disk(id)?;
    walks.give_up(id);
    Ok(())
}
