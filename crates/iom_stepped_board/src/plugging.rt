// A device is plugged into a board.
ghost use Rattle.std.specs.Prelude.{◌≡◌, ◌≢◌, ◌+◌, ◌<◌, ◌^◌, OnOk, OnErr, Err, length, true, vec_capacity};
ghost use Rattle.iom_base.specs.declared.refusal.Refusal.TheVariants.{Memory};
ghost use Rattle.iom_board.specs.BoardParts.{board_parts, disks_at_hand};
ghost use Rattle.iom_board.specs.Invariant.{BoardInvariant};
ghost use Rattle.iom_board.specs.Plugging.{PlugsNewDevice};
ghost use Rattle.iom_stepped_board.specs.Beside.{AreBeside};
ghost use Rattle.iom_walks.specs.Calls.{Adds};

use iom_base::{DeviceId, NewDevice, Refusal};
use iom_board::Board;
use iom_walks::Walks;

/// A device is plugged in, as a board's is, with nothing under way. It is refused as a board's is; nothing changes then.
pub fn plug(
    board: &mut Board,
    walks: &mut Walks,
    id: DeviceId,
    what: NewDevice,
) -> Result<(), Refusal>
    requires invariants { BoardInvariant (board_parts board.old) board.old.events }
    requires beside { AreBeside (board_parts board.old) walks.old }
    requires count { board.old.events + 1 < 2 ^ 64 }
    ensures effect { PlugsNewDevice (disks_at_hand board.old) (board_parts board.old) id what result
        (board_parts board.new) (disks_at_hand board.new) }
    ensures added { OnOk result (Adds walks.old id true walks.new) }
    ensures kept { OnErr result (walks.new ≡ walks.old) }
    ensures room { length (board_parts board.old).devices < vec_capacity board.old.devices → result ≢ Err Memory }
    ensures invariants { BoardInvariant (board_parts board.new) board.new.events }
    ensures beside { AreBeside (board_parts board.new) walks.new }
    ensures events { board.new.events ≡ board.old.events + 1 }
{
    board.plug(id, what)?;
    walks.add(id);
    Ok(())
}
