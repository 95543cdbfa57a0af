// How a device is plugged in, and how it loses its disk, while requests are under way.
ghost use Rattle.std.specs.Prelude.{◌≡◌, ◌≢◌, ◌+◌, ◌<◌, ◌^◌, OnErr, OnOk, Err, length, true, vec_capacity};
ghost use Rattle.iom_base.specs.DeviceKinds.{disk_of};
ghost use Rattle.iom_base.specs.declared.refusal.Refusal.TheVariants.{Memory};
ghost use Rattle.iom_board.specs.BoardParts.{board_parts, disks_at_hand};
ghost use Rattle.iom_board.specs.Plugging.{LosesDisk, PlugsNewDevice};
ghost use Rattle.iom_hardware.specs.Blocks.{GivesUpInside, PlugsInside};
ghost use Rattle.iom_hardware.specs.Inside.{inside};
ghost use Rattle.iom_hardware.specs.Invariant.{HardwareInvariant};
ghost use Rattle.iom_walks.specs.Calls.{Adds, given_up};
ghost use Rattle.iom_walks.specs.Walks.{row_of};
ghost use Rattle.iom_stepped_hardware.specs.Beside.{AreBesideHardware};

use iom_base::{DeviceId, NewDevice, Refusal};
use iom_hardware::Hardware;
use iom_virtio_blk::Disk;
use iom_walks::Walks;

/// A device is plugged in, as [`Hardware::plug`] says, with nothing under way. Nothing changes where it is refused.
pub fn plug<D: Disk>(
    hardware: &mut Hardware<D>,
    walks: &mut Walks,
    id: DeviceId,
    what: NewDevice,
) -> Result<(), Refusal>
    requires invariants { HardwareInvariant hardware.old }
    requires beside { AreBesideHardware (board_parts hardware.old.board) (inside D.shown hardware.old).blocks walks.old }
    requires count { hardware.old.board.events + 1 < 2 ^ 64 }
    ensures effect { PlugsNewDevice (disks_at_hand hardware.old.board) (board_parts hardware.old.board) id what result
        (board_parts hardware.new.board) (disks_at_hand hardware.new.board) }
    ensures inside { PlugsInside (disk_of what) (inside D.shown hardware.old) id result (inside D.shown hardware.new) }
    ensures added { OnOk result (Adds walks.old id true walks.new) }
    ensures kept { OnErr result (walks.new ≡ walks.old) }
    ensures room { length (board_parts hardware.old.board).devices < vec_capacity hardware.old.board.devices → result ≢ Err Memory }
    ensures invariants { HardwareInvariant hardware.new }
    ensures beside { AreBesideHardware (board_parts hardware.new.board) (inside D.shown hardware.new).blocks walks.new }
    ensures events { hardware.new.board.events ≡ hardware.old.board.events + 1 }
{
    hardware.plug(id, what)?;
    walks.add(id);
    Ok(())
}

/// The disk of the device goes, as [`Hardware::remove_disk`] says, and its request that is under way is given up. Nothing changes
/// where it is refused.
pub fn remove_disk<D: Disk>(
    hardware: &mut Hardware<D>,
    walks: &mut Walks,
    id: DeviceId,
) -> Result<(), Refusal>
    requires invariants { HardwareInvariant hardware.old }
    requires beside { AreBesideHardware (board_parts hardware.old.board) (inside D.shown hardware.old).blocks walks.old }
    requires count { hardware.old.board.events + 1 < 2 ^ 64 }
    ensures effect { LosesDisk (board_parts hardware.old.board) id result (board_parts hardware.new.board) }
    ensures inside { GivesUpInside (inside D.shown hardware.old) id result (inside D.shown hardware.new) }
    ensures given_up { OnOk result (walks.new ≡ given_up walks.old (row_of walks.old id)) }
    ensures kept { OnErr result (walks.new ≡ walks.old) }
    ensures disks { disks_at_hand hardware.new.board ≡ disks_at_hand hardware.old.board }
    ensures invariants { HardwareInvariant hardware.new }
    ensures beside { AreBesideHardware (board_parts hardware.new.board) (inside D.shown hardware.new).blocks walks.new }
    ensures events { hardware.new.board.events ≡ hardware.old.board.events + 1 }
{
    hardware.remove_disk(id)?;
    walks.give_up(id);
    Ok(())
}
