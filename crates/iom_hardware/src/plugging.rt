// How a device is plugged in, and a disk put into a block device.
ghost use Rattle.std.specs.Prelude.{◌≡◌, ◌≢◌, ◌+◌, ◌<◌, ◌^◌, Err, length, vec_capacity};
ghost use Rattle.iom_base.specs.DeviceKinds.{disk_of};
ghost use Rattle.iom_base.specs.declared.refusal.Refusal.TheVariants.{Memory};
ghost use Rattle.iom_board.specs.BoardParts.{board_parts, disks_at_hand};
ghost use Rattle.iom_board.specs.Plugging.{LosesDisk, PlugsNewDevice, PutsDiskIntoDevice};
ghost use Rattle.iom_hardware.specs.Blocks.{GivesUpInside, PlugsInside, PutsDiskInside};
ghost use Rattle.iom_hardware.specs.Inside.{inside};
ghost use Rattle.iom_hardware.specs.Invariant.{HardwareInvariant};

use crate::hardware::Hardware;
use iom_base::{DeviceId, NewDevice, Refusal};
use iom_block_devices::{leave, plug_in, put_in};
use iom_virtio_blk::Disk;

impl<D: Disk> Hardware<D> {
    /// A device is plugged in, as [`Board::plug`](iom_board::Board::plug) says; a block device with the disk that it names.
    /// Nothing changes where it is refused.
    pub fn plug(&mut self, id: DeviceId, what: NewDevice) -> Result<(), Refusal>
        requires invariants { HardwareInvariant self.old }
        requires count { self.old.board.events + 1 < 2 ^ 64 }
        ensures effect { PlugsNewDevice (disks_at_hand self.old.board) (board_parts self.old.board) id what result
            (board_parts self.new.board) (disks_at_hand self.new.board) }
        ensures inside { PlugsInside (disk_of what) (inside D.shown self.old) id result (inside D.shown self.new) }
        ensures room { length (board_parts self.old.board).devices < vec_capacity self.old.board.devices → result ≢ Err Memory }
        ensures invariants { HardwareInvariant self.new }
        ensures events { self.new.board.events ≡ self.old.board.events + 1 }
    {
        self.board.plug(id, what)?;
        if let Some(number) = what.disk() {
            plug_in(&mut self.blocks, &mut self.at_hand, id, number);
        }
        Ok(())
    }

    /// The disk is put into the block device, as [`Board::medium`](iom_board::Board::medium) says. Nothing changes where that
    /// is refused.
    pub fn medium(&mut self, id: DeviceId, disk: u64) -> Result<(), Refusal>
        requires invariants { HardwareInvariant self.old }
        requires count { self.old.board.events + 1 < 2 ^ 64 }
        ensures effect { PutsDiskIntoDevice (disks_at_hand self.old.board) (board_parts self.old.board) id disk result
            (board_parts self.new.board) (disks_at_hand self.new.board) }
        ensures inside { PutsDiskInside disk (inside D.shown self.old) id result (inside D.shown self.new) }
        ensures invariants { HardwareInvariant self.new }
        ensures events { self.new.board.events ≡ self.old.board.events + 1 }
    {
        self.board.medium(id, disk)?;
        put_in(&mut self.blocks, &mut self.at_hand, id, disk);
        Ok(())
    }

    /// The disk of the device goes, if it has one, and is never at hand again; a block device is reset. Nothing changes where
    /// no device has the id, `NoSuchDevice`.
    pub fn remove_disk(&mut self, id: DeviceId) -> Result<(), Refusal>
        requires invariants { HardwareInvariant self.old }
        requires count { self.old.board.events + 1 < 2 ^ 64 }
        ensures effect { LosesDisk (board_parts self.old.board) id result (board_parts self.new.board) }
        ensures inside { GivesUpInside (inside D.shown self.old) id result (inside D.shown self.new) }
        ensures disks { disks_at_hand self.new.board ≡ disks_at_hand self.old.board }
        ensures invariants { HardwareInvariant self.new }
        ensures events { self.new.board.events ≡ self.old.board.events + 1 }
    {
        self.board.remove_disk(id)?;
        leave(&mut self.blocks, id);
        Ok(())
    }
}
