// The status of a block device (virtio 1.2, section 2.1), and how a call of one is refused where there is none.
ghost use Rattle.iom_block_devices.specs.Changes.{block_with};
ghost use Rattle.iom_board.specs.BoardParts.{board_parts};
ghost use Rattle.iom_device.specs.Caches.{kind_in};
ghost use Rattle.iom_hardware.specs.Inside.{inside};
ghost use Rattle.iom_hardware.specs.Permits.{IsBlockOrRefused};
ghost use Rattle.iom_hardware.specs.Invariant.{HardwareInvariant};
ghost use Rattle.iom_hardware.specs.Status.{TellsStatus};

use crate::hardware::Hardware;
use iom_base::{DeviceId, DeviceKind, Refusal};
use iom_block_devices::place_of;
use iom_virtio_blk::Disk;

/// Why a device of this kind, if one is there, is no block device. None where it is one.
fn why_no_block(known: Option<DeviceKind>) -> Option<Refusal>
    ensures { IsBlockOrRefused known result }
{
    let Some(kind) = known else {
        return Some(Refusal::NoSuchDevice);
    };
    if kind.is_block_device() {
        None
    } else {
        Some(Refusal::WrongKind)
    }
}

impl<D: Disk> Hardware<D> {
    /// Why there is no block device with this id: no device has it, or one of another kind. None where there is one.
    pub(crate) fn why_no_block(&self, id: DeviceId) -> Option<Refusal>
        ensures { IsBlockOrRefused (kind_in self.now.board.devices.items id) result }
    {
        why_no_block(self.board.kind_of(id))
    }

    /// The device status of the block device with this id. `NoSuchDevice` where no device has it, `WrongKind` where it is no
    /// block device. It is no event.
    pub fn status(&self, id: DeviceId) -> Result<u8, Refusal>
        requires invariants { HardwareInvariant self.now }
        ensures { TellsStatus (block_with (inside D.shown self.now).blocks id) (board_parts self.now.board) id result }
    {
        if let Some(why) = self.why_no_block(id) {
            return Err(why);
        }
        match place_of(&self.blocks, id) {
            Some(place) => Ok(self.blocks[place].blk.status()),
            // Both lists of devices agree, so this doesn't come.
            None => Err(Refusal::WrongKind),
        }
    }
}
