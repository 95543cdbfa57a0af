// What a device asks of memory where a walk makes one load an event, and the loads (IOMMU specification, section 2.3).
ghost use Rattle.std.specs.Prelude.{◌≡◌, ◌+◌, ◌<◌, ◌^◌, Some, vec_capacity};
ghost use Rattle.iom_base.specs.DeviceKinds.{sends_untranslated};
ghost use Rattle.iom_block_devices.specs.Changes.{ChangesOne, block_with};
ghost use Rattle.iom_block_devices.specs.Entries.{disk_entries_of};
ghost use Rattle.iom_block_devices.specs.Shown.{ShownBlock, shown_blocks};
ghost use Rattle.iom_board.specs.BoardParts.{board_parts};
ghost use Rattle.iom_board.specs.Counted.{IsCounted};
ghost use Rattle.iom_hardware.specs.Inside.{inside};
ghost use Rattle.iom_hardware.specs.Invariant.{HardwareInvariant};
ghost use Rattle.iom_inflight.specs.Invariant.{CarriesBytes};
ghost use Rattle.iom_iommu.specs.Requests.{access_of};
ghost use Rattle.iom_stepped_board.specs.Requests.{BeginsAccessBeside, MakesLoad};
ghost use Rattle.iom_virtio_blk.specs.Blocks.{IsAsking};
ghost use Rattle.iom_stepped_hardware.specs.Beside.{AreBesideHardware};
ghost use Rattle.iom_stepped_hardware.specs.Requests.{HearsLoad, HearsReply, told};

use iom_base::{AccessKind, DeviceId, Refusal};
use iom_block_devices::{Block, place_of};
use iom_board::Sender;
use iom_hardware::Hardware;
use iom_iommu::{Begun, Load, Reply};
use iom_stepped_board as board;
use iom_virtio_blk::{Disk, Reply as Became};
use iom_walks::Walks;

/// What a block device is told of its access, by what the IOMMU answers.
pub(crate) fn told(reply: Reply) -> Became
    ensures { result ≡ told reply }
{
    match reply {
        Reply::Accepted(number) => Became::Accepted(number),
        Reply::Busy => Became::Busy,
        Reply::Fault(_) | Reply::BadSpan => Became::Fault,
    }
}

/// The block device with this id, if there is one, hears what became of the access that it wants.
fn hear_reply<D: Disk>(blocks: &mut Vec<Block<D>>, id: DeviceId, reply: Reply)
    requires asking { (block : ShownBlock) → block_with (shown_blocks D.shown blocks.old.items) id ≡ Some block → IsAsking block.device.front }
    ensures shown { ChangesOne (HearsReply reply) (shown_blocks D.shown blocks.old.items) id (shown_blocks D.shown blocks.new.items) }
    ensures entries { disk_entries_of blocks.new.items ≡ disk_entries_of blocks.old.items }
    ensures room { vec_capacity blocks.new ≡ vec_capacity blocks.old }
{
    if let Some(place) = place_of(blocks, id) {
        blocks[place].blk.replied(told(reply));
    }
}

/// A device that isn't a block device asks for an access at an address that the IOMMU translates, as [`iom_stepped_board::begin`]
/// says. `WrongKind` of a block device, whose accesses come of its steps; nothing changes then.
pub fn begin<D: Disk>(
    hardware: &mut Hardware<D>,
    walks: &mut Walks,
    id: DeviceId,
    address: u64,
    len: u64,
    kind: AccessKind,
    bytes: &[u8],
) -> Result<Begun, Refusal>
    requires invariants { HardwareInvariant hardware.old }
    requires beside { AreBesideHardware (board_parts hardware.old.board) (inside D.shown hardware.old).blocks walks.old }
    requires count { hardware.old.board.events + 1 < 2 ^ 64 }
    requires carries { CarriesBytes kind len bytes.now }
    ensures effect { BeginsAccessBeside sends_untranslated (board_parts hardware.old.board) walks.old id
        (access_of address len kind bytes.now) result (board_parts hardware.new.board) walks.new }
    ensures inside { inside D.shown hardware.new ≡ inside D.shown hardware.old }
    ensures invariants { HardwareInvariant hardware.new }
    ensures beside { AreBesideHardware (board_parts hardware.new.board) (inside D.shown hardware.new).blocks walks.new }
    ensures counted { IsCounted hardware.old.board hardware.new.board }
{
    board::begin(
        &mut hardware.board,
        walks,
        Sender::Own,
        id,
        address,
        len,
        kind,
        bytes,
    )
}

/// The next load of the device's request is made, as [`iom_stepped_board::load`] says. A block device whose request that ends hears
/// of it: it waits for the access where that is accepted, and needs a reset where it isn't.
pub fn load<D: Disk>(
    hardware: &mut Hardware<D>,
    walks: &mut Walks,
    id: DeviceId,
) -> Result<Load, Refusal>
    requires invariants { HardwareInvariant hardware.old }
    requires beside { AreBesideHardware (board_parts hardware.old.board) (inside D.shown hardware.old).blocks walks.old }
    requires count { hardware.old.board.events + 1 < 2 ^ 64 }
    ensures effect { MakesLoad (board_parts hardware.old.board) walks.old id result (board_parts hardware.new.board) walks.new }
    ensures inside { HearsLoad result (inside D.shown hardware.old) id (inside D.shown hardware.new) }
    ensures invariants { HardwareInvariant hardware.new }
    ensures beside { AreBesideHardware (board_parts hardware.new.board) (inside D.shown hardware.new).blocks walks.new }
    ensures counted { IsCounted hardware.old.board hardware.new.board }
{
    let load = board::load(&mut hardware.board, walks, id)?;
    match load {
        Load::Ended(reply) => hear_reply(&mut hardware.blocks, id, reply),
        Load::Loaded | Load::Nothing => {}
    }
    Ok(load)
}
