// A block device takes a step, and the request for the access that it wants begins (virtio 1.2, sections 2.7 and 5.2).
ghost use Rattle.std.specs.Prelude.{◌≡◌, ◌+◌, ◌<◌, ◌^◌, None};
ghost use Rattle.iom_board.specs.BoardParts.{board_parts};
ghost use Rattle.iom_board.specs.Counted.{IsCounted};
ghost use Rattle.iom_board.specs.Invariant.{BoardInvariant};
ghost use Rattle.iom_hardware.specs.Inside.{inside};
ghost use Rattle.iom_hardware.specs.Invariant.{HardwareInvariant};
ghost use Rattle.iom_stepped_board.specs.Beside.{AreBeside};
ghost use Rattle.iom_virtio_blk.specs.Disks.{disk_in};
ghost use Rattle.iom_virtio_blk.specs.Steps.{device};
ghost use Rattle.iom_virtio_blk.specs.Wants.{access_wanted};
ghost use Rattle.iom_virtqueue.specs.Accesses.{LiesInPage};
ghost use Rattle.iom_walks.specs.Walks.{under_way_of};
ghost use Rattle.iom_stepped_hardware.specs.Beside.{AreBesideHardware};
ghost use Rattle.iom_stepped_hardware.specs.Steps.{BeginsAny, TakesOneStep, TakesStepBeside, walks_itself};

use crate::requests::told;
use iom_base::{AccessKind, DeviceId, DeviceKind, Refusal};
use iom_block_devices::place_of;
use iom_board::{Board, Sender};
use iom_hardware::{Hardware, Stepped};
use iom_iommu::Begun;
use iom_stepped_board as board;
use iom_virtio_blk::{Blk, Disk, Step, WantedAccess};
use iom_virtqueue::Want;
use iom_walks::Walks;

/// What a step of a block device was, where a walk makes one load an event.
#[derive(Clone, Copy, PartialEq, Eq)]
pub enum StepOutcome {
    /// It wants an access, whose request is under way from now on.
    Walking,
    /// It was this, as where a walk is one event. The device is `Waiting` also where its request is under way.
    Took(Stepped),
}

/// Whether a device is there whose steps make the loads of their requests one by one.
fn walks_itself(known: Option<DeviceKind>) -> bool
    ensures { result ≡ walks_itself known }
{
    matches!(known, Some(DeviceKind::Block))
}

/// The step of a block device wants an access, whose request begins.
fn begin_wanted<D: Disk>(
    board: &mut Board,
    walks: &mut Walks,
    blk: &Blk<D>,
    id: DeviceId,
    want: &WantedAccess,
) -> Result<Begun, Refusal>
    requires invariants { BoardInvariant (board_parts board.old) board.old.events }
    requires beside { AreBeside (board_parts board.old) walks.old }
    requires count { board.old.events + 1 < 2 ^ 64 }
    requires want { LiesInPage (access_wanted blk.now.front.buffer want.now) }
    ensures begins { BeginsAny (access_wanted blk.now.front.buffer want.now) (board_parts board.old) walks.old id result (board_parts board.new) walks.new }
    ensures invariants { BoardInvariant (board_parts board.new) board.new.events }
    ensures beside { AreBeside (board_parts board.new) walks.new }
    ensures counted { IsCounted board.old board.new }
{
    let (address, bytes) = match want {
        // (A step that wants nothing isn't told as one that wants an access.)
        WantedAccess::Small(Want::Nothing) => (0, [].as_slice()),
        WantedAccess::Small(Want::Read { address, len }) => {
            let len = u64::from(*len);
            return board::begin(
                board,
                walks,
                Sender::Step,
                id,
                *address,
                len,
                AccessKind::Read,
                &[],
            );
        }
        WantedAccess::Small(Want::Write { address, bytes }) => (*address, bytes.as_slice()),
        WantedAccess::OfSector { address, from, len } => (*address, blk.sector_part(*from, *len)),
    };
    let len = bytes.len() as u64;
    board::begin(
        board,
        walks,
        Sender::Step,
        id,
        address,
        len,
        AccessKind::Write,
        bytes,
    )
}

/// The block device takes a step, up to the access that it wants, whose request begins; where that is answered at once, it is told.
fn step_once<D: Disk>(
    board: &mut Board,
    walks: &mut Walks,
    blk: &mut Blk<D>,
    id: DeviceId,
) -> Result<StepOutcome, Refusal>
    requires invariants { BoardInvariant (board_parts board.old) board.old.events }
    requires beside { AreBeside (board_parts board.old) walks.old }
    requires count { board.old.events + 1 < 2 ^ 64 }
    ensures steps { TakesOneStep (board_parts board.old) walks.old id result (board_parts board.new) walks.new
        (device blk.old.front (disk_in D.shown blk.old.drive.disk)) (device blk.new.front (disk_in D.shown blk.new.drive.disk)) }
    ensures invariants { BoardInvariant (board_parts board.new) board.new.events }
    ensures beside { AreBeside (board_parts board.new) walks.new }
    ensures counted { IsCounted board.old board.new }
{
    let rest = match blk.step() {
        Step::Wants(want) => {
            return match begin_wanted(board, walks, blk, id, &want)? {
                Begun::Answered(reply) => {
                    blk.replied(told(reply));
                    Ok(StepOutcome::Took(Stepped::Began(reply)))
                }
                Begun::Walking => Ok(StepOutcome::Walking),
                Begun::Occupied => Ok(StepOutcome::Took(Stepped::Waiting)),
            };
        }
        Step::Idle => Stepped::Idle,
        Step::Waiting => Stepped::Waiting,
        Step::Down => Stepped::Down,
        Step::Chain(fault) => Stepped::Chain(fault),
        Step::Finished { head, len } => Stepped::Finished { head, len },
    };
    board.events += 1;
    Ok(StepOutcome::Took(rest))
}

/// The block device takes a step (virtio 1.2, sections 2.7 and 5.2), up to the access that it wants, whose request begins in the
/// same call. One without a cache is `Walking` from then on where that needs a load, and `Waiting` until the load that ends it; one
/// with a cache asks through that, as [`Hardware::step`] says. `NoSuchDevice` where no device has the id, `WrongKind` where it is
/// no block device: then nothing changes.
pub fn step<D: Disk>(
    hardware: &mut Hardware<D>,
    walks: &mut Walks,
    id: DeviceId,
) -> Result<StepOutcome, Refusal>
    requires invariants { HardwareInvariant hardware.old }
    requires beside { AreBesideHardware (board_parts hardware.old.board) (inside D.shown hardware.old).blocks walks.old }
    requires count { hardware.old.board.events + 1 < 2 ^ 64 }
    ensures steps { TakesStepBeside (board_parts hardware.old.board) walks.old (inside D.shown hardware.old) id result
        (board_parts hardware.new.board) walks.new (inside D.shown hardware.new) }
    ensures invariants { HardwareInvariant hardware.new }
    ensures beside { AreBesideHardware (board_parts hardware.new.board) (inside D.shown hardware.new).blocks walks.new }
    ensures counted { IsCounted hardware.old.board hardware.new.board }
{
    if !walks_itself(hardware.board.kind_of(id)) {
        return match hardware.step(id) {
            Ok(taken) => Ok(StepOutcome::Took(taken)),
            Err(why) => Err(why),
        };
    }
    if walks.is_walking(id) {
        hardware.board.events += 1;
        return Ok(StepOutcome::Took(Stepped::Waiting));
    }
    // Both lists of devices agree, so it is there.
    let place = place_of(&hardware.blocks, id).unwrap();
    let blk = &mut hardware.blocks[place].blk;
    step_once(&mut hardware.board, walks, blk, id)
}
