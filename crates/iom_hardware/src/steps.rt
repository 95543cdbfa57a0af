// A block device takes a step, and begins the access that it wants (virtio 1.2, sections 2.7 and 5.2).
ghost use Rattle.std.specs.Prelude.{◌≡◌, ◌+◌, ◌/◌, ◌<◌, ◌^◌, ℕ, List, false};
ghost use Rattle.std.specs.Option.{option_map_or};
ghost use Rattle.std.specs.Prelude.{Some};
ghost use Rattle.iom_base.specs.Accesses.{MayWant};
ghost use Rattle.iom_base.specs.DeviceKinds.{has_cache, is_block_device};
ghost use Rattle.iom_base.specs.Sizes.{page_size};
ghost use Rattle.iom_base.specs.declared.access.Access.{Access};
ghost use Rattle.iom_block_devices.specs.Changes.{block_with};
ghost use Rattle.iom_block_devices.specs.Wanted.{wanted_access};
ghost use Rattle.iom_board.specs.BoardParts.{board_parts};
ghost use Rattle.iom_board.specs.Counted.{IsCounted};
ghost use Rattle.iom_board.specs.Invariant.{BoardInvariant};
ghost use Rattle.iom_iommu.specs.Requests.{access_of};
ghost use Rattle.iom_virtio_blk.specs.Disks.{disk_in};
ghost use Rattle.iom_virtio_blk.specs.Steps.{device};
ghost use Rattle.iom_virtio_blk.specs.Wants.{access_wanted};
ghost use Rattle.iom_virtqueue.specs.Accesses.{LiesInPage};
ghost use Rattle.iom_hardware.specs.Inside.{inside};
ghost use Rattle.iom_hardware.specs.Invariant.{HardwareInvariant};
ghost use Rattle.iom_hardware.specs.Steps.{Begins, BeginsAny, GoesThroughCache, IsRefusedIfNone, TakesOneStep, TakesStep, began, reply_to};

use crate::hardware::Hardware;
use iom_base::{AccessKind, DeviceId, DeviceKind, PAGE_SIZE, Refusal};
use iom_block_devices::place_of;
use iom_board::{Board, CacheReply, Sender};
use iom_fabric::{Message, PageNumber};
use iom_iommu::Reply;
use iom_virtio_blk::{Blk, Disk, Reply as Became, Step, WantedAccess};
use iom_virtqueue::{ChainFault, Want};

/// What a step of a block device was, with the access that it began.
#[derive(Clone, Copy, PartialEq, Eq)]
pub enum Stepped {
    /// It wants an access, which the IOMMU answered so.
    Began(Reply),
    /// It wants an access for which its own cache has no translation: it asks for one.
    Asked,
    /// No queue is set, or the driver has no new request.
    Idle,
    /// The access that it began isn't made yet.
    Waiting,
    /// It is down until it is reset.
    Down,
    /// The chain of descriptors has this fault, and the device is down.
    Chain(ChainFault),
    /// The request that begins at this descriptor is done, and so many bytes were written.
    Finished { head: u16, len: u32 },
}

/// The page of an access that is wanted.
fn page_of(want: &WantedAccess) -> u64
    ensures { (sector : List ℕ) (access : Access) → wanted_access (access_wanted sector want.now) ≡ Some access → result ≡ access.address / page_size }
{
    match want {
        WantedAccess::Small(Want::Nothing) => 0,
        WantedAccess::Small(Want::Read { address, .. } | Want::Write { address, .. })
        | WantedAccess::OfSector { address, .. } => *address / PAGE_SIZE,
    }
}

/// What the device is told of the access that it wants, by what came of it.
fn became(want: &WantedAccess, answer: Result<Stepped, Refusal>) -> Became
    ensures { (sector : List ℕ) (access : Access) → wanted_access (access_wanted sector want.now) ≡ Some access → result ≡ reply_to access answer }
{
    match answer {
        Ok(Stepped::Began(Reply::Accepted(number))) => Became::Accepted(number),
        Ok(Stepped::Began(Reply::Busy)) => Became::Busy,
        Ok(Stepped::Asked) => Became::Asked(page_of(want)),
        _ => Became::Fault,
    }
}

/// Whether a device is there, and of a kind that has a cache.
fn caches(known: Option<DeviceKind>) -> bool
    ensures { result ≡ option_map_or has_cache known false }
{
    match known {
        Some(kind) => kind.has_cache(),
        None => false,
    }
}

/// A block device with a cache has an access through that. Where it misses there, the device asks for the translation;
/// the question is lost where 64 messages are under way.
fn through_cache(
    board: &mut Board,
    id: DeviceId,
    address: u64,
    len: u64,
    kind: AccessKind,
    bytes: &[u8],
) -> Result<Stepped, Refusal>
    requires invariants { BoardInvariant (board_parts board.old) board.old.events }
    requires count { board.old.events + 1 < 2 ^ 64 }
    requires wants { MayWant (access_of address len kind bytes.now) }
    ensures begins { GoesThroughCache (board_parts board.old) id (access_of address len kind bytes.now) result (board_parts board.new) }
    ensures invariants { BoardInvariant (board_parts board.new) board.new.events }
    ensures counted { IsCounted board.old board.new }
{
    match board.through_cache(Sender::Step, id, address, len, kind, bytes) {
        Ok(CacheReply::Miss) => {}
        Ok(CacheReply::Replied(reply)) => return Ok(Stepped::Began(reply)),
        Err(why) => return Err(why),
    }
    let epoch = board.epoch_of(id);
    let page = PageNumber::new(address / PAGE_SIZE).unwrap();
    board.fabric.send(id, Message::Ask { epoch, page });
    Ok(Stepped::Asked)
}

/// The step of a block device wants this access, within one page: it goes to the IOMMU, or through the device's own cache,
/// where it has one.
#[inline(always)]
fn access(
    board: &mut Board,
    id: DeviceId,
    address: u64,
    len: u64,
    kind: AccessKind,
    bytes: &[u8],
) -> Result<Stepped, Refusal>
    requires invariants { BoardInvariant (board_parts board.old) board.old.events }
    requires count { board.old.events + 1 < 2 ^ 64 }
    requires wants { MayWant (access_of address len kind bytes.now) }
    ensures begins { Begins (board_parts board.old) id (access_of address len kind bytes.now) result (board_parts board.new) }
    ensures fits { address < 2 ^ 64 }
    ensures invariants { BoardInvariant (board_parts board.new) board.new.events }
    ensures counted { IsCounted board.old board.new }
{
    let known = board.kind_of(id);
    if caches(known) {
        return through_cache(board, id, address, len, kind, bytes);
    }
    let reply = board.request_of(Sender::Step, known, id, address, len, kind, bytes)?;
    Ok(Stepped::Began(reply))
}

/// The step of a block device wants an access, which begins.
fn begin<D: Disk>(
    board: &mut Board,
    blk: &Blk<D>,
    id: DeviceId,
    want: &WantedAccess,
) -> Result<Stepped, Refusal>
    requires invariants { BoardInvariant (board_parts board.old) board.old.events }
    requires count { board.old.events + 1 < 2 ^ 64 }
    requires want { LiesInPage (access_wanted blk.now.front.buffer want.now) }
    ensures begins { BeginsAny (access_wanted blk.now.front.buffer want.now) (board_parts board.old) id result (board_parts board.new) }
    ensures invariants { BoardInvariant (board_parts board.new) board.new.events }
    ensures counted { IsCounted board.old board.new }
{
    let (address, bytes) = match want {
        // (A step that wants nothing isn't told as one that wants an access.)
        WantedAccess::Small(Want::Nothing) => {
            board.events += 1;
            return Ok(Stepped::Idle);
        }
        WantedAccess::Small(Want::Read { address, len }) => {
            return access(board, id, *address, u64::from(*len), AccessKind::Read, &[]);
        }
        WantedAccess::Small(Want::Write { address, bytes }) => (*address, bytes.as_slice()),
        WantedAccess::OfSector { address, from, len } => (*address, blk.sector_part(*from, *len)),
    };
    let len = bytes.len() as u64;
    access(board, id, address, len, AccessKind::Write, bytes)
}

/// The block device takes a step, up to the access that it wants, and is told what comes of that.
fn step_once<D: Disk>(board: &mut Board, blk: &mut Blk<D>, id: DeviceId) -> Result<Stepped, Refusal>
    requires invariants { BoardInvariant (board_parts board.old) board.old.events }
    requires count { board.old.events + 1 < 2 ^ 64 }
    ensures steps { TakesOneStep (board_parts board.old) id result (board_parts board.new)
        (device blk.old.front (disk_in D.shown blk.old.drive.disk)) (device blk.new.front (disk_in D.shown blk.new.drive.disk)) }
    ensures invariants { BoardInvariant (board_parts board.new) board.new.events }
    ensures counted { IsCounted board.old board.new }
{
    let rest = match blk.step() {
        Step::Wants(want) => {
            return match begin(board, blk, id, &want) {
                // Most are accepted: what comes of it needn't be looked at again.
                Ok(Stepped::Began(Reply::Accepted(number))) => {
                    blk.replied(Became::Accepted(number));
                    Ok(Stepped::Began(Reply::Accepted(number)))
                }
                answer => {
                    blk.replied(became(&want, answer));
                    answer
                }
            };
        }
        Step::Idle => Stepped::Idle,
        Step::Waiting => Stepped::Waiting,
        Step::Down => Stepped::Down,
        Step::Chain(fault) => Stepped::Chain(fault),
        Step::Finished { head, len } => Stepped::Finished { head, len },
    };
    board.events += 1;
    Ok(rest)
}

impl<D: Disk> Hardware<D> {
    /// The block device takes a step (virtio 1.2, sections 2.7 and 5.2), up to the access that it wants, which begins in the
    /// same call: untranslated or, where the device has a cache, through that. `NoSuchDevice` where no device has the id,
    /// `WrongKind` where it is no block device: then nothing changes.
    pub fn step(&mut self, id: DeviceId) -> Result<Stepped, Refusal>
        requires invariants { HardwareInvariant self.old }
        requires count { self.old.board.events + 1 < 2 ^ 64 }
        ensures refused { IsRefusedIfNone (block_with (inside D.shown self.old).blocks id) (board_parts self.old.board) id result (board_parts self.new.board) }
        ensures steps { TakesStep (board_parts self.old.board) (inside D.shown self.old) id result (board_parts self.new.board) (inside D.shown self.new) }
        ensures invariants { HardwareInvariant self.new }
        ensures counted { IsCounted self.old.board self.new.board }
    {
        match place_of(&self.blocks, id) {
            Some(place) => step_once(&mut self.board, &mut self.blocks[place].blk, id),
            None => {
                self.board.events += 1;
                // Both lists of devices agree, so there is a cause.
                Err(self.why_no_block(id).unwrap())
            }
        }
    }
}
