// Accesses of devices through their own caches of translations (PCI Express Base Specification, section 10.2), beside requests that are
// under way.
ghost use Rattle.std.specs.Prelude.{◌≡◌, ◌+◌, ◌/◌, ◌<◌, ◌^◌, length, option_map};
ghost use Rattle.std.specs.Option.{option_and_then};
ghost use Rattle.iom_ats_cache.specs.Cache.{Cache, frame_for};
ghost use Rattle.iom_base.specs.Sizes.{page_size};
ghost use Rattle.iom_board.specs.BoardParts.{board_parts, disks_at_hand};
ghost use Rattle.iom_board.specs.Counted.{IsCounted};
ghost use Rattle.iom_board.specs.Invariant.{BoardInvariant};
ghost use Rattle.iom_board.specs.Senders.{cached_by};
ghost use Rattle.iom_device.specs.Caches.{cache_of, device_with};
ghost use Rattle.iom_inflight.specs.Invariant.{CarriesBytes};
ghost use Rattle.iom_iommu.specs.Parts.{IsAdded, flights_of, frames_of};
ghost use Rattle.iom_iommu.specs.Requests.{access_of};
ghost use Rattle.iom_stepped_board.specs.Beside.{AreBeside};
ghost use Rattle.iom_stepped_board.specs.ThroughCache.{GoesByCacheBeside, RequestsThroughCacheBeside};

use crate::permits::why_not_cached;
use iom_base::{AccessKind, DeviceId, PAGE_SIZE, Refusal, Span};
use iom_board::{Board, CacheReply, Sender};
use iom_device::Device;
use iom_fabric::PageNumber;
use iom_iommu::Reply;
use iom_walks::Walks;

/// The device with this id, if one is plugged in.
fn device_with(board: &Board, id: DeviceId) -> Option<&Device>
    ensures { option_map (λ device. device.now) result ≡ device_with board.now.devices.items id }
{
    board.devices.iter().find(|device| device.id == id)
}

/// The frame that the device's own cache has for an access of the kind at the address.
fn cached_frame(board: &Board, id: DeviceId, address: u64, kind: AccessKind) -> Option<u32>
    ensures { result ≡ option_and_then (λ (cache : Cache). frame_for cache (address / page_size) kind) (cache_of board.now.devices.items id) }
{
    let page = PageNumber::new(address / PAGE_SIZE).unwrap();
    match device_with(board, id) {
        Some(device) => device.look(page, kind),
        None => None,
    }
}

/// What comes of an access of a device that can have it through its own cache.
fn go_by_cache(
    board: &mut Board,
    walks: &Walks,
    id: DeviceId,
    address: u64,
    len: u64,
    kind: AccessKind,
    bytes: &[u8],
) -> CacheReply
    requires memory { length board.old.memory ≡ frames_of board.old.iommu }
    requires added { IsAdded board.old.iommu id }
    requires count { (flights_of board.old.iommu).so_far + 1 < 2 ^ 64 }
    requires carries { CarriesBytes kind len bytes.now }
    ensures effect { GoesByCacheBeside walks.now id (access_of address len kind bytes.now) (board_parts board.old) result (board_parts board.new) }
    ensures frames { length board.new.memory ≡ length board.old.memory }
    ensures disks { disks_at_hand board.new ≡ disks_at_hand board.old }
    ensures events { board.new.events ≡ board.old.events }
{
    if Span::new(address, len).is_none() {
        return CacheReply::Replied(Reply::BadSpan);
    }
    if board.iommu.is_full_beside(walks, id) {
        return CacheReply::Replied(Reply::Busy);
    }
    let Some(frame) = cached_frame(board, id, address, kind) else {
        return CacheReply::Miss;
    };
    let physical = u64::from(frame) * PAGE_SIZE + address % PAGE_SIZE;
    CacheReply::Replied(
        board
            .iommu
            .translated_beside(&mut board.memory, walks, id, physical, len, kind, bytes),
    )
}

/// A device asks for an access at the address through its own cache: the first that applies of `Replied(BadSpan)`,
/// `Replied(Busy)`, where a request of it that is under way counts as one of the eight, `Miss` where the cache has no frame for
/// it, and what the IOMMU answers to the translated request at that frame. It is one event. `NoSuchDevice` where no device has
/// the id, `WrongKind` where its kind has none so; nothing changes then.
pub fn through_cache(
    board: &mut Board,
    walks: &Walks,
    sender: Sender,
    id: DeviceId,
    address: u64,
    len: u64,
    kind: AccessKind,
    bytes: &[u8],
) -> Result<CacheReply, Refusal>
    requires invariants { BoardInvariant (board_parts board.old) board.old.events }
    requires beside { AreBeside (board_parts board.old) walks.now }
    requires count { board.old.events + 1 < 2 ^ 64 }
    requires carries { CarriesBytes kind len bytes.now }
    ensures effect { RequestsThroughCacheBeside (cached_by sender) (board_parts board.old) walks.now id
        (access_of address len kind bytes.now) result (board_parts board.new) }
    ensures invariants { BoardInvariant (board_parts board.new) board.new.events }
    ensures beside { AreBeside (board_parts board.new) walks.now }
    ensures counted { IsCounted board.old board.new }
{
    board.events += 1;
    if let Some(why) = why_not_cached(board.kind_of(id), sender) {
        return Err(why);
    }
    Ok(go_by_cache(board, walks, id, address, len, kind, bytes))
}
