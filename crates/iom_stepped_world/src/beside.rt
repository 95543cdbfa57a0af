// Requests that need no walk, beside those that are under way (PCI Express Base Specification, section 10.2).
ghost use Rattle.std.specs.Prelude.{◌≡◌, ◌+◌, ◌<◌, ◌^◌};
ghost use Rattle.iom_inflight.specs.Invariant.{CarriesBytes};
ghost use Rattle.iom_iommu.specs.Requests.{access_of};
ghost use Rattle.iom_machine.specs.declared.event.Event.{Event};
ghost use Rattle.iom_machine.specs.declared.event.Event.TheVariants as events;
ghost use Rattle.iom_stepped_machine.specs.Machine.{Answer, Whole};
ghost use Rattle.iom_stepped_world.specs.Asked.{AsksThroughCache, SaysTranslated};
ghost use Rattle.iom_stepped_world.specs.Happens.{Does};
ghost use Rattle.iom_stepped_world.specs.Shown.{stepped_of};
ghost use Rattle.iom_stepped_world.specs.Sound.{AreBesideWorld, AreSound};

use crate::answering::{cached_outcome, request_outcome};
use iom_base::{AccessKind, DeviceId};
use iom_board::Sender;
use iom_machine::Outcome;
use iom_stepped_board as board;
use iom_virtio_blk::Disk;
use iom_walks::Walks;
use iom_world::World;
use iom_world_effects::laws_below;

/// A raw device says of a request that it is translated already. A request of it that is under way counts as one of the eight.
pub(crate) fn translated<D: Disk>(
    world: &mut World<D>,
    walks: &Walks,
    id: DeviceId,
    address: u64,
    len: u64,
    kind: AccessKind,
    bytes: &[u8],
) -> Outcome
    requires sound { AreSound D.shown world.old walks.now }
    requires count { world.old.hardware.board.events + 1 < 2 ^ 64 }
    requires carries { CarriesBytes kind len bytes.now }
    ensures does { (event : Event) → SaysTranslated event id (access_of address len kind bytes.now)
        → Does (stepped_of D.shown world.old walks.now) (Whole event) (Answer result) (stepped_of D.shown world.new walks.now) }
    ensures beside { AreBesideWorld D.shown world.new walks.now }
{
    laws_below();
    request_outcome(board::translated(
        &mut world.hardware.board,
        walks,
        id,
        address,
        len,
        kind,
        bytes,
    ))
}

/// A device asks for an access through its own cache. A request of it that is under way counts as one of the eight.
pub(crate) fn through_cache<D: Disk>(
    world: &mut World<D>,
    walks: &Walks,
    id: DeviceId,
    address: u64,
    len: u64,
    kind: AccessKind,
    bytes: &[u8],
) -> Outcome
    requires sound { AreSound D.shown world.old walks.now }
    requires count { world.old.hardware.board.events + 1 < 2 ^ 64 }
    requires carries { CarriesBytes kind len bytes.now }
    ensures does { (event : Event) → AsksThroughCache event id (access_of address len kind bytes.now)
        → Does (stepped_of D.shown world.old walks.now) (Whole event) (Answer result) (stepped_of D.shown world.new walks.now) }
    ensures beside { AreBesideWorld D.shown world.new walks.now }
{
    laws_below();
    cached_outcome(board::through_cache(
        &mut world.hardware.board,
        walks,
        Sender::Own,
        id,
        address,
        len,
        kind,
        bytes,
    ))
}

/// It says so of a read of so many bytes.
pub(crate) fn read_translated<D: Disk>(
    world: &mut World<D>,
    walks: &Walks,
    id: DeviceId,
    address: u64,
    len: u64,
) -> Outcome
    requires sound { AreSound D.shown world.old walks.now }
    requires count { world.old.hardware.board.events + 1 < 2 ^ 64 }
    ensures does { Does (stepped_of D.shown world.old walks.now) (Whole (events.ReadTranslated id address len)) (Answer result) (stepped_of D.shown world.new walks.now) }
    ensures beside { AreBesideWorld D.shown world.new walks.now }
{
    translated(world, walks, id, address, len, AccessKind::Read, &[])
}

/// It says so of a write of the bytes.
pub(crate) fn write_translated<D: Disk>(
    world: &mut World<D>,
    walks: &Walks,
    id: DeviceId,
    address: u64,
    bytes: &[u8],
) -> Outcome
    requires sound { AreSound D.shown world.old walks.now }
    requires count { world.old.hardware.board.events + 1 < 2 ^ 64 }
    ensures does { Does (stepped_of D.shown world.old walks.now) (Whole (events.WriteTranslated id address bytes.now)) (Answer result) (stepped_of D.shown world.new walks.now) }
    ensures beside { AreBesideWorld D.shown world.new walks.now }
{
    let len = bytes.len() as u64;
    translated(world, walks, id, address, len, AccessKind::Write, bytes)
}

/// It asks so for a read of so many bytes.
pub(crate) fn read_through_cache<D: Disk>(
    world: &mut World<D>,
    walks: &Walks,
    id: DeviceId,
    address: u64,
    len: u64,
) -> Outcome
    requires sound { AreSound D.shown world.old walks.now }
    requires count { world.old.hardware.board.events + 1 < 2 ^ 64 }
    ensures does { Does (stepped_of D.shown world.old walks.now) (Whole (events.ReadThroughCache id address len)) (Answer result) (stepped_of D.shown world.new walks.now) }
    ensures beside { AreBesideWorld D.shown world.new walks.now }
{
    through_cache(world, walks, id, address, len, AccessKind::Read, &[])
}

/// It asks so for a write of the bytes.
pub(crate) fn write_through_cache<D: Disk>(
    world: &mut World<D>,
    walks: &Walks,
    id: DeviceId,
    address: u64,
    bytes: &[u8],
) -> Outcome
    requires sound { AreSound D.shown world.old walks.now }
    requires count { world.old.hardware.board.events + 1 < 2 ^ 64 }
    ensures does { Does (stepped_of D.shown world.old walks.now) (Whole (events.WriteThroughCache id address bytes.now)) (Answer result) (stepped_of D.shown world.new walks.now) }
    ensures beside { AreBesideWorld D.shown world.new walks.now }
{
    let len = bytes.len() as u64;
    through_cache(world, walks, id, address, len, AccessKind::Write, bytes)
}
