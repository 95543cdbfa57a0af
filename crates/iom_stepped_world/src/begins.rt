// A device asks for an access at an address that the IOMMU translates.
ghost use Rattle.std.specs.Prelude.{◌≡◌, ◌+◌, ◌<◌, ◌^◌};
ghost use Rattle.iom_inflight.specs.Invariant.{CarriesBytes};
ghost use Rattle.iom_iommu.specs.Requests as requests;
ghost use Rattle.iom_stepped_machine.specs.Machine.{Whole};
ghost use Rattle.iom_stepped_machine.specs.Walks.{Asking, Reads, Writes, access_of, event_of};
ghost use Rattle.iom_stepped_world.specs.Asked.{IsSent};
ghost use Rattle.iom_stepped_world.specs.Happens.{Does};
ghost use Rattle.iom_stepped_world.specs.Shown.{stepped_of};
ghost use Rattle.iom_stepped_world.specs.Sound.{AreBesideWorld, AreSound};
ghost use Rattle.iom_stepped_world.specs.Told.{told};

use crate::answering::begun_outcome;
use crate::outcome::SteppedOutcome;
use iom_base::{AccessKind, DeviceId};
use iom_stepped_hardware as hardware;
use iom_stepped_refinement::idle_law;
use iom_virtio_blk::Disk;
use iom_walks::Walks;
use iom_world::World;
use iom_world_walks::begins_law;

/// A device asks for an access to so many bytes. The first that applies: `NoSuchDevice`; `WrongKind` where its kind
/// sends none so; `BadSpan`; `Busy`, where a request of it that is under way counts as one of the eight; `Occupied` where
/// one is; its answer, where no load is needed; else `Walking`.
pub(crate) fn begin<D: Disk>(
    world: &mut World<D>,
    walks: &mut Walks,
    id: DeviceId,
    address: u64,
    len: u64,
    kind: AccessKind,
    bytes: &[u8],
) -> SteppedOutcome
    requires sound { AreSound D.shown world.old walks.old }
    requires count { world.old.hardware.board.events + 1 < 2 ^ 64 }
    requires carries { CarriesBytes kind len bytes.now }
    ensures does { (asking : Asking) → IsSent asking → access_of asking ≡ requests.access_of address len kind bytes.now
        → Does (stepped_of D.shown world.old walks.old) (Whole (event_of id asking)) (told result) (stepped_of D.shown world.new walks.new) }
    ensures beside { AreBesideWorld D.shown world.new walks.new }
{
    begins_law();
    idle_law();
    begun_outcome(hardware::begin(&mut world.hardware, walks, id, address, len, kind, bytes))
}

/// A device asks for a read of so many bytes at the address.
pub(crate) fn read<D: Disk>(
    world: &mut World<D>,
    walks: &mut Walks,
    id: DeviceId,
    address: u64,
    len: u64,
) -> SteppedOutcome
    requires sound { AreSound D.shown world.old walks.old }
    requires count { world.old.hardware.board.events + 1 < 2 ^ 64 }
    ensures does { Does (stepped_of D.shown world.old walks.old) (Whole (event_of id (Reads address len))) (told result) (stepped_of D.shown world.new walks.new) }
    ensures beside { AreBesideWorld D.shown world.new walks.new }
{
    begin(world, walks, id, address, len, AccessKind::Read, &[])
}

/// A device asks for a write of the bytes at the address: answered as a read is.
pub(crate) fn write<D: Disk>(
    world: &mut World<D>,
    walks: &mut Walks,
    id: DeviceId,
    address: u64,
    bytes: &[u8],
) -> SteppedOutcome
    requires sound { AreSound D.shown world.old walks.old }
    requires count { world.old.hardware.board.events + 1 < 2 ^ 64 }
    ensures does { Does (stepped_of D.shown world.old walks.old) (Whole (event_of id (Writes address bytes.now))) (told result) (stepped_of D.shown world.new walks.new) }
    ensures beside { AreBesideWorld D.shown world.new walks.new }
{
    let len = bytes.len() as u64;
    begin(world, walks, id, address, len, AccessKind::Write, bytes)
}
