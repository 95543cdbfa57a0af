// Runs, as tables of what is done and told.

use crate::acts::Act::{
    Attach, Commit, Detach, Fetch, Grant, Load, Plug, Poll, Read, Release, Reset,
};
use crate::acts::Tells::{
    Accepted, Busy, Confirmed, Did, Done, Fault, Loaded, NoWalk, Occupied, Ticket, Waiting, Walking,
};
use crate::acts::{Act, Expected, Tells, event_of};
use iom_base::Cause::{DirectoryEntryNotValid, ReadPageFault};
use iom_machine::CommandName::{IodirInvalDdt, IofenceC, IotinvalVma};
use iom_stepped_world::SteppedWorld;
use iom_virtio_blk::MemoryDisk;
use std::alloc::Global;
use std::test::Fail;

/// The place of the first row that is told otherwise, if one is.
fn first_wrong(alloc: Global, rows: &[(Act, Tells)]) -> Result<Option<usize>, Fail> {
    let disks: Vec<MemoryDisk> = Vec::new(alloc);
    let mut events = Vec::new(alloc);
    for (act, _) in rows {
        events.push(event_of(*act))?;
    }
    let mut world = SteppedWorld::new(alloc, 64, 1, disks)?;
    let mut expected = Expected { rows, at: 0 };
    let told = world.run(events.as_slice(), &mut expected);
    Ok(told.err())
}

/// Entries are loaded as they are at their own loads: a page that is granted while a walk is on its way to it is found, and one
/// that is released isn't, by a walk that has begun before. An IOTINVAL has a walk begin anew (section 3.1.1).
static WALKS: [(Act, Tells); 29] = [
    (Plug, Done),
    (Attach, Done),
    (Grant(3, 5), Done),
    (Load, NoWalk),
    (Read(0x3000), Walking),
    (Read(0x3000), Occupied),
    (Load, Loaded),
    (Load, Loaded),
    (Load, Loaded),
    (Load, Accepted(1)),
    (Load, NoWalk),
    (Read(0x3000), Accepted(2)),
    (Read(0x4000), Walking),
    (Load, Loaded),
    (Load, Loaded),
    (Grant(4, 6), Done),
    (Load, Accepted(3)),
    (Release(3), Ticket(1)),
    (Read(0x5000), Walking),
    (Load, Loaded),
    (Fetch, Did(IotinvalVma)),
    (Load, Loaded),
    (Load, Loaded),
    (Load, Loaded),
    (Load, Fault(ReadPageFault)),
    (Load, NoWalk),
    (Fetch, Waiting),
    (Commit, Tells::Read(1)),
    (Commit, Tells::Read(1)),
];

/// The page is handed on while a walk to it is under way: the walk began before the release, begins anew by its IOTINVAL, and
/// finds the frame that the page has at its last load. So does a walk under which its device is detached, by the IODIR.INVAL_DDT:
/// it finds no context (section 3.1.2).
static HANDED_ON: [(Act, Tells); 29] = [
    (Plug, Done),
    (Attach, Done),
    (Grant(3, 5), Done),
    (Read(0x3000), Walking),
    (Load, Loaded),
    (Load, Loaded),
    (Load, Loaded),
    (Release(3), Ticket(1)),
    (Fetch, Did(IotinvalVma)),
    (Fetch, Did(IofenceC)),
    (Poll, Confirmed(1, 1)),
    (Grant(3, 7), Done),
    (Load, Loaded),
    (Load, Loaded),
    (Load, Loaded),
    (Load, Accepted(1)),
    (Commit, Tells::Read(1)),
    (Release(3), Ticket(2)),
    (Fetch, Did(IotinvalVma)),
    (Fetch, Did(IofenceC)),
    (Poll, Confirmed(2, 2)),
    (Read(0x3000), Walking),
    (Load, Loaded),
    (Detach, Ticket(3)),
    (Fetch, Did(IodirInvalDdt)),
    (Fetch, Did(IotinvalVma)),
    (Fetch, Did(IofenceC)),
    (Poll, Confirmed(3, 3)),
    (Load, Fault(DirectoryEntryNotValid)),
];

/// A walk counts among the eight accesses of its device, and a reset gives it up (section 2.3; PCI Express, function level reset).
static COUNTED: [(Act, Tells); 28] = [
    (Plug, Done),
    (Attach, Done),
    (Grant(3, 5), Done),
    (Read(0x3000), Walking),
    (Load, Loaded),
    (Load, Loaded),
    (Load, Loaded),
    (Load, Accepted(1)),
    (Read(0x3000), Accepted(2)),
    (Read(0x3000), Accepted(3)),
    (Read(0x3000), Accepted(4)),
    (Read(0x3000), Accepted(5)),
    (Read(0x3000), Accepted(6)),
    (Read(0x3000), Accepted(7)),
    (Read(0x4000), Walking),
    (Read(0x3000), Busy),
    (Reset, Done),
    (Load, NoWalk),
    (Read(0x3000), Accepted(8)),
    (Read(0x4000), Busy),
    (Commit, Tells::Read(1)),
    (Read(0x4000), Walking),
    (Load, Loaded),
    (Load, Loaded),
    (Load, Fault(ReadPageFault)),
    (Read(0x3000), Accepted(9)),
    (Read(0x3000), Busy),
    (Load, NoWalk),
];

#[test]
fn entries_are_loaded_as_they_are_at_their_own_loads(rt: HostRuntime) -> Result<(), Fail> {
    assert_eq!(rt; first_wrong(rt.alloc(), &WALKS)?, None);
    Ok(())
}

#[test]
fn a_page_is_handed_on_under_a_walk(rt: HostRuntime) -> Result<(), Fail> {
    assert_eq!(rt; first_wrong(rt.alloc(), &HANDED_ON)?, None);
    Ok(())
}

#[test]
fn a_walk_counts_and_a_reset_gives_it_up(rt: HostRuntime) -> Result<(), Fail> {
    assert_eq!(rt; first_wrong(rt.alloc(), &COUNTED)?, None);
    Ok(())
}
